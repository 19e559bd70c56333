// A container of any form. A form is its number: 0 OneTrack, 1 ManyTracks, 2 ManyTracksManyCodecs.
ghost use Rattle.std.specs.Prelude.{◌≡◌, false, not, cond, ◌&&◌, ◌||◌, [], ◌+◌, ◌≤◌, ◌<◌, eqb, ltb, length, slice_index};
ghost use Rattle.std.specs.List.{list_any};
ghost use Rattle.wire.specs.Wire.{bytes32};
ghost use Rattle.types.specs.Types.{is_video, is_script_or_metadata, outcome};
ghost use Rattle.multitrack_media.specs.Tracks.{head_size, track_bytes};
ghost use Rattle.multitrack_media.specs.Container.{form_number, tracks_start};
ghost use Rattle.outputs.specs.Outputs.{in_front, with_at};
ghost use Rattle.writers.specs.Lengths.{left_after, form_from};
ghost use Rattle.writers.specs.ContainerWriter.{
  container_call,
  asked_container,
  tracks_out,
  head_bad,
  container_written,
  container_fault,
  container_answer,
  container_output,
};
ghost use Rattle.writers.specs.Claims.{WritableContainer};

use crate::columns::{TrackColumns, fourccs_differ, lengths_outside, parts_leave, room_left};
use multitrack_media::{AvMultitrackType, own_number, tracks_start};
use outputs::put;
use types::ErrorCode;

// A container to be written. The video frame type counts in video only.
// Kept (1): types and form are numbers, since any number can be asked for, and each that is none is refused.
#[derive(Clone, Copy)]
pub struct ContainerCall<'a> {
    pub frame_type: u32,
    pub video_frame_type: u32,
    pub form: u32,
    pub packet_type: u32,
    pub count: usize,
    pub columns: TrackColumns<'a>,
    pub bodies: &'a [u8],
}

impl ContainerCall<'_> {
    // -26: a form, a number of tracks, a column or a part that cannot be.
    #[tactic(auto, using(crate::proofs::Entries::any_leaves), unfolding(crate::specs::ContainerWriter::tracks_out, crate::specs::Writing::any_of))]
    fn tracks_out(&self) -> bool
        ensures meaning { result ≡ tracks_out (asked_container self.now) }
        ensures counted { result ≡ false → (0 < self.now.count) × (self.now.count ≤ length self.now.columns.fourccs.now)
            × (self.now.count ≤ length self.now.columns.lengths.now) }
    {
        let most = if self.form == 0 { 1 } else { 4096 };
        let columns = &self.columns;
        2 < self.form
            || self.count == 0
            || most < self.count
            || columns.ids.len() < self.count
            || columns.fourccs.len() < self.count
            || columns.starts.len() < self.count
            || columns.lengths.len() < self.count
            || parts_leave(
                self.bodies,
                &columns.starts[..self.count],
                &columns.lengths[..self.count],
            )
    }

    // -28, but for the FourCCs: a value that cannot be.
    #[tactic(auto, unfolding(crate::specs::ContainerWriter::head_bad, crate::specs::Writing::any_of))]
    fn head_bad(&self) -> bool
        ensures { result ≡ head_bad (container_call self.now.frame_type self.now.video_frame_type 0 self.now.packet_type 0 [] [] [] [] []) }
    {
        frame_type_bad(self.frame_type, self.video_frame_type)
            || 15 < self.packet_type
            || self.packet_type == u32::from(own_number(self.frame_type))
    }

    // Why a container cannot be written, whatever the output: the first of -21, -26, -27 and -28 that has a reason.
    #[tactic(auto, using(crate::proofs::Entries::any_outside, crate::proofs::Entries::any_other), unfolding(crate::specs::ContainerWriter::container_fault, crate::specs::ContainerWriter::bodies_long, crate::specs::ContainerWriter::head_bad, crate::specs::Writing::any_of))]
    fn fault(&self) -> Result<(), ErrorCode>
        ensures { result ≡ outcome (container_fault (asked_container self.now)) }
    {
        if 3 < self.frame_type {
            return Err(ErrorCode::UnknownFrameType);
        }
        if self.tracks_out() {
            return Err(ErrorCode::OutOfBounds);
        }
        let lengths = &self.columns.lengths[..self.count];
        if bodies_long(self.form, lengths) {
            return Err(ErrorCode::BadLength);
        }
        let fourccs = &self.columns.fourccs[..self.count];
        if fourccs_unequal(self.form, fourccs) || self.head_bad() {
            return Err(ErrorCode::BadValue);
        }
        Ok(())
    }

    // The form, in a container that has no fault.
    fn form(&self) -> AvMultitrackType
        ensures { result ≡ form_from self.now.form }
    {
        match self.form {
            0 => AvMultitrackType::OneTrack,
            1 => AvMultitrackType::ManyTracks,
            _ => AvMultitrackType::ManyTracksManyCodecs,
        }
    }

    // What a container that has no fault leaves of so much room.
    #[tactic(auto, using(crate::proofs::PutTracks::container_measured), unfolding(crate::specs::Lengths::left_after))]
    fn room_left(&self, room: usize) -> Option<usize>
        requires { WritableContainer (asked_container self.now) }
        ensures { result ≡ left_after room (length (container_written (asked_container self.now))) }
    {
        let form = self.form();
        let each = head_size(form);
        let left = room.checked_sub(tracks_start(form))?;
        room_left(&self.columns.lengths[..self.count], each, each, left)
    }

    // Stores a container that has no fault in an output that has room for it.
    fn store(&self, output: &mut [u8])
        requires fine { WritableContainer (asked_container self.now) }
        requires room { length (container_written (asked_container self.now)) ≤ length output.old }
        ensures { output.new ≡ in_front (container_written (asked_container self.now)) output.old }
    {
        let form = self.form();
        let columns = &self.columns;
        let first = if self.frame_type == 1 {
            (128 + self.video_frame_type * 16 + 6) as u8
        } else {
            0x95
        };
        put(
            &[first, (self.form * 16 + self.packet_type) as u8],
            output,
            0,
        );
        let mut at = put_shared(form, columns.fourccs[0], output);
        // Kept (3): entry i of four columns, which the clause of a body in bounds names.
        for i in 0..self.count {
            let start = columns.starts[i];
            let body = &self.bodies[start..start + columns.lengths[i]];
            at = put_track(form, columns.ids[i], columns.fourccs[i], body, output, at);
        }
    }
}

// A body over 16,777,215 bytes where its length is written.
// Kept (1): numbers, here and below, as in ContainerCall.
fn bodies_long(form: u32, lengths: &[usize]) -> bool
    ensures { result ≡ (not (eqb form 0) && list_any (λ n. ltb n 0 || ltb 16777215 n) lengths.now) }
{
    form != 0 && lengths_outside(lengths, 0, 16777215)
}

// In ManyTracks, FourCCs that are not all the same.
fn fourccs_unequal(form: u32, fourccs: &[u32]) -> bool
    requires { 0 < length fourccs.now }
    ensures { result ≡ (eqb form 1 && list_any (λ n. not (eqb n (slice_index fourccs.now 0))) fourccs.now) }
{
    form == 1 && fourccs_differ(fourccs)
}

// A type that no container comes in or, in video, a frame type that none has.
fn frame_type_bad(frame_type: u32, video_frame_type: u32) -> bool
    ensures { result ≡ (is_script_or_metadata frame_type || (is_video frame_type && (eqb video_frame_type 5 || ltb 7 video_frame_type))) }
{
    match frame_type {
        1 => video_frame_type == 5 || 7 < video_frame_type,
        2 | 3 => true,
        _ => false,
    }
}

// How many bytes stand before a track's body.
fn head_size(form: AvMultitrackType) -> usize
    ensures { result ≡ head_size form }
{
    match form {
        AvMultitrackType::OneTrack => 1,
        AvMultitrackType::ManyTracks => 4,
        AvMultitrackType::ManyTracksManyCodecs => 8,
    }
}

// Writes a track at a position of the output, and returns the position behind it.
// Kept (6): the output goes whole from put to put, since the clause is of all its bytes.
#[tactic(auto, using(crate::proofs::PutTracks::track_put))]
fn put_track(
    form: AvMultitrackType,
    id: u8,
    fourcc: u32,
    body: &[u8],
    output: &mut [u8],
    at: usize,
) -> usize
    requires { at + (head_size form + length body.now) ≤ length output.old }
    ensures next { result ≡ at + (head_size form + length body.now) }
    ensures output { output.new ≡ with_at output.old at (track_bytes form (record { id = id; fourcc = bytes32 fourcc; body = body.now })) }
{
    let [.., high, middle, low] = body.len().to_be_bytes();
    match form {
        AvMultitrackType::OneTrack => put(&[id], output, at),
        AvMultitrackType::ManyTracks => put(&[id, high, middle, low], output, at),
        AvMultitrackType::ManyTracksManyCodecs => {
            let [a, b, c, d] = fourcc.to_be_bytes();
            put(&[a, b, c, d, id, high, middle, low], output, at)
        }
    };
    let from = at + head_size(form);
    put(body, output, from);
    from + body.len()
}

// The FourCC that all tracks share, if the form has one; returns where the tracks start.
#[tactic(auto, using(outputs::proofs::Laws::put_room, outputs::proofs::Laws::with_none))]
fn put_shared(form: AvMultitrackType, fourcc: u32, output: &mut [u8]) -> usize
    requires { tracks_start form ≤ length output.old }
    ensures next { result ≡ tracks_start form }
    ensures output { output.new ≡ with_at output.old 2 (cond (eqb (form_number form) 2) [] (bytes32 fourcc)) }
{
    match form {
        AvMultitrackType::OneTrack | AvMultitrackType::ManyTracks => {
            put(&fourcc.to_be_bytes(), output, 2);
            6
        }
        AvMultitrackType::ManyTracksManyCodecs => 2,
    }
}

// Writes a container. Each body is copied once, and nothing is stored if the call is refused.
// Kept (2): it and write_modex differ in the type of the call; a trait of three methods with their laws is no shorter than two bodies of four lines.
#[tactic(auto, unfolding(crate::specs::ContainerWriter::container_answer, crate::specs::ContainerWriter::container_output, crate::specs::ContainerWriter::container_error, crate::specs::Writing::or_short, crate::specs::Lengths::left_after))]
pub fn write_container(call: &ContainerCall, output: &mut [u8]) -> Result<usize, ErrorCode>
    ensures answer { result ≡ container_answer (asked_container call.now) (length output.old) }
    ensures output { output.new ≡ container_output (asked_container call.now) output.old }
{
    call.fault()?;
    let size = output.len();
    let left = call.room_left(size).ok_or(ErrorCode::OutputTooShort)?;
    call.store(output);
    Ok(size - left)
}
