// Tracks in columns: one walk puts the tracks of a container into lent columns, and then any track is read from them without another walk. Entry i of each
// column says one thing of track i, as in the columns that `writers` takes.
#![tactic(auto)]

ghost use Rattle.std.specs.Prelude.{◌≡◌, ◌+◌, ◌≤◌, ◌<◌, min, length};
ghost use Rattle.wire.specs.Wire.{part, be32_at};
ghost use Rattle.types.specs.Types.{frame_number};
ghost use Rattle.multitrack_media.specs.Container.{track_fourcc, place_at};
ghost use Rattle.multitrack_media.specs.Positions.{places_at};
ghost use Rattle.multitrack_media.specs.Halves.{head_behind};
ghost use Rattle.writers.specs.Columns.{asked_columns};
ghost use Rattle.track_columns.specs.Columns.{
  lent_columns,
  shortest,
  columns_result,
  filled,
  columns_after,
  is_outside,
  column_track,
  column_part,
  found_verdict,
  column_answer,
};

use frame::{TrackAnswer, Verdict, record_verdict};
use multitrack_media::{
    AvMultitrackType, Halves, TrackHeader, TrackInfo, multitrack_type, no_track, read_track_header,
    track_halves, tracks_start, video_frame_type,
};
use types::{ErrorCode, FrameType};
use writers::columns::{TrackColumns, part_leaves};

// No RTMP message is longer: its length has 24 bits.
const LONGEST_PAYLOAD: usize = 16777215;

// One entry of each column: what is stored of a track.
#[derive(Clone, Copy, Debug, PartialEq, Eq, Default)]
struct TrackEntry {
    id: u8,
    fourcc: u32,
    start: usize,
    length: usize,
}

// The length of the shortest column.
fn shortest(ids: usize, fourccs: usize, starts: usize, lengths: usize) -> usize
    ensures { result ≡ min ids (min fourccs (min starts lengths)) }
{
    ids.min(fourccs.min(starts.min(lengths)))
}

// The number of the FourCC of the track whose head starts at `at`, where `shared` is that of bytes 2 to 5.
#[tactic(auto, unfolding(multitrack_media::specs::Container::track_fourcc, fourcc::specs::Fourcc::fourcc_at))]
fn fourcc_number(payload: &[u8], form: AvMultitrackType, shared: u32, at: usize) -> u32
    requires { shared ≡ be32_at payload.now 2 }
    ensures { result ≡ be32_at (track_fourcc form payload.now at) 0 }
{
    match form {
        AvMultitrackType::OneTrack | AvMultitrackType::ManyTracks => shared,
        AvMultitrackType::ManyTracksManyCodecs => wire::be32_at(payload, at) as u32,
    }
}

// The entry of the track whose head starts at `at`; all 0 where no track starts.
#[tactic(auto, using(crate::proofs::Filling::entry_none))]
fn entry_at(payload: &[u8], form: AvMultitrackType, shared: u32, at: usize) -> TrackEntry
    requires { shared ≡ be32_at payload.now 2 }
    ensures { (result.id ≡ (place_at form payload.now at).id) × (result.fourcc ≡ be32_at (place_at form payload.now at).fourcc 0)
        × (result.start ≡ (place_at form payload.now at).start) × (result.length ≡ (place_at form payload.now at).length) }
{
    let Some(
        TrackHeader {
            track_id,
            start,
            length,
        },
    ) = read_track_header(payload, form, at)
    else {
        return TrackEntry::default();
    };
    TrackEntry {
        id: track_id,
        fourcc: fourcc_number(payload, form, shared, at),
        start,
        length,
    }
}

// Puts `count` tracks, the first of which has its head at `from`, into the front of the columns. Each head says where the next one is, so two chains of heads
// are followed side by side: from the first track on, and from track `middle`, if there is one, which has its head at `there`.
fn fill(
    payload: &[u8],
    form: AvMultitrackType,
    from: usize,
    count: usize,
    middle: usize,
    there: usize,
    ids: &mut [u8],
    fourccs: &mut [u32],
    starts: &mut [usize],
    lengths: &mut [usize],
)
    requires room { count ≤ shortest (lent_columns ids.old fourccs.old starts.old lengths.old) }
    requires half { (middle ≤ count) × (middle < count → there ≡ head_behind middle form payload.now from) }
    ensures { lent_columns ids.new fourccs.new starts.new lengths.new
        ≡ filled (places_at count form payload.now from) (lent_columns ids.old fourccs.old starts.old lengths.old) }
{
    let shared = wire::be32_at(payload, 2) as u32;
    let pairs = count - middle;
    let mut at = from;
    let mut far = there;
    // Kept (3): entries i and j of four columns, here and below.
    for i in 0..pairs {
        let track = entry_at(payload, form, shared, at);
        let other = entry_at(payload, form, shared, far);
        let j = middle + i;
        ids[i] = track.id;
        ids[j] = other.id;
        fourccs[i] = track.fourcc;
        fourccs[j] = other.fourcc;
        starts[i] = track.start;
        starts[j] = other.start;
        lengths[i] = track.length;
        lengths[j] = other.length;
        at = track.start + track.length;
        far = other.start + other.length;
    }
    for i in pairs..middle {
        let track = entry_at(payload, form, shared, at);
        ids[i] = track.id;
        fourccs[i] = track.fourcc;
        starts[i] = track.start;
        lengths[i] = track.length;
        at = track.start + track.length;
    }
}

// Puts all tracks of a container into columns. Refused are, in this order: -21 a frame type above 3; -24 anything but an accepted container; -22 a column
// shorter than the count, or a payload over 16,777,215 bytes. All is judged before the first entry is stored.
// Kept (1, 5, 6): by number, since -21 is an answer of this call; four lent columns stay parameters, since a struct of `&mut` slices has no name in a clause (tried).
pub fn walk_columns(
    frame_type: u32,
    payload: &[u8],
    ids: &mut [u8],
    fourccs: &mut [u32],
    starts: &mut [usize],
    lengths: &mut [usize],
) -> Result<usize, ErrorCode>
    ensures result { result ≡ columns_result frame_type payload.now
        (shortest (lent_columns ids.old fourccs.old starts.old lengths.old)) }
    ensures columns { lent_columns ids.new fourccs.new starts.new lengths.new
        ≡ columns_after frame_type payload.now (lent_columns ids.old fourccs.old starts.old lengths.old) }
{
    let Halves { count, middle, at } = track_halves(frame_type, payload)?;
    if shortest(ids.len(), fourccs.len(), starts.len(), lengths.len()) < count
        || LONGEST_PAYLOAD < payload.len()
    {
        return Err(ErrorCode::OutputTooShort);
    }
    let form = multitrack_type(payload);
    fill(
        payload,
        form,
        tracks_start(form),
        count,
        middle,
        at,
        ids,
        fourccs,
        starts,
        lengths,
    );
    Ok(count)
}

// Whether columns, count and payload have no track of this number.
// Kept (5): count, columns and payload, here and below, are all that the entry has.
#[tactic(auto, using(crate::proofs::Reading::outside_laws))]
fn is_outside(count: usize, columns: &TrackColumns, payload: &[u8], number: usize) -> bool
    ensures { result ≡ is_outside (asked_columns columns.now) count payload.now number }
{
    count <= number
        || shortest(
            columns.ids.len(),
            columns.fourccs.len(),
            columns.starts.len(),
            columns.lengths.len(),
        ) <= number
        || payload.len() < 2
        || part_leaves(
            payload.len(),
            columns.starts[number],
            columns.lengths[number],
        )
}

// A track by number, of a frame type that is known.
#[tactic(auto, using(crate::proofs::Reading::known_laws, types::proofs::Laws::is_known))]
fn known_column_info(
    frame_type: FrameType,
    count: usize,
    columns: &TrackColumns,
    payload: &[u8],
    number: usize,
) -> TrackInfo
    ensures { result ≡ column_track (frame_number frame_type) (asked_columns columns.now) count payload.now number }
{
    if is_outside(count, columns, payload, number) {
        return no_track(ErrorCode::NoSuchTrack, count);
    }
    TrackInfo {
        error: ErrorCode::Ok,
        count,
        track_id: columns.ids[number],
        packet_type: wire::byte_at(payload, 1) % 16,
        fourcc: columns.fourccs[number].to_be_bytes(),
        video_frame_type: video_frame_type(frame_type, payload),
        start: columns.starts[number],
        length: columns.lengths[number],
    }
}

// The same by the frame type's number. Refused are, in this order: -21 a frame type above 3; -23, with the lent count, a number that is not below the count
// and every column's length, a payload under 2 bytes, or a place that leaves the payload.
// Kept (1): by number, here and below, since -21 is an answer of these calls.
#[tactic(auto, using(crate::proofs::Calls::info_known, crate::proofs::Calls::track_inside))]
pub fn column_info(
    frame_type: u32,
    count: usize,
    columns: &TrackColumns,
    payload: &[u8],
    number: usize,
) -> TrackInfo
    ensures meaning { result ≡ column_track frame_type (asked_columns columns.now) count payload.now number }
    ensures inside { result.start + result.length ≤ length payload.now }
{
    match FrameType::from_number(frame_type) {
        Ok(media) => known_column_info(media, count, columns, payload, number),
        Err(error) => no_track(error, 0),
    }
}

// The body of that track, as a part of the payload; empty where the reading is refused.
#[tactic(auto, using(crate::proofs::Calls::part_of))]
pub fn column_payload<'a>(
    frame_type: u32,
    count: usize,
    columns: &TrackColumns,
    payload: &'a [u8],
    number: usize,
) -> &'a [u8]
    ensures { result.now ≡ column_part frame_type (asked_columns columns.now) count payload.now number }
{
    let track = column_info(frame_type, count, columns, payload, number);
    let end = track.start + track.length;
    &payload[track.start..end]
}

#[tactic(auto, using(crate::proofs::Calls::verdict_refused, crate::proofs::Calls::verdict_found))]
fn found_verdict(frame_type: FrameType, payload: &[u8], track: TrackInfo) -> Verdict
    requires { track.start + track.length ≤ length payload.now }
    ensures { result ≡ found_verdict (frame_number frame_type) track (part payload.now track.start track.length) }
{
    if !track.error.is_ok() {
        return Verdict::NoRecord;
    }
    let end = track.start + track.length;
    let part = &payload[track.start..end];
    record_verdict(frame_type, track.packet_type, track.fourcc, part)
}

// That track with the verdict of its record.
#[tactic(auto, using(crate::proofs::Calls::answered, crate::proofs::Calls::answered_unknown))]
pub fn column_request(
    frame_type: u32,
    count: usize,
    columns: &TrackColumns,
    payload: &[u8],
    number: usize,
) -> TrackAnswer
    ensures { result ≡ column_answer frame_type (asked_columns columns.now) count payload.now number }
{
    let track = column_info(frame_type, count, columns, payload, number);
    let verdict = match FrameType::from_number(frame_type) {
        Ok(media) => found_verdict(media, payload, track),
        Err(_) => Verdict::NoRecord,
    };
    TrackAnswer { track, verdict }
}
