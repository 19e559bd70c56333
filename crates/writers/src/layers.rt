// ModEx layers around a payload, the outermost first.
ghost use Rattle.std.specs.Prelude.{◌≡◌, cond, [], ◌+◌, ◌≤◌, ◌<◌, ltb, length};
ghost use Rattle.types.specs.Types.{outcome};
ghost use Rattle.outputs.specs.Outputs.{in_front, with_at};
ghost use Rattle.writers.specs.Lengths.{left_after};
ghost use Rattle.writers.specs.ModexWriter.{
  modex_call,
  asked_modex,
  layers_out,
  layers_bad,
  size_bytes,
  layer_bytes,
  modex_written,
  modex_fault,
  modex_answer,
  modex_output,
};
ghost use Rattle.writers.specs.Claims.{WritableModex};

use crate::columns::{lengths_outside, parts_leave, room_left, types_outside};
use outputs::put;
use types::ErrorCode;
use wire::is_ex_header;

// Layers to be written around a payload: a type for each, and where its data start in the lent bytes and how long they are.
#[derive(Clone, Copy)]
pub struct ModexCall<'a> {
    pub frame_type: u32,
    pub count: usize,
    pub types: &'a [u8],
    pub starts: &'a [usize],
    pub lengths: &'a [usize],
    pub lent: &'a [u8],
    pub payload: &'a [u8],
}

impl ModexCall<'_> {
    // -26: a number of layers, a column or a part that cannot be.
    #[tactic(auto, using(crate::proofs::Entries::any_leaves), unfolding(crate::specs::ModexWriter::layers_out, crate::specs::Writing::any_of))]
    fn layers_out(&self) -> bool
        ensures { result ≡ layers_out (asked_modex self.now) }
    {
        self.count == 0
            || 32 < self.count
            || self.types.len() < self.count
            || self.starts.len() < self.count
            || self.lengths.len() < self.count
            || parts_leave(
                self.lent,
                &self.starts[..self.count],
                &self.lengths[..self.count],
            )
    }

    // Why layers cannot be written, whatever the output: the first of -21, -26, -27 and -28 that has a reason.
    #[tactic(auto, using(crate::proofs::Entries::any_outside), unfolding(crate::specs::ModexWriter::modex_fault, crate::specs::ModexWriter::data_bad, crate::specs::ModexWriter::layers_bad, crate::specs::ModexWriter::layers_out, crate::specs::Writing::any_of))]
    fn fault(&self) -> Result<(), ErrorCode>
        ensures { result ≡ outcome (modex_fault (asked_modex self.now)) }
    {
        if 3 < self.frame_type {
            return Err(ErrorCode::UnknownFrameType);
        }
        if self.layers_out() {
            return Err(ErrorCode::OutOfBounds);
        }
        if lengths_outside(&self.lengths[..self.count], 1, 65536) {
            return Err(ErrorCode::BadLength);
        }
        if types_outside(&self.types[..self.count]) || payload_bad(self.frame_type, self.payload) {
            return Err(ErrorCode::BadValue);
        }
        Ok(())
    }

    // What layers that have no fault, and their payload, leave of so much room.
    #[tactic(auto, using(crate::proofs::PutLayers::modex_measured), unfolding(crate::specs::Lengths::left_after))]
    fn room_left(&self, room: usize) -> Option<usize>
        requires { WritableModex (asked_modex self.now) }
        ensures { result ≡ left_after room (length (modex_written (asked_modex self.now))) }
    {
        let left = room.checked_sub(self.payload.len())?;
        room_left(&self.lengths[..self.count], 2, 4, left)
    }

    // Stores layers that have no fault, and their payload, in an output that has room for them.
    fn store(&self, output: &mut [u8])
        requires fine { WritableModex (asked_modex self.now) }
        requires room { length (modex_written (asked_modex self.now)) ≤ length output.old }
        ensures { output.new ≡ in_front (modex_written (asked_modex self.now)) output.old }
    {
        let tag = self.payload[0];
        put(&[tag / 16 * 16 + 7], output, 0);
        let mut at = 1;
        // Kept (3): as in containers; the last layer names another type.
        for i in 0..self.count {
            let start = self.starts[i];
            let content = &self.lent[start..start + self.lengths[i]];
            // The packet type that layer i names: 7 but for the last, which names the payload's.
            let next = if i + 1 == self.count { tag % 16 } else { 7 };
            at = put_layer(self.types[i], next, content, output, at);
        }
        put(&self.payload[1..], output, at);
    }
}

// Whether no payload of this kind can have layers: it is empty, lacks bit 7, has low nibble 7 or, in audio, lacks high nibble 9.
// Kept (1): the number a caller asked for, as in container.
#[tactic(auto, unfolding(crate::specs::ModexWriter::layers_bad, crate::specs::Writing::any_of, crate::specs::Columns::some_from))]
fn payload_bad(frame_type: u32, payload: &[u8]) -> bool
    ensures { result ≡ layers_bad (modex_call frame_type 0 [] [] [] [] payload.now) }
{
    match payload {
        [] => true,
        [tag, ..] => !is_ex_header(*tag) || *tag % 16 == 7 || (frame_type == 0 && *tag / 16 != 9),
    }
}

// The size of a layer's data, and the position behind it.
// Kept (6): as put_track of containers.
#[tactic(auto, using(outputs::proofs::Laws::put_room), unfolding(crate::specs::ModexWriter::size_bytes))]
fn put_size(size: usize, output: &mut [u8], at: usize) -> usize
    requires size_nonzero { (0 < size) × (size ≤ 65536) }
    requires size_in_bounds { at + cond (ltb size 256) 1 3 ≤ length output.old }
    ensures next { result ≡ at + cond (ltb size 256) 1 3 }
    ensures output { output.new ≡ with_at output.old at (size_bytes size) }
{
    let [.., high, low] = (size - 1).to_be_bytes();
    if size < 256 {
        put(&[low], output, at);
        at + 1
    } else {
        put(&[255, high, low], output, at);
        at + 3
    }
}

// Writes a layer at a position of the output, and returns the position behind it.
// Kept (1, 6): a layer's type is any nibble, of which ModexType names two; the output as in put_size.
#[tactic(auto, using(crate::proofs::PutLayers::layer_put))]
fn put_layer(kind: u8, next: u8, content: &[u8], output: &mut [u8], at: usize) -> usize
    requires kind_bound { (kind ≤ 15) × (next ≤ 15) }
    requires content_nonzero { (0 < length content.now) × (length content.now ≤ 65536) }
    requires content_in_bounds { at + (cond (ltb (length content.now) 256) 2 4 + length content.now) ≤ length output.old }
    ensures next { result ≡ at + (cond (ltb (length content.now) 256) 2 4 + length content.now) }
    ensures output { output.new ≡ with_at output.old at (layer_bytes next (record { type = kind; content = content.now })) }
{
    let from = put_size(content.len(), output, at);
    put(content, output, from);
    let behind = from + content.len();
    put(&[kind * 16 + next], output, behind);
    behind + 1
}

// Writes a payload with layers around it. All data are copied once, and nothing is stored if the call is refused.
// Kept (2): as write_container.
#[tactic(auto, unfolding(crate::specs::ModexWriter::modex_answer, crate::specs::ModexWriter::modex_output, crate::specs::ModexWriter::modex_error, crate::specs::Writing::or_short, crate::specs::Lengths::left_after))]
pub fn write_modex(call: &ModexCall, output: &mut [u8]) -> Result<usize, ErrorCode>
    ensures answer { result ≡ modex_answer (asked_modex call.now) (length output.old) }
    ensures output { output.new ≡ modex_output (asked_modex call.now) output.old }
{
    call.fault()?;
    let size = output.len();
    let left = call.room_left(size).ok_or(ErrorCode::OutputTooShort)?;
    call.store(output);
    Ok(size - left)
}
