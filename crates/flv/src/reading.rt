// FLV files in memory, read frame by frame: `flv_start` says where the first tag begins, and `flv_next` goes from there to the next frame.
ghost use Rattle.std.specs.Prelude.{◌≡◌, ◌≤◌, ◌<◌, length, IfOk};
ghost use Rattle.flv.specs.Calls.{flv_start, frame_at, flv_next};

use crate::places::{HEAD, START, TAG, frame_type, is_frame, start_error, tag_size};
use types::ErrorCode;

// A frame. Its body is the part of the file that has this start and length; `next` is the place behind its tag.
#[derive(Clone, Copy, Debug, PartialEq, Eq)]
pub struct FlvFrame {
    pub frame_type: u32,
    pub timestamp: u32,
    pub start: usize,
    pub length: usize,
    pub next: usize,
}

// The start of a file: where the first tag begins.
#[tactic(auto, unfolding(crate::specs::Calls::flv_start))]
pub fn flv_start(file: &[u8]) -> Result<usize, ErrorCode>
    ensures { result ≡ flv_start file.now }
{
    start_error(file)?;
    Ok(START)
}

// The tag that begins at a place, taken for a frame.
#[tactic(auto, unfolding(crate::specs::Calls::tag_size, crate::specs::Calls::frame_at))]
fn frame_at(file: &[u8], at: usize) -> Result<FlvFrame, ErrorCode>
    requires { at ≤ length file.now }
    ensures frame { result ≡ frame_at file.now at }
    ensures forward { IfOk result (λ frame. at < frame.next) }
{
    let tag = &file[at..];
    let size = tag_size(tag)?;
    Ok(FlvFrame {
        frame_type: u32::from(frame_type(tag[0])),
        timestamp: u32::from_be_bytes([tag[7], tag[4], tag[5], tag[6]]),
        start: at + HEAD,
        length: size,
        next: at + (size + TAG),
    })
}

// The next frame from a place on, which is read as a tag's first byte, or None at the clean end. Other tags are stepped over.
#[tactic(auto, using(crate::proofs::Calls::next_past, crate::proofs::Calls::next_end, crate::proofs::Calls::next_refused, crate::proofs::Calls::next_found, crate::proofs::Calls::next_stepped))]
pub fn flv_next(file: &[u8], at: usize) -> Result<Option<FlvFrame>, ErrorCode>
    ensures { result ≡ flv_next file.now at }
{
    let mut place = at;
    // Kept (3): it goes from place to place.
    while place < file.len() {
        let frame = frame_at(file, place)?;
        if is_frame(file[place]) {
            return Ok(Some(frame));
        }
        place = frame.next;
    }
    if file.len() < place {
        return Err(ErrorCode::Truncated);
    }
    Ok(None)
}
