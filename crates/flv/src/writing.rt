// FLV files, written piece by piece into a lent output: the start, then frame behind frame. All is judged before the first byte is stored.
ghost use Rattle.std.specs.Prelude.{◌≡◌, cond, ltb, length, Ok, Err};
ghost use Rattle.flv.specs.Calls.{byte_of_type, start_answer, start_output, frame_answer, frame_output, given_frame};

use crate::places::{HEAD, START, TAG};
use outputs::put;
use types::ErrorCode;

// `FLV`, version 1, flags for audio and video, data offset 9, and the first back-pointer.
const START_BYTES: [u8; START] = *b"FLV\x01\x05\0\0\0\x09\0\0\0\0";

const LONGEST: usize = 16777215;

// Writes the start of a file: how many bytes were written.
#[tactic(auto, using(std::proofs::lemmas::Bool::Decides::nat_tests), unfolding(crate::specs::Calls::start_answer, crate::specs::Calls::start_output, writers::specs::Writing::or_short, outputs::specs::Outputs::put_at, outputs::specs::Outputs::with_at))]
pub fn flv_write_start(output: &mut [u8]) -> Result<usize, ErrorCode>
    ensures answer { result ≡ start_answer (length output.old) }
    ensures output { output.new ≡ start_output output.old }
{
    if !put(&START_BYTES, output, 0) {
        return Err(ErrorCode::OutputTooShort);
    }
    Ok(START)
}

// The type byte of a frame's tag.
// Kept (1): a number, as in flv_write_frame.
fn type_byte(frame_type: u32) -> Result<u8, ErrorCode>
    ensures { result ≡ cond (ltb 2 frame_type) (Err ErrorCode.UnknownFrameType) (Ok (byte_of_type frame_type)) }
{
    match frame_type {
        0 => Ok(8),
        1 => Ok(9),
        2 => Ok(18),
        _ => Err(ErrorCode::UnknownFrameType),
    }
}

// Writes a frame as a tag: how many bytes were written. Nothing is stored if the call is refused.
// Kept (1): the frame type is a number, of which one that no frame has is refused (clause `answer`).
#[tactic(auto, using(crate::proofs::Puts::frame_put, crate::proofs::Puts::tag_long, std::proofs::lemmas::Bool::Decides::nat_tests), unfolding(crate::specs::Calls::frame_fault, crate::specs::Calls::frame_answer, crate::specs::Calls::frame_output, writers::specs::Writing::or_short))]
pub fn flv_write_frame(
    frame_type: u32,
    timestamp: u32,
    body: &[u8],
    output: &mut [u8],
) -> Result<usize, ErrorCode>
    ensures answer { result ≡ frame_answer (given_frame frame_type timestamp body.now) (length output.old) }
    ensures output { output.new ≡ frame_output (given_frame frame_type timestamp body.now) output.old }
{
    let byte = type_byte(frame_type)?;
    let size = body.len();
    if LONGEST < size {
        return Err(ErrorCode::BadLength);
    }
    if output.len() < size + TAG {
        return Err(ErrorCode::OutputTooShort);
    }
    let [_, s2, s1, s0] = (size as u32).to_be_bytes();
    let [t3, t2, t1, t0] = timestamp.to_be_bytes();
    put(&[byte, s2, s1, s0, t2, t1, t0, t3, 0, 0, 0], output, 0);
    put(body, output, HEAD);
    put(&((size + HEAD) as u32).to_be_bytes(), output, HEAD + size);
    Ok(size + TAG)
}
