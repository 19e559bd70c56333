// One frame of the sheet's input.
ghost use Rattle.std.specs.Prelude.{◌≡◌, cond, ◌+◌, ◌<◌, ◌≤◌, length};
ghost use Rattle.types.specs.Types.{outcome, error_number, is_ok};
ghost use Rattle.frame_sheet.specs.Lines.{refusal_line, text_answer, text_output};
ghost use Rattle.frame_sheet.specs.Steps.{
  input_error,
  body_length,
  line_of,
  pass_of,
  frame_error,
  frame_text,
  frame_output,
};

use crate::lines::{SheetLine, Written, refusal_line, sheet_line};
use frame::Report;
use types::ErrorCode;

// A head: the type byte and the 24-bit length.
pub const HEAD: usize = 4;

// The longest payload, and with it the longest result.
pub const LONGEST: usize = 32768;

const CAPS_EX_MASK: u32 = 4;

const ROUTE_HAS_VIDEO: u32 = 1;

// The refusals of the input, in their order, over the bytes read of a head and the number of bytes read of the body.
#[tactic(auto, unfolding(crate::specs::Steps::input_error))]
pub fn input_error(head: &[u8], got: usize) -> Result<(), ErrorCode>
    ensures { result ≡ outcome (input_error head.now got) }
{
    if head.len() < HEAD {
        return Err(ErrorCode::Truncated);
    }
    let length = wire::be24_at(head, 1);
    if 3 < head[0] {
        return Err(ErrorCode::UnknownFrameType);
    }
    if LONGEST < length {
        return Err(ErrorCode::OutputTooShort);
    }
    if length <= got {
        Ok(())
    } else {
        Err(ErrorCode::Truncated)
    }
}

// How many bytes to read behind a head: none behind one that is refused.
#[tactic(auto, unfolding(crate::specs::Steps::body_length, crate::specs::Steps::input_error))]
pub fn body_length(head: &[u8]) -> usize
    ensures length { result ≡ body_length head.now }
    ensures bound { result ≤ 32768 }
{
    match input_error(head, LONGEST) {
        Ok(()) => wire::be24_at(head, 1),
        Err(_) => 0,
    }
}

fn line_of(number: u64, head: &[u8], report: Report) -> SheetLine
    ensures { result ≡ line_of number head.now report }
{
    SheetLine {
        number,
        frame_type: u32::from(wire::byte_at(head, 0)),
        length: wire::be24_at(head, 1),
        header_error: report.header.error.into(),
        tracks: report.tracks,
        kind: u32::from(u8::from(report.kind)),
        hint: u32::from(report.hint.to_u8()),
    }
}

// The line of a frame, or its refusal: by the input, then by the whole pass.
// Kept (5): parameters as in layout_step.
#[tactic(auto, unfolding(crate::specs::Steps::frame_error, crate::specs::Steps::frame_output, crate::specs::Steps::input_error))]
fn frame_line(
    number: u64,
    head: &[u8],
    body: &[u8],
    output: &mut [u8],
) -> Result<SheetLine, ErrorCode>
    requires { 0 < length head.now }
    ensures line { result ≡ cond (is_ok (frame_error head.now body.now (length output.old)))
        (Ok (line_of number head.now (pass_of head.now body.now (length output.old))))
        (Err (frame_error head.now body.now (length output.old))) }
    ensures output { output.new ≡ frame_output head.now body.now output.old }
{
    input_error(head, body.len())?;
    let length = wire::be24_at(head, 1);
    let report = frame::frame_pass(
        u32::from(head[0]),
        &body[..length],
        CAPS_EX_MASK,
        ROUTE_HAS_VIDEO,
        output,
    );
    if !report.error.is_ok() {
        return Err(report.error);
    }
    Ok(line_of(number, head, report))
}

// A refusal's line, with the refusal as the error that is reported.
#[tactic(auto, unfolding(crate::specs::Lines::text_answer))]
fn refused_text(width: u32, number: u64, error: ErrorCode, text: &mut [u8]) -> Written
    ensures answer { result ≡ text_answer error (refusal_line width number (error_number error)) (length text.old) }
    ensures output { text.new ≡ text_output (refusal_line width number (error_number error)) text.old }
{
    let written = refusal_line(width, number, i32::from(error), text);
    if !written.error.is_ok() {
        return written;
    }
    Written { error, ..written }
}

// The text for one frame, after so many frames before it, with the first column so wide. What was read of the frame is its head and its body; an
// empty head is the clean end of the input.
// Kept (5): parameters as in layout_step.
#[tactic(auto, using(crate::proofs::StepLaws::no_frame), unfolding(crate::specs::Steps::frame_text, crate::specs::Lines::text_answer, crate::specs::Lines::text_output))]
pub fn frame_text(
    width: u32,
    before: u32,
    head: &[u8],
    body: &[u8],
    output: &mut [u8],
    text: &mut [u8],
) -> Written
    ensures answer { result ≡ text_answer (frame_error head.now body.now (length output.old))
        (frame_text width (before + 1) head.now body.now (length output.old)) (length text.old) }
    ensures text { text.new ≡ text_output (frame_text width (before + 1) head.now body.now (length output.old)) text.old }
    ensures output { output.new ≡ frame_output head.now body.now output.old }
{
    if head.is_empty() {
        return Written {
            error: ErrorCode::Ok,
            length: 0,
        };
    }
    let number = u64::from(before) + 1;
    match frame_line(number, head, body, output) {
        Ok(line) => sheet_line(width, line, text),
        Err(error) => refused_text(width, number, error, text),
    }
}
