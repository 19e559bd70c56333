// The sheet of an FLV file as a library: what is printed for its start and for each tag, over what was read of them. The program `flv_sheet` reads and
// writes around it. A frame is passed only after its back-pointer matched; tags that are no frames have no line.
#![tactic(auto)]

ghost use Rattle.std.specs.Prelude.{◌≡◌, cond, ◌+◌, ◌≤◌, ◌<◌, ltb, length};
ghost use Rattle.types.specs.Types.{error_number, outcome};
ghost use Rattle.outputs.specs.Outputs.{in_front};
ghost use Rattle.frame_sheet.specs.Lines.{refusal_line};
ghost use Rattle.flv.specs.Files.{body_size};
ghost use Rattle.tag_sheet.specs.Sheet.{is_long_frame, sheet_refusal, sheet_head};
ghost use Rattle.tag_sheet.specs.Steps.{
  first_length,
  start_text,
  start_step,
  is_head_refused,
  body_length,
  pointer_length,
  is_passed,
  other_text,
  other_step,
  tag_text,
  tag_step,
  tag_output,
};

use flv::places::{
    BACK_POINTER, HEAD, HEADER, frame_type, is_frame, is_header, start_refusal, tag_refusal,
};
use frame_sheet::lines::refusal_line;
use frame_sheet::sheet::{Layout, SheetStep, TEXT, layout_step};
use frame_sheet::steps::LONGEST;
use types::ErrorCode;

// How many bytes of the text to print, how many frames there are so far, and whether the sheet goes on.
// Kept (1): all three always say something, so an Option is no plainer.
#[derive(Clone, Copy, Debug, PartialEq, Eq)]
pub struct TagStep {
    pub length: usize,
    pub frames: u32,
    pub goes_on: bool,
}

// A refusal's line, in a text that has room for it: how long it is.
#[tactic(auto, using(crate::proofs::Exits::refusal_put))]
fn put_refusal(width: u8, number: u64, error: ErrorCode, text: &mut [u8; TEXT]) -> usize
    requires { number ≤ 4294967295 }
    ensures length { result ≡ length (refusal_line width number (error_number error)) }
    ensures text { text.new ≡ in_front (refusal_line width number (error_number error)) text.old }
{
    refusal_line(u32::from(width), number, error.into(), text).length
}

// How many bytes of the first back-pointer to read behind a header: none behind one that is refused.
#[tactic(auto, unfolding(crate::specs::Steps::first_length, crate::specs::Steps::is_header_refused))]
pub fn first_length(header: &[u8]) -> usize
    ensures length { result ≡ first_length header.now }
    ensures bound { result ≤ 4 }
{
    if HEADER <= header.len() && is_header(header) {
        BACK_POINTER
    } else {
        0
    }
}

// The start of a file, over what was read of its header and of its first back-pointer.
#[tactic(auto, unfolding(crate::specs::Steps::start_text))]
pub fn start_step(layout: Layout, header: &[u8], pointer: &[u8], text: &mut [u8; TEXT]) -> SheetStep
    ensures answer { result ≡ start_step layout header.now pointer.now }
    ensures text { text.new ≡ in_front (start_text layout header.now pointer.now) text.old }
{
    match start_refusal(header, pointer) {
        Ok(()) => SheetStep {
            length: 0,
            goes_on: true,
        },
        Err(error) => SheetStep {
            length: put_refusal(layout.width, 1, error, text),
            goes_on: false,
        },
    }
}

fn is_long_frame(head: &[u8]) -> bool
    ensures { result ≡ is_long_frame head.now }
{
    is_frame(wire::byte_at(head, 0)) && LONGEST < wire::be24_at(head, 1)
}

#[tactic(auto, unfolding(crate::specs::Steps::is_head_refused))]
fn is_head_refused(head: &[u8]) -> bool
    ensures { result ≡ is_head_refused head.now }
{
    head.len() < HEAD || is_long_frame(head)
}

// How many bytes of body to read behind a head: none behind one that is refused.
#[tactic(auto, unfolding(crate::specs::Steps::body_length))]
pub fn body_length(head: &[u8]) -> usize
    ensures length { result ≡ body_length head.now }
    ensures bound { result < 16777216 }
{
    if is_head_refused(head) {
        0
    } else {
        wire::be24_at(head, 1)
    }
}

// How many bytes of back-pointer to read behind the body.
#[tactic(auto, unfolding(crate::specs::Steps::pointer_length))]
pub fn pointer_length(head: &[u8]) -> usize
    ensures length { result ≡ pointer_length head.now }
    ensures bound { result ≤ 4 }
{
    if is_head_refused(head) {
        0
    } else {
        BACK_POINTER
    }
}

// The refusals of a tag, over the bytes read of its head, the number of bytes read of its body, and the bytes read of its back-pointer.
// Kept (5): head, body and back-pointer as they were read, here and below, are the parameters of the public `other_step` and `tag_step`.
#[tactic(auto, unfolding(crate::specs::Sheet::sheet_refusal))]
fn sheet_refusal(head: &[u8], got: usize, pointer: &[u8]) -> Result<(), ErrorCode>
    ensures { result ≡ outcome (sheet_refusal head.now got pointer.now) }
{
    if head.len() < HEAD {
        return Err(ErrorCode::Truncated);
    }
    if is_long_frame(head) {
        return Err(ErrorCode::OutputTooShort);
    }
    tag_refusal(head, got, pointer)
}

// Whether there is a frame that is not refused.
fn is_passed(head: &[u8], got: usize, pointer: &[u8]) -> bool
    ensures { result ≡ is_passed head.now got pointer.now }
{
    is_frame(wire::byte_at(head, 0)) && sheet_refusal(head, got, pointer).is_ok()
}

// A tag whose body was not kept, after so many frames: what counts of the body is how many bytes were read. An empty head is the clean end.
#[tactic(auto, unfolding(crate::specs::Steps::other_text, crate::specs::Steps::other_goes_on))]
pub fn other_step(
    layout: Layout,
    before: u32,
    head: &[u8],
    got: usize,
    pointer: &[u8],
    text: &mut [u8; TEXT],
) -> TagStep
    ensures answer { result ≡ other_step layout before head.now got pointer.now }
    ensures text { text.new ≡ in_front (other_text layout before head.now got pointer.now) text.old }
{
    if layout.last <= before || head.is_empty() {
        return TagStep {
            length: 0,
            frames: before,
            goes_on: false,
        };
    }
    match sheet_refusal(head, got, pointer) {
        Ok(()) => TagStep {
            length: 0,
            frames: before,
            goes_on: true,
        },
        Err(error) => TagStep {
            length: put_refusal(layout.width, u64::from(before) + 1, error, text),
            frames: before,
            goes_on: false,
        },
    }
}

fn next_frame(last: u32, before: u32) -> u32
    ensures { result ≡ cond (ltb before last) (before + 1) before }
{
    if before < last { before + 1 } else { before }
}

fn sheet_head(head: &[u8]) -> [u8; 4]
    requires { 4 ≤ length head.now }
    ensures { result ≡ sheet_head head.now }
{
    [frame_type(head[0]), head[1], head[2], head[3]]
}

// A tag with its body, after so many frames. A frame whose tag is not refused is passed, and counts, also where the pass refuses it.
#[tactic(auto, using(crate::proofs::Exits::passed_whole), unfolding(crate::specs::Steps::tag_text, crate::specs::Steps::tag_goes_on, crate::specs::Steps::frames_after, crate::specs::Steps::tag_output))]
pub fn tag_step(
    layout: Layout,
    before: u32,
    head: &[u8],
    body: &[u8],
    pointer: &[u8],
    output: &mut [u8; LONGEST],
    text: &mut [u8; TEXT],
) -> TagStep
    ensures answer { result ≡ tag_step layout before head.now body.now pointer.now }
    ensures text { text.new ≡ in_front (tag_text layout before head.now body.now pointer.now) text.old }
    ensures output { output.new ≡ tag_output layout before head.now body.now pointer.now output.old }
{
    if is_passed(head, body.len(), pointer) {
        let front = sheet_head(head);
        let step = layout_step(layout, before, &front, body, output, text);
        return TagStep {
            length: step.length,
            frames: next_frame(layout.last, before),
            goes_on: step.goes_on,
        };
    }
    other_step(layout, before, head, body.len(), pointer, text)
}
