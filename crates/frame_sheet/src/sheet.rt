// A sheet frame by frame: a program reads a head and the body that `body_length` asks for, lends both here, writes the text, and goes on if the answer says so.
ghost use Rattle.std.specs.Prelude.{◌≡◌};
ghost use Rattle.outputs.specs.Outputs.{in_front};
ghost use Rattle.frame_sheet.specs.Sheet.{sheet_layout, step_text, step_answer, step_output};

use crate::steps::{LONGEST, frame_text};

// The longest text: a first column of 255 bytes, and 29 bytes for the others and the line's end.
pub const TEXT: usize = 284;

// How wide the first column is, and the number of the last frame.
#[derive(Clone, Copy, Debug, PartialEq, Eq)]
pub struct Layout {
    pub width: u8,
    pub last: u32,
}

impl Layout {
    // The sheet of docs/REQUIREMENTS.md.
    pub const SHEET: Layout = Layout {
        width: 6,
        last: 999999,
    };
}

// How many bytes of the text to print, and whether the sheet goes on behind them.
// Kept (1): both always say something, so an Option is no plainer.
#[derive(Clone, Copy, Debug, PartialEq, Eq)]
pub struct SheetStep {
    pub length: usize,
    pub goes_on: bool,
}

// One frame of a sheet in a layout, after so many frames. Behind the last frame there is nothing to print.
// Kept (5): parameters of public functions, two of them lent `&mut`, which no struct can hold for its clauses.
#[tactic(auto, using(crate::proofs::Sheets::whole_texts), unfolding(crate::specs::Sheet::step_text, crate::specs::Sheet::step_goes_on, crate::specs::Sheet::step_output, crate::specs::Sheet::frame_goes_on))]
pub fn layout_step(
    layout: Layout,
    before: u32,
    head: &[u8],
    body: &[u8],
    output: &mut [u8; LONGEST],
    text: &mut [u8; TEXT],
) -> SheetStep
    ensures answer { result ≡ step_answer layout before head.now body.now }
    ensures text { text.new ≡ in_front (step_text layout before head.now body.now) text.old }
    ensures output { output.new ≡ step_output layout before head.now body.now output.old }
{
    if layout.last <= before {
        return SheetStep {
            length: 0,
            goes_on: false,
        };
    }
    let written = frame_text(u32::from(layout.width), before, head, body, output, text);
    SheetStep {
        length: written.length,
        goes_on: !head.is_empty() && written.error.is_ok() && before + 1 < layout.last,
    }
}

// One frame of the sheet of docs/REQUIREMENTS.md.
// Kept (5): parameters as in layout_step.
pub fn sheet_step(
    before: u32,
    head: &[u8],
    body: &[u8],
    output: &mut [u8; LONGEST],
    text: &mut [u8; TEXT],
) -> SheetStep
    ensures answer { result ≡ step_answer sheet_layout before head.now body.now }
    ensures text { text.new ≡ in_front (step_text sheet_layout before head.now body.now) text.old }
    ensures output { output.new ≡ step_output sheet_layout before head.now body.now output.old }
{
    layout_step(Layout::SHEET, before, head, body, output, text)
}
