// One frame of the sheet's input through the library. The payload of a row is what stands in the input from the frame on.
use super::print::Hex;
use frame_sheet::steps::{body_length, frame_text};
use std::io;

const HEAD: usize = 4;

// As many bytes as are wanted, or all that there are; and those behind them.
pub(crate) fn taken(wanted: usize, bytes: &[u8]) -> (&[u8], &[u8]) {
    bytes.split_at(wanted.min(bytes.len()))
}

// The frame type of the row is the width of the first column, the number how many frames came before. The output is shown whole: what was written,
// and what was kept.
pub(crate) fn run(
    rt: &impl Print,
    width: u32,
    before: u32,
    input: &[u8],
    passed: &mut [u8],
    output: &mut [u8],
) -> io::Result<()> {
    let (head, rest) = taken(HEAD, input);
    let (body, _) = taken(body_length(head), rest);
    let written = frame_text(width, before, head, body, passed, output);
    let error = i32::from(written.error);
    println!(rt; "frame_text {error} {} {}", written.length, Hex(output))
}
