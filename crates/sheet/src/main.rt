// The frame sheet: frames on standard input, each a type byte, a 24-bit length and the payload; a line for each on standard output. What is printed is
// proved in frame_sheet; here it is read and written, with three system calls a frame. A read or a write that fails ends the sheet, and is said on standard
// error.
#![tactic(auto)]

ghost use Rattle.std.specs.Prelude.{◌≡◌, true, ◌+◌, ◌≤◌, ◌<◌, length};
ghost use Rattle.frame_sheet.specs.Sheet.{sheet_layout};

use frame_sheet::sheet::{TEXT, sheet_step};
use frame_sheet::steps::{HEAD, LONGEST, body_length};
use std::io::{Read, Write};
use streams::{fill, has_arguments, print};

const INPUT: &[u8] = b"sheet: standard input";

const OUTPUT: &[u8] = b"sheet: standard output";

// One frame after `before` others: whether the sheet goes on, which it does not behind its last frame.
fn one_frame(
    rt: &impl Eprint,
    input: &mut impl Read,
    lines: &mut impl Write,
    before: u32,
    payload: &mut [u8],
    output: &mut [u8; LONGEST],
) -> bool
    requires { 32768 ≤ length payload.old }
    ensures { result ≡ true → before + 1 < sheet_layout.last }
{
    let mut head = [0u8; HEAD];
    let mut text = [0u8; TEXT];
    let front = fill(rt, input, INPUT, &mut head);
    if front.failed {
        return false;
    }
    let got = front.length;
    let length = body_length(&head[..got]);
    let rest = fill(rt, input, INPUT, &mut payload[..length]);
    if rest.failed {
        return false;
    }
    let filled = rest.length;
    let step = sheet_step(before, &head[..got], &payload[..filled], output, &mut text);
    let size = step.length;
    if !print(rt, lines, OUTPUT, &text[..size]) {
        return false;
    }
    step.goes_on
}

fn main(rt: HostRuntime) {
    if has_arguments(
        &rt,
        b"sheet: takes no argument; frames come on standard input, the sheet goes to standard output\nusage: sheet < FRAMES > SHEET\n",
    ) {
        return;
    }
    let mut payload = [0u8; 32768];
    let mut output = [0u8; LONGEST];
    let mut input = rt.stdin();
    let mut lines = rt.stdout();
    let mut before: u32 = 0;
    // Kept (3): a step says whether there is another.
    while one_frame(
        &rt,
        &mut input,
        &mut lines,
        before,
        &mut payload,
        &mut output,
    ) {
        before += 1;
    }
}
