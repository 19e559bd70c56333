// The sheet of an FLV file: the file on standard input, a line for each of its frames on standard output. What is printed is proved in tag_sheet; here it is
// read and written, with three system calls a frame. Tags that are no frames pass through the same room, piece by piece if they are longer. A read or a
// write that fails ends the sheet, and is said on standard error.
#![tactic(auto)]

ghost use Rattle.std.specs.Prelude.{◌≡◌, ◌≤◌, length};

use flv::places::{BACK_POINTER, HEAD, HEADER};
use frame_sheet::sheet::{Layout, SheetStep, TEXT};
use frame_sheet::steps::LONGEST;
use std::io::Read;
use streams::{fill, has_arguments, print, skip};
use tag_sheet::{
    TagStep, body_length, first_length, other_step, pointer_length, start_step, tag_step,
};

const INPUT: &[u8] = b"flv_sheet: standard input";

const OUTPUT: &[u8] = b"flv_sheet: standard output";

// The longest body that is kept, and its back-pointer.
const ROOM: usize = 32772;

// A read or a write failed.
fn stopped(before: u32) -> TagStep
    ensures { result.length ≡ 0 }
{
    TagStep {
        length: 0,
        frames: before,
        goes_on: false,
    }
}

// One tag after `before` frames. A body there is room for is read with the back-pointer behind it; a longer one is stepped over.
fn one_tag(
    rt: &impl Eprint,
    input: &mut impl Read,
    before: u32,
    room: &mut [u8; ROOM],
    output: &mut [u8; LONGEST],
    text: &mut [u8; TEXT],
) -> TagStep
    ensures { result.length ≤ length text.new }
{
    let mut head = [0u8; HEAD];
    let front = fill(rt, input, INPUT, &mut head);
    if front.failed {
        return stopped(before);
    }
    let head = &head[..front.length];
    let size = body_length(head);
    if LONGEST < size {
        let body = skip(rt, input, INPUT, size, room);
        if body.failed {
            return stopped(before);
        }
        let mut pointer = [0u8; BACK_POINTER];
        let rest = fill(rt, input, INPUT, &mut pointer);
        if rest.failed {
            return stopped(before);
        }
        let pointer = &pointer[..rest.length];
        return other_step(Layout::SHEET, before, head, body.length, pointer, text);
    }
    let wanted = size + pointer_length(head);
    let rest = fill(rt, input, INPUT, &mut room[..wanted]);
    if rest.failed {
        return stopped(before);
    }
    let (body, pointer) = room[..rest.length].split_at(size.min(rest.length));
    tag_step(Layout::SHEET, before, head, body, pointer, output, text)
}

// A read of the start failed.
fn not_begun() -> SheetStep
    ensures { result.length ≡ 0 }
{
    SheetStep {
        length: 0,
        goes_on: false,
    }
}

// The start of the file: the back-pointer behind the header is read only if the header is right.
fn first_step(rt: &impl Eprint, input: &mut impl Read, text: &mut [u8; TEXT]) -> SheetStep
    ensures { result.length ≤ length text.new }
{
    let mut header = [0u8; HEADER];
    let front = fill(rt, input, INPUT, &mut header);
    if front.failed {
        return not_begun();
    }
    let header = &header[..front.length];
    let mut pointer = [0u8; BACK_POINTER];
    let wanted = first_length(header);
    let rest = fill(rt, input, INPUT, &mut pointer[..wanted]);
    if rest.failed {
        return not_begun();
    }
    start_step(Layout::SHEET, header, &pointer[..rest.length], text)
}

fn main(rt: HostRuntime) {
    if has_arguments(
        &rt,
        b"flv_sheet: takes no argument; an FLV file comes on standard input, the sheet goes to standard output\nusage: flv_sheet < FILE > SHEET\n",
    ) {
        return;
    }
    let mut room = [0u8; ROOM];
    let mut output = [0u8; LONGEST];
    let mut text = [0u8; TEXT];
    let mut input = rt.stdin();
    let mut lines = rt.stdout();
    let first = first_step(&rt, &mut input, &mut text);
    let begun = first.length;
    if !print(&rt, &mut lines, OUTPUT, &text[..begun]) {
        return;
    }
    if !first.goes_on {
        return;
    }
    let mut before: u32 = 0;
    // No input has so many tags.
    for _ in 0..u64::MAX {
        let step = one_tag(&rt, &mut input, before, &mut room, &mut output, &mut text);
        let size = step.length;
        if !print(&rt, &mut lines, OUTPUT, &text[..size]) {
            return;
        }
        if !step.goes_on {
            return;
        }
        before = step.frames;
    }
}
