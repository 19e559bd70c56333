// Stored cases that are run. README.md says what standard input holds and what is printed. The starred cases of docs/REQUIREMENTS.md are a theorem, in
// the crate `starred`.
#![tactic(auto)]

mod columns;
mod compared;
mod flv_files;
mod input;
mod passes;
mod print;
mod printed;
mod requests;
mod sheet_frames;
mod stores;
mod tally;
mod times;

ghost use Rattle.std.specs.Prelude.{◌≤◌, length};

use compared::{Compared, Operation};
use input::Input;
use std::io;
use std::io::Read;
use streams::has_arguments;
use tally::{MOST_ROWS, Outcome, Tally};
use types::FrameType;

const HEAD: usize = 12;

// No payload and no output of a row is longer.
const LONGEST: usize = 131072;

// What an output holds before it is lent.
const FILLING: u8 = 0xA5;

// Whether the row has an answer that is printed: it needs a frame type, except for a frame of the sheet's input and for FLV files.
// Kept (1, 5): as compare.
fn print_answer(
    rt: &impl Print,
    op: u8,
    frame_type: u32,
    n: u32,
    payload: &[u8],
    output: &mut [u8],
    passed: &mut [u8],
) -> io::Result<bool> {
    if op == b'L' {
        sheet_frames::run(rt, frame_type, n, payload, passed, output)?;
        return Ok(true);
    }
    if flv_files::run(rt, op, frame_type, n, payload, output)? {
        return Ok(true);
    }
    let Ok(media) = FrameType::from_number(frame_type) else {
        return Ok(false);
    };
    printed::run(rt, op, media, n, payload, output)?;
    println!(rt)?;
    Ok(true)
}

// Whether the row has the stored answer. Of the third buffer a stored output takes as much as the output has, and a stored payload as much as the payload.
// Kept (1, 5): here and in the modules, a row's frame type is any number, since rows of refusals have one above 3; each operation takes other parts of the row.
fn compare(
    compared: Compared<impl Print + Copy>,
    input: &mut Input<impl Eprint + Drop, impl Read>,
    frame_type: u32,
    n: u32,
    payload: &mut [u8],
    output: &mut [u8],
    stored: &mut [u8],
) -> io::Result<Option<bool>>
    requires output_in_bounds { length output.old ≤ length stored.old }
    requires payload_in_bounds { length payload.old ≤ length stored.old }
{
    let room = output.len();
    let size = payload.len();
    match compared.operation {
        Operation::FramePass => {
            let stored = &mut stored[..room];
            passes::run(compared, input, frame_type, n, payload, output, stored)
        }
        Operation::TrackRequest => requests::run(compared, input, frame_type, n, payload),
        Operation::FramePassInPlace => {
            let stored = &mut stored[..size];
            passes::run_in_place(compared, input, frame_type, n, payload, stored)
        }
        Operation::StoreFrame => {
            let stored = &mut stored[..room];
            stores::run(compared, input, frame_type, n, payload, output, stored)
        }
        Operation::WalkColumns => columns::run_walk(compared, input, frame_type, payload),
        Operation::ColumnRequest => columns::run_request(compared, input, frame_type, payload),
    }
}

// None if there is no row, or not all of one.
fn one_row(
    rt: &impl Print,
    input: &mut Input<impl Eprint + Drop, impl Read>,
    row: u32,
    payload: &mut [u8; LONGEST],
    output: &mut [u8; LONGEST],
    stored: &mut [u8; LONGEST],
) -> io::Result<Option<Outcome>> {
    let mut head = [0u8; HEAD];
    if !input.bytes(&mut head) {
        return Ok(None);
    }
    let op = head[0];
    let frame_type = u32::from(head[1]);
    let n = wire::be32_at(&head, 2) as u32;
    let room = wire::be24_at(&head, 6);
    let length = wire::be24_at(&head, 9);
    if LONGEST < room || LONGEST < length || !input.bytes(&mut payload[..length]) {
        return Ok(None);
    }
    let payload = &mut payload[..length];
    let output = &mut output[..room];
    output.fill(FILLING);
    let Some(operation) = Operation::of(op) else {
        let printed = print_answer(rt, op, frame_type, n, payload, output, stored)?;
        return Ok(printed.then_some(Outcome::Printed));
    };
    let compared = Compared { rt, row, operation };
    let alike = compare(compared, input, frame_type, n, payload, output, stored)?;
    Ok(alike.map(|alike| Outcome::Compared(operation, alike)))
}

fn main(rt: HostRuntime) -> io::Result<()> {
    if has_arguments(
        &rt,
        b"cases: takes no argument; the stored cases come on standard input\nusage: cases < crates/cases/stdin\n",
    ) {
        return Ok(());
    }
    let mut input = Input {
        rt: &rt,
        from: rt.stdin(),
    };
    let mut payload = [0u8; LONGEST];
    let mut output = [0u8; LONGEST];
    let mut stored = [0u8; LONGEST];
    let mut tally = Tally::default();
    for row in 1..=MOST_ROWS {
        match one_row(&rt, &mut input, row, &mut payload, &mut output, &mut stored)? {
            Some(Outcome::Printed) => {}
            Some(Outcome::Compared(operation, alike)) => tally.add(operation, alike),
            None => break,
        }
    }
    tally.show(&rt)
}
