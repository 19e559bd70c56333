// FLV files through the library, and the steps of their sheet. A row's payload is a file, a frame's body, or what stands in a file from a tag on.
use super::print::{Hex, parts};
use super::sheet_frames::taken;
use flv::places::{HEAD, HEADER};
use flv::reading::{flv_next, flv_start};
use flv::writing::{flv_write_frame, flv_write_start};
use frame_sheet::sheet::{Layout, TEXT};
use frame_sheet::steps::LONGEST;
use std::io;
use tag_sheet::{body_length, first_length, pointer_length, start_step, tag_step};
use types::ErrorCode;

fn run_start(rt: &impl Print, file: &[u8]) -> io::Result<()> {
    let (error, next) = parts(flv_start(file));
    println!(rt; "flv_start {error} {next}")
}

// No frame: a refusal, or the clean end. A line of `flv_next` is written in three pieces, here and below.
fn show_no_frame(rt: &impl Print, error: i32, next: usize) -> io::Result<()> {
    print!(rt; "flv_next {error} 0")?;
    print!(rt; " 0 0 0")?;
    println!(rt; " 0 {next}")
}

// The number is the place.
fn run_next(rt: &impl Print, file: &[u8], at: u32) -> io::Result<()> {
    match flv_next(file, at as usize) {
        Ok(Some(frame)) => {
            print!(rt; "flv_next 0 1")?;
            print!(rt; " {} {} {}", frame.frame_type, frame.timestamp, frame.start)?;
            println!(rt; " {} {}", frame.length, frame.next)
        }
        Ok(None) => show_no_frame(rt, 0, file.len()),
        Err(error) => show_no_frame(rt, error.into(), 0),
    }
}

// The output is shown whole: what was written, and what was kept.
fn show_written(
    rt: &impl Print,
    written: Result<usize, ErrorCode>,
    output: &[u8],
) -> io::Result<()> {
    let (error, length) = parts(written);
    println!(rt; " {error} {length} {}", Hex(output))
}

fn run_write_start(rt: &impl Print, output: &mut [u8]) -> io::Result<()> {
    let written = flv_write_start(output);
    print!(rt; "flv_write_start")?;
    show_written(rt, written, output)
}

// The number is the time.
fn run_write_frame(
    rt: &impl Print,
    frame_type: u32,
    timestamp: u32,
    body: &[u8],
    output: &mut [u8],
) -> io::Result<()> {
    let written = flv_write_frame(frame_type, timestamp, body, output);
    print!(rt; "flv_write_frame")?;
    show_written(rt, written, output)
}

fn run_start_step(rt: &impl Print, file: &[u8]) -> io::Result<()> {
    let mut line = [0u8; TEXT];
    let (header, rest) = taken(HEADER, file);
    let (pointer, _) = taken(first_length(header), rest);
    let step = start_step(Layout::SHEET, header, pointer, &mut line);
    let size = step.length;
    println!(rt;
        "start_step {} {}",
        u8::from(step.goes_on),
        Hex(&line[..size])
    )
}

// The number is how many frames came before.
fn run_tag_step(rt: &impl Print, before: u32, input: &[u8]) -> io::Result<()> {
    let mut passed = [0u8; LONGEST];
    let mut line = [0u8; TEXT];
    let (head, rest) = taken(HEAD, input);
    let (body, rest) = taken(body_length(head), rest);
    let (pointer, _) = taken(pointer_length(head), rest);
    let step = tag_step(
        Layout::SHEET,
        before,
        head,
        body,
        pointer,
        &mut passed,
        &mut line,
    );
    let length = step.length;
    let goes_on = u8::from(step.goes_on);
    println!(rt;
        "tag_step {} {goes_on} {}",
        step.frames,
        Hex(&line[..length])
    )
}

// Whether the operation is one of these.
pub(crate) fn run(
    rt: &impl Print,
    op: u8,
    frame_type: u32,
    n: u32,
    payload: &[u8],
    output: &mut [u8],
) -> io::Result<bool> {
    match op {
        b'O' => run_write_start(rt, output)?,
        b'U' => run_write_frame(rt, frame_type, n, payload, output)?,
        b'B' => run_start(rt, payload)?,
        b'N' => run_next(rt, payload, n)?,
        b'H' => run_start_step(rt, payload)?,
        b'G' => run_tag_step(rt, n, payload)?,
        _ => return Ok(false),
    }
    Ok(true)
}
