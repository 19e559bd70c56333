// Answers held against the stored ones that stand behind a row's payload. A line is printed for each number that differs, and for bytes that differ.
ghost use Rattle.std.specs.Prelude.{◌+◌, ◌≤◌, length};

use super::print::Hex;
use std::{fmt, io};

// Whose the answers are.
#[derive(Clone, Copy)]
pub enum Operation {
    FramePass,
    TrackRequest,
    FramePassInPlace,
    StoreFrame,
    WalkColumns,
    ColumnRequest,
}

impl fmt::Display for Operation {
    fn fmt<W: fmt::Write>(&self, f: &mut fmt::Formatter<W>) -> fmt::Result {
        f.write_str(match self {
            Operation::FramePass => "frame_pass",
            Operation::TrackRequest => "track_request",
            Operation::FramePassInPlace => "frame_pass_in_place",
            Operation::StoreFrame => "store_frame",
            Operation::WalkColumns => "walk_columns",
            Operation::ColumnRequest => "column_request",
        })
    }
}

impl Operation {
    // In the order of the last lines.
    pub(crate) const ALL: [Operation; 6] = [
        Operation::FramePass,
        Operation::TrackRequest,
        Operation::FramePassInPlace,
        Operation::StoreFrame,
        Operation::WalkColumns,
        Operation::ColumnRequest,
    ];

    // None if such a row has no stored answer.
    pub(crate) fn of(op: u8) -> Option<Operation> {
        match op {
            b'W' => Some(Operation::FramePass),
            b'Q' => Some(Operation::TrackRequest),
            b'Y' => Some(Operation::FramePassInPlace),
            b'J' => Some(Operation::StoreFrame),
            b'X' => Some(Operation::WalkColumns),
            b'Z' => Some(Operation::ColumnRequest),
            _ => None,
        }
    }

    fn bytes_name(self, i: usize) -> &'static str {
        match self {
            Operation::FramePass => "output",
            Operation::TrackRequest => "part",
            Operation::FramePassInPlace => "payload",
            Operation::StoreFrame => store_bytes(i),
            Operation::WalkColumns => "ids",
            Operation::ColumnRequest => "part",
        }
    }
}

// A number of an answer by its name.
#[derive(Clone, Copy)]
struct Field {
    operation: Operation,
    i: usize,
}

impl fmt::Display for Field {
    fn fmt<W: fmt::Write>(&self, f: &mut fmt::Formatter<W>) -> fmt::Result {
        match self.operation {
            Operation::FramePass => f.write_str(report_field(self.i)),
            Operation::TrackRequest => f.write_str(track_field(self.i)),
            Operation::FramePassInPlace => f.write_str(report_field(self.i)),
            Operation::StoreFrame => store_field(f, self.i),
            Operation::WalkColumns => columns_field(f, self.i),
            Operation::ColumnRequest => f.write_str(track_field(self.i)),
        }
    }
}

// The start stands behind the report.
fn report_field(i: usize) -> &'static str {
    match i {
        0 => "error",
        1 => "result_length",
        2 => "header.error",
        3 => "header.is_ex_header",
        4 => "header.packet_type",
        5 => "header.fourcc",
        6 => "header.header_size",
        7 => "header.frame_type",
        8 => "composition_time_ns, high half",
        9 => "composition_time_ns, low half",
        10 => "header.audio_codec",
        11 => "header.sample_rate",
        12 => "header.sample_size",
        13 => "header.channels",
        14 => "header.aac_packet_type",
        15 => "tracks",
        16 => "records",
        17 => "valid_records",
        18 => "kind",
        19 => "hint",
        _ => "start",
    }
}

fn track_field(i: usize) -> &'static str {
    match i {
        0 => "error",
        1 => "count",
        2 => "track_id",
        3 => "packet_type",
        4 => "fourcc",
        5 => "video_frame_type",
        6 => "start",
        7 => "length",
        _ => "verdict",
    }
}

// The parts of what a late viewer is sent stand behind the answer.
fn store_field<W: fmt::Write>(f: &mut fmt::Formatter<W>, i: usize) -> fmt::Result {
    if i == 0 {
        return f.write_str("error");
    }
    if i < 21 {
        let field = report_field(i - 1);
        return write!(f, "report {field}");
    }
    f.write_str(match i {
        21 => "lengths.video",
        22 => "lengths.audio",
        23 => "lengths.keyframe",
        24 => "late.count",
        25 => "late[0].kind",
        26 => "late[0].length",
        27 => "late[1].kind",
        28 => "late[1].length",
        29 => "late[2].kind",
        30 => "late[2].length",
        31 => "late[3].kind",
        32 => "late[3].length",
        33 => "late_part[0].length",
        34 => "late_part[1].length",
        35 => "late_part[2].length",
        _ => "late_part[3].length",
    })
}

// The entries of the other three columns stand behind the answer, eight places for each column.
fn columns_field<W: fmt::Write>(f: &mut fmt::Formatter<W>, i: usize) -> fmt::Result {
    if i == 0 {
        return f.write_str("error");
    }
    if i == 1 {
        return f.write_str("count");
    }
    let at = i - 2;
    let column = match at / 8 {
        0 => "fourcc",
        1 => "start",
        _ => "length",
    };
    write!(f, "{column} {}", at % 8)
}

fn store_bytes(i: usize) -> &'static str {
    match i {
        0 => "output",
        1 => "video",
        2 => "audio",
        _ => "keyframe",
    }
}

// A row whose answer is held against the stored one.
#[derive(Clone, Copy)]
pub(crate) struct Compared<R> {
    pub(crate) rt: R,
    pub(crate) row: u32,
    pub(crate) operation: Operation,
}

impl<R: Print + Copy> Compared<R> {
    // Whether an answer has the stored number in its place.
    pub(crate) fn number(self, i: usize, stored: impl Into<u64>, got: u64) -> io::Result<bool> {
        let stored: u64 = stored.into();
        if stored == got {
            return Ok(true);
        }
        let Compared { rt, row, operation } = self;
        let field = Field { operation, i };
        println!(rt; "row {row} {operation} {field} expected {stored} got {got}")?;
        Ok(false)
    }

    // Whether an answer has the stored numbers in their places, the first of which is `first`.
    pub(crate) fn numbers<T: Copy + Into<u64>>(
        self,
        first: usize,
        stored: &[T],
        got: &[u64],
    ) -> io::Result<bool>
        requires places { first ≤ 64 }
        requires stored { length got.now ≤ length stored.now }
    {
        let mut alike = true;
        for (i, n) in got.iter().enumerate() {
            alike &= self.number(first + i, stored[i], *n)?;
        }
        Ok(alike)
    }

    // Whether an answer has the stored bytes in their place.
    pub(crate) fn bytes(self, i: usize, stored: &[u8], got: &[u8]) -> io::Result<bool> {
        if stored == got {
            return Ok(true);
        }
        let Compared { rt, row, operation } = self;
        let what = operation.bytes_name(i);
        println!(rt;
            "row {row} {operation} {what} expected {} got {}",
            Hex(stored),
            Hex(got)
        )?;
        Ok(false)
    }
}
