// Stored calls of a shared uplink, held against stored answers. README.md says what standard input holds and what is printed.
#![tactic(auto)]

ghost use Rattle.std.specs.Prelude.{◌≤◌};

use std::io;
use std::io::Read;
use streams::{fill, has_arguments};
use types::ErrorCode;
use uplink::{offer, tick};

// No more rows are read.
const MOST_ROWS: u32 = 1000000;

// The numbers of a row, before its columns.
const HEAD: usize = 33;

// No column of a row has more entries.
const MOST: usize = 66;

// As many bytes as there are places: whether there were enough.
// Kept (2): as in cases: both are programs, and the library below them has `fill`, which is all that they share.
fn read_bytes(rt: &impl Eprint, input: &mut impl Read, bytes: &mut [u8]) -> bool {
    let read = fill(rt, input, b"uplink_cases: standard input", bytes);
    read.length == bytes.len()
}

fn read_credits(rt: &impl Eprint, input: &mut impl Read, credits: &mut [i32]) -> bool {
    for credit in credits {
        let mut four = [0u8; 4];
        if !read_bytes(rt, input, &mut four) {
            return false;
        }
        *credit = i32::from_be_bytes(four);
    }
    true
}

// The credits and the marks of a row, of which there are so many.
#[derive(Clone, Copy)]
struct Columns {
    credits: [i32; MOST],
    waiting: [u8; MOST],
    entries: usize,
    marks: usize,
    ghost entries_fit: { entries ≤ 66 },
    ghost marks_fit: { marks ≤ 66 },
}

impl Columns {
    // One column behind the other. None if one is too long, or the input ends before.
    fn read(
        rt: &impl Eprint,
        input: &mut impl Read,
        entries: usize,
        marks: usize,
    ) -> Option<Columns> {
        if MOST < entries || MOST < marks {
            return None;
        }
        let mut credits = [0i32; MOST];
        let mut waiting = [0u8; MOST];
        if read_credits(rt, input, &mut credits[..entries])
            && read_bytes(rt, input, &mut waiting[..marks])
        {
            Some(Columns {
                credits,
                waiting,
                entries,
                marks,
            })
        } else {
            None
        }
    }

    fn credits(&self) -> &[i32] {
        &self.credits[..self.entries]
    }

    fn waiting(&self) -> &[u8] {
        &self.waiting[..self.marks]
    }
}

// A call, with the columns as they are lent, and as it must leave them.
#[derive(Clone, Copy)]
struct Row {
    head: [u8; HEAD],
    lent: Columns,
    then: Columns,
}

// A line for a row of which something differs, with the row's number, counted from 1.
fn same(rt: &impl Print, row: u32, what: &str, alike: bool) -> io::Result<bool> {
    if !alike {
        println!(rt; "row {row} {what}")?;
    }
    Ok(alike)
}

impl Row {
    // None if there is no row, or not all of one.
    fn read(rt: &impl Eprint, input: &mut impl Read) -> Option<Row> {
        let mut head = [0u8; HEAD];
        if !read_bytes(rt, input, &mut head) {
            return None;
        }
        let entries = usize::from(head[1]);
        let marks = usize::from(head[2]);
        let lent = Columns::read(rt, input, entries, marks)?;
        let then = Columns::read(rt, input, entries, marks)?;
        Some(Row { head, lent, then })
    }

    fn is_tick(&self) -> bool {
        self.head[0] == b't'
    }

    // Whether the answer is that of the head: an error without its sign, or a decision.
    fn has_answer(&self, answer: Result<u32, ErrorCode>) -> bool {
        let (error, decision) = match answer {
            Ok(decision) => (0, decision),
            Err(error) => (i32::from(error).unsigned_abs(), 0),
        };
        error == u32::from(self.head[3]) && decision == u32::from(self.head[4])
    }

    // The call is made on these columns: the decision's number, which is 0 of a tick.
    fn call(&self, credits: &mut [i32], waiting: &mut [u8]) -> Result<u32, ErrorCode> {
        let number = wire::be32_at(&self.head, 5) as u32;
        let viewers = wire::be64_at(&self.head, 9) as usize;
        if self.is_tick() {
            tick(viewers, number, credits)?;
            return Ok(0);
        }
        let viewer = wire::be64_at(&self.head, 17) as usize;
        let length = wire::be64_at(&self.head, 25) as usize;
        let decision = offer(viewers, viewer, number, length, credits, waiting)?;
        Ok(u32::from(decision))
    }

    // Whether the call gives and leaves what is stored. A tick leaves no marks.
    fn run(&self, rt: &impl Print, row: u32) -> io::Result<bool> {
        let mut credits = self.lent.credits;
        let mut waiting = self.lent.waiting;
        let credits = &mut credits[..self.lent.entries];
        let waiting = &mut waiting[..self.lent.marks];
        let answer = self.call(credits, waiting);
        let answer = same(rt, row, "answer", self.has_answer(answer))?;
        let credits = same(rt, row, "credits", &*credits == self.then.credits())?;
        let waiting = same(
            rt,
            row,
            "waiting",
            self.is_tick() || &*waiting == self.then.waiting(),
        )?;
        Ok(answer && credits && waiting)
    }
}

// How many rows were compared, and how many of them differ.
// Kept (2): as in cases, likewise.
#[derive(Clone, Copy, Default)]
struct Count {
    rows: u32,
    differ: u32,
}

impl Count {
    fn add(&mut self, alike: bool) {
        self.rows = self.rows.saturating_add(1);
        self.differ = self.differ.saturating_add(u32::from(!alike));
    }

    fn show(self, rt: &impl Print, what: &str) -> io::Result<()> {
        println!(rt; "{what} {} rows, {} differ", self.rows, self.differ)
    }
}

fn main(rt: HostRuntime) -> io::Result<()> {
    if has_arguments(
        &rt,
        b"uplink_cases: takes no argument; the stored cases come on standard input\nusage: uplink_cases < crates/uplink_cases/stdin\n",
    ) {
        return Ok(());
    }
    let mut input = rt.stdin();
    let mut ticks = Count::default();
    let mut offers = Count::default();
    for number in 1..=MOST_ROWS {
        let Some(row) = Row::read(&rt, &mut input) else {
            break;
        };
        let alike = row.run(&rt, number)?;
        if row.is_tick() {
            ticks.add(alike);
        } else {
            offers.add(alike);
        }
    }
    ticks.show(&rt, "uplink_tick")?;
    offers.show(&rt, "uplink_offer")
}
