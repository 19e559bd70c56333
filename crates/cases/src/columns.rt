// Tracks in columns, held against stored answers: a container walked into columns, and a track read from columns.
ghost use Rattle.std.specs.Prelude.{◌≤◌};

use super::FILLING;
use super::compared::Compared;
use super::input::Input;
use super::print::magnitude;
use super::requests::same_track;
use std::io;
use std::io::Read;
use track_columns::{column_payload, column_request, walk_columns};
use writers::columns::TrackColumns;

// No column of a row has more entries.
const MOST: usize = 8;

// Where the entries of FourCCs, starts and lengths start in the answer of a walk, behind error and count.
const FOURCCS: usize = 2;

const STARTS: usize = FOURCCS + MOST;

const LENGTHS: usize = STARTS + MOST;

// How many entries each column has.
#[derive(Clone, Copy)]
struct Sizes {
    ids: usize,
    fourccs: usize,
    starts: usize,
    lengths: usize,
    ghost ids_fit: { ids ≤ 8 },
    ghost fourccs_fit: { fourccs ≤ 8 },
    ghost starts_fit: { starts ≤ 8 },
    ghost lengths_fit: { lengths ≤ 8 },
}

impl Sizes {
    // None if a column is too long.
    fn new([ids, fourccs, starts, lengths]: [usize; 4]) -> Option<Sizes> {
        if MOST < ids || MOST < fourccs || MOST < starts || MOST < lengths {
            return None;
        }
        Some(Sizes {
            ids,
            fourccs,
            starts,
            lengths,
        })
    }
}

// The columns of a row, at the front of what there is room for. Behind them, and before anything is stored, are the bytes that an output holds.
#[derive(Clone, Copy)]
struct Columns {
    ids: [u8; MOST],
    fourccs: [u32; MOST],
    starts: [usize; MOST],
    lengths: [usize; MOST],
    sizes: Sizes,
}

impl Columns {
    fn new(sizes: Sizes) -> Columns {
        Columns {
            ids: [FILLING; MOST],
            fourccs: [u32::from_be_bytes([FILLING; 4]); MOST],
            starts: [usize::from_be_bytes([FILLING; 8]); MOST],
            lengths: [usize::from_be_bytes([FILLING; 8]); MOST],
            sizes,
        }
    }

    // Column by column: whether there were enough entries.
    fn read(&mut self, input: &mut Input<impl Eprint + Drop, impl Read>) -> bool {
        let sizes = self.sizes;
        input.bytes(&mut self.ids[..sizes.ids])
            && input.numbers(&mut self.fourccs[..sizes.fourccs])
            && input.numbers(&mut self.starts[..sizes.starts])
            && input.numbers(&mut self.lengths[..sizes.lengths])
    }

    fn lent(&self) -> TrackColumns<'_> {
        let sizes = self.sizes;
        TrackColumns {
            ids: &self.ids[..sizes.ids],
            fourccs: &self.fourccs[..sizes.fourccs],
            starts: &self.starts[..sizes.starts],
            lengths: &self.lengths[..sizes.lengths],
        }
    }
}

// Whether a walk has left the stored columns.
fn same_columns(
    compared: Compared<impl Print + Copy>,
    stored: Columns,
    got: Columns,
) -> io::Result<bool> {
    let same_ids = compared.bytes(0, stored.lent().ids, got.lent().ids)?;
    let same_fourccs = compared.numbers(
        FOURCCS,
        &stored.fourccs,
        &got.fourccs.map(|n| u64::from(n)),
    )?;
    let same_starts = compared.numbers(
        STARTS,
        &stored.starts.map(|n| n as u64),
        &got.starts.map(|n| n as u64),
    )?;
    let same_lengths = compared.numbers(
        LENGTHS,
        &stored.lengths.map(|n| n as u64),
        &got.lengths.map(|n| n as u64),
    )?;
    Ok(same_ids && same_fourccs && same_starts && same_lengths)
}

// The lengths of the columns stand behind the payload; behind them error, count and the columns afterwards.
pub(crate) fn run_walk(
    compared: Compared<impl Print + Copy>,
    input: &mut Input<impl Eprint + Drop, impl Read>,
    frame_type: u32,
    payload: &[u8],
) -> io::Result<Option<bool>> {
    let mut sizes = [0usize; 4];
    if !input.numbers(&mut sizes) {
        return Ok(None);
    }
    let Some(sizes) = Sizes::new(sizes) else {
        return Ok(None);
    };
    let mut columns = Columns::new(sizes);
    let mut stored = columns;
    let mut numbers = [0u64; FOURCCS];
    if !(input.numbers(&mut numbers) && stored.read(input)) {
        return Ok(None);
    }
    let walked = walk_columns(
        frame_type,
        payload,
        &mut columns.ids[..sizes.ids],
        &mut columns.fourccs[..sizes.fourccs],
        &mut columns.starts[..sizes.starts],
        &mut columns.lengths[..sizes.lengths],
    );
    let got = match walked {
        Ok(count) => [0, count as u64],
        Err(error) => [magnitude(error), 0],
    };
    let same_answer = compared.numbers(0, &numbers, &got)?;
    let columns_alike = same_columns(compared, stored, columns)?;
    Ok(Some(same_answer && columns_alike))
}

// The count, the track's number and the lengths of the columns stand behind the payload; behind them the columns, and then the answer.
pub(crate) fn run_request(
    compared: Compared<impl Print + Copy>,
    input: &mut Input<impl Eprint + Drop, impl Read>,
    frame_type: u32,
    payload: &[u8],
) -> io::Result<Option<bool>> {
    let mut asked = [0usize; 6];
    if !input.numbers(&mut asked) {
        return Ok(None);
    }
    let [count, number, ids, fourccs, starts, lengths] = asked;
    let Some(sizes) = Sizes::new([ids, fourccs, starts, lengths]) else {
        return Ok(None);
    };
    let mut columns = Columns::new(sizes);
    let mut numbers = [0u64; 9];
    if !(columns.read(input) && input.numbers(&mut numbers)) {
        return Ok(None);
    }
    let columns = columns.lent();
    let answer = column_request(frame_type, count, &columns, payload, number);
    let body = column_payload(frame_type, count, &columns, payload, number);
    let alike = same_track(compared, &numbers, answer, payload, body)?;
    Ok(Some(alike))
}
