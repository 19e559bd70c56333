// The lines of a sheet, written into a lent buffer. A line that does not fit is refused with -22, and the buffer keeps its bytes.
ghost use Rattle.std.specs.Prelude.{◌≡◌, ◌≤◌, length};
ghost use Rattle.std.specs.List.{flat_map};
ghost use Rattle.types.specs.declared.ErrorCode.TheVariants as error;
ghost use Rattle.frame_sheet.specs.Lines.{sheet_line, refusal_line, text_answer, text_output};
ghost use Rattle.frame_sheet.specs.Columns.{column_text, columns_line};

use crate::text::Column;
use types::ErrorCode;

// The numbers of a line.
#[derive(Clone, Copy, Debug, PartialEq, Eq)]
pub struct SheetLine {
    pub number: u64,
    pub frame_type: u32,
    pub length: usize,
    pub header_error: i32,
    pub tracks: usize,
    pub kind: u32,
    pub hint: u32,
}

// How many bytes were written; none after -22.
// Kept (1): of a refused frame both say something, its refusal and the length of its line.
#[derive(Clone, Copy)]
pub struct Written {
    pub error: ErrorCode,
    pub length: usize,
}

// How long the texts of some columns are.
#[tactic(auto, using(crate::proofs::LineLaws::lengths))]
fn texts_length(columns: &[Column]) -> usize
    requires { length columns.now ≤ 7 }
    ensures { result ≡ length (flat_map column_text columns.now) }
{
    columns.iter().map(|column| column.length()).sum()
}

// The line of some columns. Inlined, so that each line has its widths and signs as constants.
#[tactic(auto, using(crate::proofs::LineLaws::puts), unfolding(crate::specs::Lines::text_answer, crate::specs::Lines::text_output, crate::specs::Columns::columns_line))]
#[inline(always)]
fn put_line(columns: &[Column], out: &mut [u8]) -> Written
    requires { length columns.now ≤ 7 }
    ensures answer { result ≡ text_answer error.Ok (columns_line columns.now) (length out.old) }
    ensures output { out.new ≡ text_output (columns_line columns.now) out.old }
{
    let end = texts_length(columns);
    if out.len() <= end {
        return Written {
            error: ErrorCode::OutputTooShort,
            length: 0,
        };
    }
    out[..end].fill(b' ');
    let mut at = 0;
    for column in columns {
        let next = at + column.length();
        column.put(&mut out[at..next]);
        at = next;
    }
    out[end] = b'\n';
    Written {
        error: ErrorCode::Ok,
        length: end + 1,
    }
}

#[tactic(auto, using(crate::proofs::LineLaws::by_columns))]
pub fn sheet_line(width: u32, line: SheetLine, out: &mut [u8]) -> Written
    ensures answer { result ≡ text_answer error.Ok (sheet_line width line) (length out.old) }
    ensures output { out.new ≡ text_output (sheet_line width line) out.old }
{
    let columns = [
        Column::unsigned(width, line.number),
        Column::unsigned(3, u64::from(line.frame_type)),
        Column::unsigned(9, line.length as u64),
        Column::signed(4, line.header_error),
        Column::unsigned(6, line.tracks as u64),
        Column::unsigned(3, u64::from(line.kind)),
        Column::unsigned(3, u64::from(line.hint)),
    ];
    put_line(&columns, out)
}

// Kept (1): public and named in docs/DECISIONS.md; an ErrorCode in place of its number would ask more of a caller.
#[tactic(auto, using(crate::proofs::LineLaws::by_columns))]
pub fn refusal_line(width: u32, number: u64, refusal: i32, out: &mut [u8]) -> Written
    ensures answer { result ≡ text_answer error.Ok (refusal_line width number refusal) (length out.old) }
    ensures output { out.new ≡ text_output (refusal_line width number refusal) out.old }
{
    let columns = [Column::unsigned(width, number), Column::signed(4, refusal)];
    put_line(&columns, out)
}
