// A number as text, in its column of a line.
ghost use Rattle.std.specs.Prelude.{◌≡◌, ◌++◌, ◌+◌, ◌≤◌, false, pos, nat_abs, length};
ghost use Rattle.std.specs.Int.Signed.{lt_z};
ghost use Rattle.frame_sheet.specs.Text.{decimal, spaces};
ghost use Rattle.frame_sheet.specs.Columns.{column_text};

// A number of a line: the least width, the sign and the absolute value.
// Kept (1): sign and absolute value both always say something, so an Option is no plainer.
#[derive(Clone, Copy, Debug, PartialEq, Eq)]
pub(crate) struct Column {
    width: u32,
    negative: bool,
    n: u64,
}

// How many digits a number has.
#[tactic(auto, using(crate::proofs::Numerals::digits_exactly))]
fn decimal_length(n: u64) -> usize
    ensures { (result ≡ length (decimal n)) × (result ≤ 20) }
{
    n.max(1).ilog10() as usize + 1
}

// Writes the digits of a number at the end of a blank cell, and answers where they begin.
#[tactic(auto, using(crate::proofs::Numerals::last_digits))]
fn put_digits(cell: &mut [u8], n: u64) -> usize
    requires blank { cell.old ≡ spaces (length cell.old) }
    requires room { length (decimal n) ≤ length cell.old }
    ensures start { result + length (decimal n) ≡ length cell.old }
    ensures output { cell.new ≡ spaces result ++ decimal n }
{
    let mut at = cell.len();
    let mut rest = n;
    loop {
        at -= 1;
        cell[at] = b'0' + (rest % 10) as u8;
        rest /= 10;
        if rest == 0 {
            return at;
        }
    }
}

impl Column {
    pub(crate) fn unsigned(width: u32, n: u64) -> Column
        ensures { result ≡ record { width = width; negative = false; n = n } }
    {
        Column {
            width,
            negative: false,
            n,
        }
    }

    pub(crate) fn signed(width: u32, z: i32) -> Column
        ensures { result ≡ record { width = width; negative = lt_z z (pos 0); n = nat_abs z } }
    {
        Column {
            width,
            negative: z < 0,
            n: u64::from(z.unsigned_abs()),
        }
    }

    // The column's width, or more if the text is wider.
    #[tactic(auto, using(crate::proofs::Numerals::cells), unfolding(crate::specs::Columns::column_text))]
    pub(crate) fn length(&self) -> usize
        ensures { (result ≡ length (column_text self.now)) × (result ≤ 4294967316) }
    {
        let text = decimal_length(self.n) + usize::from(self.negative);
        text.max(self.width as usize)
    }

    // Writes the text into a blank cell of its length.
    #[tactic(auto, using(crate::proofs::Numerals::cells), unfolding(crate::specs::Columns::column_text, crate::specs::Text::column, crate::specs::Text::signed))]
    pub(crate) fn put(&self, cell: &mut [u8])
        requires { cell.old ≡ spaces (length (column_text self.now)) }
        ensures { cell.new ≡ column_text self.now }
    {
        let at = put_digits(cell, self.n);
        if self.negative {
            cell[at - 1] = b'-';
        }
    }
}
