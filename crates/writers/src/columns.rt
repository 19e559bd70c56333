// Lent columns, questions about their entries, and how much of an output these leave.
ghost use Rattle.std.specs.Prelude.{◌≡◌, not, cond, ◌||◌, ◌+◌, ◌<◌, eqb, ltb, length, slice_index, zip, sum_by};
ghost use Rattle.std.specs.List.{list_any};
ghost use Rattle.writers.specs.Lengths.{with_head, left_after};

// The columns of tracks: ids, FourCCs as big-endian numbers, and where each body starts and how long it is.
#[derive(Clone, Copy)]
pub struct TrackColumns<'a> {
    pub ids: &'a [u8],
    pub fourccs: &'a [u32],
    pub starts: &'a [usize],
    pub lengths: &'a [usize],
}

// Whether a part leaves a string of so many bytes. No sum is made, which could wrap.
pub fn part_leaves(lent: usize, start: usize, length: usize) -> bool
    ensures { result ≡ ltb lent (start + length) }
{
    lent < start || lent - start < length
}

// Whether one of these parts leaves what was lent.
// Kept (6): starts and lengths are columns of the C interface.
pub(crate) fn parts_leave(lent: &[u8], starts: &[usize], lengths: &[usize]) -> bool
    ensures { result ≡ list_any (λ p. ltb (length lent.now) (p.0 + p.1)) (zip starts.now lengths.now) }
{
    starts
        .iter()
        .zip(lengths)
        .any(|(start, length)| part_leaves(lent.len(), *start, *length))
}

// Whether a length is below `least` or above `most`.
pub(crate) fn lengths_outside(lengths: &[usize], least: usize, most: usize) -> bool
    ensures { result ≡ list_any (λ n. ltb n least || ltb most n) lengths.now }
{
    lengths.iter().any(|n| !(least..=most).contains(n))
}

// Whether a layer's type is no nibble.
pub(crate) fn types_outside(types: &[u8]) -> bool
    ensures { result ≡ list_any (λ n. ltb 15 n) types.now }
{
    types.iter().any(|n| 15 < *n)
}

// Whether a FourCC is another than the first.
pub(crate) fn fourccs_differ(fourccs: &[u32]) -> bool
    requires { 0 < length fourccs.now }
    ensures { result ≡ list_any (λ n. not (eqb n (slice_index fourccs.now 0))) fourccs.now }
{
    fourccs.iter().any(|n| *n != fourccs[0])
}

// What entries of these lengths leave of so much room; none if it is too short. Before each stand `short` bytes up to length 255, `long` from 256 on.
#[tactic(auto, using(crate::proofs::Rooms::sum_behind, crate::proofs::Rooms::sum_none), unfolding(crate::specs::Lengths::left_after))]
pub(crate) fn room_left(lengths: &[usize], short: usize, long: usize, room: usize) -> Option<usize>
    ensures { result ≡ left_after room (sum_by (with_head short long) lengths.now) }
{
    let mut left = room;
    for length in lengths {
        let head = if *length < 256 { short } else { long };
        left = left.checked_sub(head)?.checked_sub(*length)?;
    }
    Some(left)
}
