// One uplink shared among viewers. A tick credits every viewer its share, and a frame that is offered to a viewer is sent or dropped by that viewer's credit. Two
// columns are lent to each call, with an entry for each viewer: its credit in bytes, below 0 a debt; and a mark, 0 unless the viewer waits for a ResyncPoint.
#![tactic(auto)]

ghost use Rattle.std.specs.Prelude.{◌≡◌, true, ◌≤◌, ◌<◌, pos, length as entries, Ok};
ghost use Rattle.std.specs.Bool.{OnTrue};
ghost use Rattle.std.specs.List.{list_all};
ghost use Rattle.std.specs.Int.Signed.{le_z};
ghost use Rattle.types.specs.Types.{outcome};
ghost use Rattle.uplink.specs.Uplink.{
  most_viewers,
  most_uplink,
  viewers_ok,
  credit_ok,
  credited,
  tick_error,
  tick_credits,
  decide,
  credit_after,
  credit_of,
  offer_ok,
  offer_answer,
  offer_credits,
  offer_waiting,
  decision_number,
};

use types::ErrorCode;

const MOST_VIEWERS: usize = 64;

// Bytes a tick.
const MOST_UPLINK: u32 = 16777215;

const MOST_CREDIT: i32 = 33554430;

const MOST_DEBT: i32 = 2000000000;

// Kept (1): a hint is a number, since any may be given, and -32 refuses one above 2 (offer_ok).
const CRITICAL: u32 = 0;

const RESYNC_POINT: u32 = 1;

const DROPPABLE: u32 = 2;

// What comes of a frame that is offered to a viewer.
#[derive(Clone, Copy, Debug, PartialEq, Eq)]
pub enum Decision {
    Sent = 1,
    Dropped = 2,
}

impl From<Decision> for u32 {
    ghost from_gives = { λ decision number. number ≡ decision_number (Ok decision) };

    fn from(decision: Decision) -> u32 {
        decision as u32
    }
}

// 1 to 64 viewers, each with an entry in a column of so many.
#[tactic(auto, unfolding(crate::specs::Uplink::viewers_ok))]
fn are_viewers(viewers: usize, column: usize) -> bool
    ensures { result ≡ viewers_ok viewers column }
{
    0 < viewers && viewers <= MOST_VIEWERS && viewers <= column
}

#[tactic(auto, unfolding(crate::specs::Uplink::credit_ok))]
fn is_in_range(credit: i32) -> bool
    ensures { result ≡ credit_ok credit }
{
    (-MOST_DEBT..=MOST_CREDIT).contains(&credit)
}

// The share on top of at most as much again left unused.
#[tactic(auto, unfolding(crate::specs::Uplink::credit_ok, crate::specs::Uplink::credited, crate::specs::Uplink::carried))]
fn after_tick(share: u32, credit: i32) -> i32
    requires in_range { credit_ok credit ≡ true }
    requires small { share ≤ most_uplink }
    ensures { result ≡ credited share credit }
{
    let share = share as i32;
    credit.min(share) + share
}

fn all_in_range(credits: &[i32]) -> bool
    ensures { result ≡ list_all credit_ok credits.now }
{
    credits.iter().all(|credit| is_in_range(*credit))
}

// Credits every viewer its share. Refused is -32: a number of viewers that is not 1 to 64 or that the column has no entries for, an uplink over 16,777,215, a
// viewer's credit out of range. All is judged before the first entry is stored.
#[tactic(auto, using(crate::proofs::Columns::all_ok_is), unfolding(crate::specs::Uplink::viewers_ok, crate::specs::Uplink::tick_ok, crate::specs::Uplink::tick_error, crate::specs::Uplink::tick_credits))]
pub fn tick(viewers: usize, uplink: u32, credits: &mut [i32]) -> Result<(), ErrorCode>
    ensures error { result ≡ outcome (tick_error viewers uplink credits.old) }
    ensures credits { credits.new ≡ tick_credits viewers uplink credits.old }
{
    if !are_viewers(viewers, credits.len()) || MOST_UPLINK < uplink {
        return Err(ErrorCode::OutOfRange);
    }
    let credits = &mut credits[..viewers];
    if !all_in_range(credits) {
        return Err(ErrorCode::OutOfRange);
    }
    let share = uplink / viewers as u32;
    for credit in credits {
        *credit = after_tick(share, *credit);
    }
    Ok(())
}

// Whether a length is no more than a number with a sign.
fn is_within(length: usize, most: i32) -> bool
    ensures { result ≡ le_z (pos length) most }
{
    0 <= most && length <= most as usize
}

// Of a viewer whose credit is in range.
// Kept (1): a hint as a number, here and below: see its constants.
#[tactic(auto, unfolding(crate::specs::Uplink::credit_ok, crate::specs::Uplink::decide))]
fn decide(hint: u32, length: usize, credit: i32, waits: bool) -> Result<Decision, ErrorCode>
    requires { credit_ok credit ≡ true }
    ensures decision { result ≡ decide hint length credit waits }
    ensures after { credit_ok (credit_after result length credit) ≡ true }
{
    if hint == CRITICAL {
        if !is_within(length, credit + MOST_DEBT) {
            return Err(ErrorCode::DebtLimit);
        }
        return Ok(Decision::Sent);
    }
    if is_within(length, credit) && !(hint == DROPPABLE && waits) {
        Ok(Decision::Sent)
    } else {
        Ok(Decision::Dropped)
    }
}

// Whether an offer is in range, and that viewer's credit.
#[tactic(auto, unfolding(crate::specs::Uplink::viewers_ok, crate::specs::Uplink::credit_ok, crate::specs::Uplink::offer_ok))]
fn is_taken(viewers: usize, viewer: usize, hint: u32, credits: &[i32], waiting: &[u8]) -> bool
    ensures meaning { result ≡ offer_ok viewers viewer hint credits.now waiting.now }
    ensures inside { OnTrue result ((viewer < most_viewers) × (viewer < entries credits.now) × (viewer < entries waiting.now)
        × (credit_ok (credit_of credits.now viewer) ≡ true)) }
{
    are_viewers(viewers, credits.len())
        && viewers <= waiting.len()
        && viewer < viewers
        && hint <= DROPPABLE
        && is_in_range(credits[viewer])
}

// Offers a frame of so many bytes to a viewer. Refused are, in this order: -32 a number of viewers that is not 1 to 64 or that a column has no entries for, a
// viewer or a hint out of range, that viewer's credit out of range; -33 a Critical frame that would push the debt over 2,000,000,000. Neither changes an entry.
#[tactic(auto, unfolding(crate::specs::Uplink::credit_ok, crate::specs::Uplink::offer_answer, crate::specs::Uplink::offer_credits, crate::specs::Uplink::offer_waiting))]
pub fn offer(
    viewers: usize,
    viewer: usize,
    hint: u32,
    length: usize,
    credits: &mut [i32],
    waiting: &mut [u8],
) -> Result<Decision, ErrorCode>
    ensures answer { result ≡ offer_answer viewers viewer hint length credits.old waiting.old }
    ensures credits { credits.new ≡ offer_credits viewers viewer hint length credits.old waiting.old }
    ensures waiting { waiting.new ≡ offer_waiting viewers viewer hint length credits.old waiting.old }
{
    if !is_taken(viewers, viewer, hint, credits, waiting) {
        return Err(ErrorCode::OutOfRange);
    }
    let credit = credits[viewer];
    let decision = decide(hint, length, credit, waiting[viewer] != 0)?;
    match decision {
        Decision::Sent => {
            credits[viewer] = credit - length as i32;
            if hint == RESYNC_POINT {
                waiting[viewer] = 0;
            }
        }
        Decision::Dropped => waiting[viewer] = 1,
    }
    Ok(decision)
}
