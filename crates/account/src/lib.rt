// The account and its calls on lent slices (Account and its calls, If a call declines).
// Each contract is one record of specs/Calls.antt: the number of the answer, and the account's three slices after the call.
#![tactic(auto)]

mod marks;
mod soundness;
mod table;

ghost use Rattle.std.specs.Prelude.{◌≡◌};
ghost use Rattle.common.specs.Refusals.{number};
ghost use Rattle.account.specs.Account.{account, lent, marks_reading, marks_cut, energy_most};
ghost use Rattle.account.specs.Calls.{OpenMet, ReadingMet, WithdrawMet, CutMet, UncutMet, CheckMet, GoodWeightsMet};

use common::{Refusal, clear};
use profile::Profile;

// "Last less first at most 2,000,000,000", in Wh.
pub const ENERGY_MOST: u64 = 2_000_000_000;

// An account that is lent to be read: n weights, and n+1 marks and counts.
#[derive(Clone, Copy)]
pub struct Account<'a> {
    pub weights: &'a [u32],
    pub marks: &'a [u8],
    pub counts: &'a [u64],
}

// Kept: the calls that write take the three slices, as C lends them. They differ in which of them they write.

// Clears marks and counts, whatever they held.
pub fn open(weights: &[u32], marks: &mut [u8], counts: &mut [u64]) -> Result<(), Refusal>
    ensures { OpenMet (account weights.now marks.old counts.old) (number result) (account weights.now marks.new counts.new) }
{
    let account = Account {
        weights,
        marks: &marks[..],
        counts: &counts[..],
    };
    if account.unfit() {
        return Err(Refusal::Unfit);
    }
    if !good_weights(weights) {
        return Err(Refusal::Unsound);
    }
    clear(marks);
    clear(counts);
    Ok(())
}

// Sets a reading of count v at boundary k.
pub fn reading(
    weights: &[u32],
    marks: &mut [u8],
    counts: &mut [u64],
    k: usize,
    v: u64,
) -> Result<(), Refusal>
    ensures { ReadingMet (account weights.now marks.old counts.old) k v (number result) (account weights.now marks.new counts.new) }
{
    let account = Account {
        weights,
        marks: &marks[..],
        counts: &counts[..],
    };
    let mark = account.boundary(k)?;
    if is_reading(mark) {
        return Err(Refusal::AlreadyThere);
    }
    if account.out_of_order(k, v) {
        return Err(Refusal::OutOfOrder);
    }
    if ENERGY_MOST < account.last_less_first_with(k, v) {
        return Err(Refusal::TooMuch);
    }
    marks[k] = mark + 2;
    counts[k] = v;
    Ok(())
}

// Removes the reading at boundary k and zeroes its count.
pub fn withdraw(
    weights: &[u32],
    marks: &mut [u8],
    counts: &mut [u64],
    k: usize,
) -> Result<(), Refusal>
    ensures { WithdrawMet (account weights.now marks.old counts.old) k (number result) (account weights.now marks.new counts.new) }
{
    let account = Account {
        weights,
        marks: &marks[..],
        counts: &counts[..],
    };
    let mark = account.boundary(k)?;
    if !is_reading(mark) {
        return Err(Refusal::NotThere);
    }
    marks[k] = mark - 2;
    counts[k] = 0;
    Ok(())
}

// Sets a cut at boundary k.
pub fn cut(weights: &[u32], marks: &mut [u8], counts: &[u64], k: usize) -> Result<(), Refusal>
    ensures { CutMet (account weights.now marks.old counts.now) k (number result) (account weights.now marks.new counts.now) }
{
    let account = Account {
        weights,
        marks: &marks[..],
        counts,
    };
    let mark = account.boundary(k)?;
    if is_cut(mark) {
        return Err(Refusal::AlreadyThere);
    }
    marks[k] = mark + 1;
    Ok(())
}

// Removes the cut at boundary k.
pub fn uncut(weights: &[u32], marks: &mut [u8], counts: &[u64], k: usize) -> Result<(), Refusal>
    ensures { UncutMet (account weights.now marks.old counts.now) k (number result) (account weights.now marks.new counts.now) }
{
    let account = Account {
        weights,
        marks: &marks[..],
        counts,
    };
    let mark = account.boundary(k)?;
    if !is_cut(mark) {
        return Err(Refusal::NotThere);
    }
    marks[k] = mark - 1;
    Ok(())
}

impl<'a> Account<'a> {
    // Rows 3 and 5 for a whole account. Reading, withdraw, cut, uncut and the statement check them first.
    pub fn check(self) -> Result<(), Refusal>
        ensures check_met { CheckMet (lent self.entry) (number result) (lent self.entry) }
        ensures energy_most_value { ENERGY_MOST ≡ energy_most }
    {
        if self.unfit() {
            return Err(Refusal::Unfit);
        }
        if !good_weights(self.weights)
            || !self.good_boundaries()
            || ENERGY_MOST < self.last_less_first()
        {
            return Err(Refusal::Unsound);
        }
        Ok(())
    }
}

// `Account::check` of three slices.
pub fn check(weights: &[u32], marks: &[u8], counts: &[u64]) -> Result<(), Refusal>
    ensures check_met { CheckMet (account weights.now marks.now counts.now) (number result) (account weights.now marks.now counts.now) }
    ensures energy_most_value { ENERGY_MOST ≡ energy_most }
{
    let account = Account {
        weights,
        marks,
        counts,
    };
    account.check()
}

// "Weights 1 to 6,999,999."
pub fn good_weights(weights: &[u32]) -> bool
    ensures { GoodWeightsMet weights.now result weights.now }
{
    weights.iter().all(|weight| Profile::WEIGHT_LEAST <= *weight && *weight <= Profile::WEIGHT_MOST)
}

// Whether a mark is a reading: 2, or 3 with a cut.
pub fn is_reading(m: u8) -> bool
    ensures { result ≡ marks_reading m }
{
    m == 2 || m == 3
}

// Whether a mark is a cut: 1, or 3 with a reading. Kept beside `is_reading`: two words of the paper, which a parameter would not name.
pub fn is_cut(m: u8) -> bool
    ensures { result ≡ marks_cut m }
{
    m == 1 || m == 3
}

// The paper's number for an answer; 0 is done. Kept for callers who want the number (README).
pub fn number_of(answer: Result<(), Refusal>) -> u8
    ensures { result ≡ number answer }
{
    match answer {
        Ok(()) => 0,
        Err(refusal) => refusal.number(),
    }
}
