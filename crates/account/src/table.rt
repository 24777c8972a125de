// The table of refusals for the calls on a boundary (If a call declines), row by row.
ghost use Rattle.std.specs.Prelude.{◌<◌, ◌≤◌, ◌≡◌, ◌&&◌, ◌||◌, ltb, length, get_or, IfOk};
ghost use Rattle.common.specs.Refusals.{number};
ghost use Rattle.account.specs.Stands.{put, with_reading, last_less_first};
ghost use Rattle.account.specs.Account.{lent, days, shown, marks_reading};
ghost use Rattle.account.specs.Refusals.{out_of_order};
ghost use Rattle.account.specs.Slices.{Fit, boundary_rows, count_at};

use crate::{Account, is_reading};
use common::Refusal;

impl<'a> Account<'a> {
    // The rows of every call on a boundary: 3, 5 and 6. Gives the mark there.
    pub(crate) fn boundary(self, k: usize) -> Result<u8, Refusal>
        ensures answers { number result ≡ boundary_rows (lent self.entry) k 0 }
        ensures mark { IfOk result (λ m. m ≡ get_or self.entry.marks.now k 0) }
        ensures small { IfOk result (λ m. m ≤ 3) }
    {
        self.check()?;
        if self.weights.len() < k {
            return Err(Refusal::NoBoundary);
        }
        Ok(self.marks[k])
    }

    // 8: "count below an earlier or above a later reading"
    pub(crate) fn out_of_order(self, k: usize, v: u64) -> bool
        requires { Fit (lent self) }
        ensures { result ≡ out_of_order (days (lent self.entry)) (shown (lent self.entry)).readings k v }
    {
        self.marks
            .iter()
            .zip(self.counts)
            .enumerate()
            .any(|(j, (m, c))| disagrees(*m, *c, j, k, v))
    }

    // Last less first, "its own count is taken in among those standing".
    pub(crate) fn last_less_first_with(self, k: usize, v: u64) -> u64
        requires fits { Fit (lent self) }
        requires within { k < length self.marks.now }
        ensures { result ≡ last_less_first (days (lent self.entry)) (with_reading (shown (lent self.entry)).readings k v) }
    {
        let last = self.count_with(k, v, self.last_reading().max(k));
        let first = self.count_with(k, v, self.first_reading().min(k));
        last.saturating_sub(first)
    }

    // The count at j, with a reading of count v taken in at k.
    fn count_with(self, k: usize, v: u64, j: usize) -> u64
        ensures { result ≡ put (count_at self.entry.counts.now) k v j }
    {
        if j == k { v } else { self.count_at(j) }
    }
}

// Whether mark m and count c at j are an earlier reading above v, or a later one below it.
fn disagrees(m: u8, c: u64, j: usize, k: usize, v: u64) -> bool
    ensures { result ≡ (ltb j k && (marks_reading m && ltb v c) || ltb k j && (marks_reading m && ltb c v)) }
{
    is_reading(m) && (j < k && v < c || k < j && c < v)
}
