// Readings and cuts as the marks and counts show them (Account and its calls). Every function is total.
ghost use Rattle.std.specs.Prelude.{◌≡◌, length};
ghost use Rattle.common.specs.Below as boundaries;
ghost use Rattle.account.specs.Stands.{last_less_first};
ghost use Rattle.account.specs.Account.{lent, days, shown};
ghost use Rattle.account.specs.Slices.{Fit, reads_at, count_at};

use crate::{Account, is_reading};

impl<'a> Account<'a> {
    // The first boundary with a reading; the number of boundaries where there is none.
    pub(crate) fn first_reading(self) -> usize
        ensures { result ≡ boundaries.first (reads_at self.entry.marks.now) (length self.entry.marks.now) }
    {
        self.marks
            .iter()
            .position(|m| is_reading(*m))
            .unwrap_or(self.marks.len())
    }

    // The last boundary with a reading; 0 where there is none.
    pub(crate) fn last_reading(self) -> usize
        ensures { result ≡ boundaries.last (reads_at self.entry.marks.now) (length self.entry.marks.now) }
    {
        self.marks.iter().rposition(|m| is_reading(*m)).unwrap_or(0)
    }

    // The count at boundary k, 0 past the last.
    pub(crate) fn count_at(self, k: usize) -> u64
        ensures { result ≡ count_at self.entry.counts.now k }
    {
        self.counts.get(k).copied().unwrap_or(0)
    }

    // The last reading's count less the first one's.
    pub(crate) fn last_less_first(self) -> u64
        requires { Fit (lent self) }
        ensures { result ≡ last_less_first (days (lent self.entry)) (shown (lent self.entry)).readings }
    {
        let last = self.count_at(self.last_reading());
        let first = self.count_at(self.first_reading());
        last.saturating_sub(first)
    }
}
