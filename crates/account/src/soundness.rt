// When an account fits and when its marks and counts are sound (Account and its calls).
ghost use Rattle.std.specs.Prelude.{◌≡◌};
ghost use Rattle.account.specs.Account.{lent, unfit};
ghost use Rattle.account.specs.Slices.{Fit, good_boundaries};

use crate::{Account, is_reading};
use profile::Profile;

// "Marks 0 to 3."
const MARK_MOST: u8 = 3;

impl<'a> Account<'a> {
    // Row 3: n outside 1 to 1,096, or marks or counts not n+1 long.
    pub(crate) fn unfit(self) -> bool
        ensures { result ≡ unfit (lent self.entry) }
    {
        let n = self.weights.len();
        n < Profile::SPAN_LEAST
            || Profile::SPAN_MOST < n
            || self.marks.len() != n + 1
            || self.counts.len() != n + 1
    }

    // In one pass: marks 0 to 3, no count without a reading, readings never falling. `last` is the last reading's count, 0 before the first.
    pub(crate) fn good_boundaries(self) -> bool
        requires { Fit (lent self) }
        ensures { result ≡ good_boundaries (lent self.entry) }
    {
        let mut last = 0;
        for (mark, count) in self.marks.iter().zip(self.counts) {
            if MARK_MOST < *mark {
                return false;
            }
            if is_reading(*mark) {
                if *count < last {
                    return false;
                }
                last = *count;
            } else if *count != 0 {
                return false;
            }
        }
        true
    }
}
