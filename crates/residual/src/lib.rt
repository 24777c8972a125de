// Spreads the residual load of a network over its points (K5).
#![tactic(auto)]

ghost use Rattle.std.specs.Prelude.{◌≡◌, MatchResult};
ghost use Rattle.common.specs.Refusals.{number, value};
ghost use Rattle.statement.specs.Split.{rounded_share};
ghost use Rattle.residual.specs.Spread.{points, outputs, spread_of};
ghost use Rattle.residual.specs.Call.{bad_list, SpreadMet};
ghost use Rattle.residual.specs.Progress.{lent, Cleared, Limited, Unlimited, Shareable, Spreadable};

use common::{Refusal, clear};

// The limits of a spread, and its number of totals: one for each supplier, 0 to 63.
const POINTS_MOST: usize = 1_000;

const SUPPLIER_MOST: u8 = 63;

const LOAD_MOST: u64 = 2_000_000_000;

const BASE_MOST: u64 = 6_000_000_000;

const TOTALS: usize = 64;

// The points of a network, lent to be read: each one's supplier and base amount.
#[derive(Clone, Copy)]
struct Points<'a> {
    suppliers: &'a [u8],
    bases: &'a [u64],
}

// Gives each point its Wh of the load and each supplier its total, and returns the network's. Row 3 leaves the outputs, the others clear them.
// Kept: five slices, since the paper and C lend them so.
pub fn spread(
    load: u64,
    suppliers: &[u8],
    bases: &[u64],
    amounts: &mut [u64],
    totals: &mut [u64],
) -> Result<u64, Refusal>
    ensures { SpreadMet load (points suppliers.now bases.now) (outputs amounts.old totals.old) (number result) (value result) (points suppliers.now bases.now) (outputs amounts.new totals.new) }
{
    let n = bases.len();
    if suppliers.len() != n || amounts.len() != n || totals.len() != TOTALS {
        return Err(Refusal::Unfit);
    }
    clear(amounts);
    clear(totals);
    Points { suppliers, bases }.into_cleared(load, amounts, totals)
}

impl<'a> Points<'a> {
    // `spread` into outputs of the right lengths that are zero. Over a base sum of zero they stay so.
    fn into_cleared(
        self,
        load: u64,
        amounts: &mut [u64],
        totals: &mut [u64],
    ) -> Result<u64, Refusal>
        requires { Cleared (lent self) (outputs amounts.old totals.old) }
        ensures { SpreadMet load (lent self.entry) (outputs amounts.old totals.old) (number result) (value result) (lent self.entry) (outputs amounts.new totals.new) }
    {
        if self.bad_list() {
            return Err(Refusal::BadList);
        }
        if LOAD_MOST < load {
            return Err(Refusal::TooMuchLoad);
        }
        let sum = self.limited_sum()?;
        if 0 < sum {
            self.fill(load, sum, amounts, totals);
        } else if 0 < load {
            return Err(Refusal::NoBase);
        }
        Ok(load)
    }

    // Whether a supplier is above 63, or the list empty or above 1,000 points.
    fn bad_list(self) -> bool
        ensures { result ≡ bad_list (lent self.entry).suppliers }
    {
        !(1..=POINTS_MOST).contains(&self.suppliers.len())
            || self
                .suppliers
                .iter()
                .any(|supplier| SUPPLIER_MOST < *supplier)
    }

    // The sum of the bases. A base is added only where the sum stays within the limit, so nothing wraps.
    fn limited_sum(self) -> Result<u64, Refusal>
        ensures { MatchResult result (Limited (lent self.entry).bases) (Unlimited (lent self.entry).bases) }
    {
        let mut sum: u64 = 0;
        for base in self.bases {
            if BASE_MOST - sum < *base {
                return Err(Refusal::TooMuchLoad);
            }
            sum += *base;
        }
        Ok(sum)
    }

    // Writes the amount of every point, and adds it to its supplier's total.
    fn fill(self, load: u64, sum: u64, amounts: &mut [u64], totals: &mut [u64])
        requires spreadable { Spreadable load sum (lent self) }
        requires cleared { Cleared (lent self) (outputs amounts.old totals.old) }
        ensures { outputs amounts.new totals.new ≡ spread_of load (lent self.entry) }
    {
        let mut part: u64 = 0;
        let mut before: u64 = 0;
        // Kept: the points are read by their index. After a `zip` with `iter_mut` nothing is known of the amounts written.
        for (i, amount) in amounts.iter_mut().enumerate() {
            part += self.bases[i];
            let after = rounded_share(load, part, sum);
            *amount = after - before;
            totals[usize::from(self.suppliers[i])] += *amount;
            before = after;
        }
    }
}

// The share of the load that a part of the base sum has, to the nearest Wh, as a statement rounds (K3).
// Kept: statement has it too; like this one it asks its caller for numbers that fit, and a public function may ask nothing.
fn rounded_share(load: u64, part: u64, sum: u64) -> u64
    requires { Shareable load part sum }
    ensures { result ≡ rounded_share load part sum }
{
    (load * part + sum / 2) / sum
}
