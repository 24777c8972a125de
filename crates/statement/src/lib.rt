// The statement (Account and its calls, "Statement"): each weight is added at most twice, for Z and for Zk.
#![tactic(auto)]

mod readings;

ghost use Rattle.std.specs.Prelude.{◌≡◌, ◌+◌, ◌≤◌, length, sum};
ghost use Rattle.common.specs.Refusals.{number, value};
ghost use Rattle.profile.specs.Limits.{span_most};
ghost use Rattle.account.specs.Account.{account, lent, shown};
ghost use Rattle.statement.specs.Split.{rounded_share};
ghost use Rattle.statement.specs.Parts.{outputs};
ghost use Rattle.statement.specs.Call.{StatementMet};
ghost use Rattle.statement.specs.Progress.{Splittable, Addable, with_part, next_part, Interval, Written, Fillable, Filled};

use account::{Account, is_reading};
use common::{Refusal, clear};
use readings::{count_readings, next_reading};

// How far a statement is written: so many `parts` are, and the next starts at the boundary `start`, which has `count`.
#[derive(Clone, Copy)]
struct Progress {
    start: usize,
    count: u64,
    parts: usize,
}

// Writes the statement of an account into `from`, `to` and `wh`, and returns the number of its parts.
// Kept: six slices, since the paper and C lend them so; what is written is no view, whose contracts would name each borrow.
pub fn statement(
    weights: &[u32],
    marks: &[u8],
    counts: &[u64],
    from: &mut [u16],
    to: &mut [u16],
    wh: &mut [u64],
) -> Result<usize, Refusal>
    ensures { StatementMet (account weights.now marks.now counts.now) (outputs from.old to.old wh.old) (number result) (value result) (account weights.now marks.now counts.now) (outputs from.new to.new wh.new) }
{
    let n = weights.len();
    if from.len() != n || to.len() != n || wh.len() != n {
        return Err(Refusal::Unfit);
    }
    let account = Account {
        weights,
        marks,
        counts,
    };
    account.check()?;
    clear(from);
    clear(to);
    clear(wh);
    if count_readings(marks) < 2 {
        return Err(Refusal::TooFewReadings);
    }
    Ok(fill(account, from, to, wh))
}

// The sum of the weights of some days.
// Kept: customer has it too; both ask for few enough days that the sum fits, and a public function may ask nothing.
fn weight_sum(weights: &[u32]) -> u64
    requires { length weights.now ≤ span_most }
    ensures { result ≡ sum weights.now }
{
    weights.iter().map(|weight| u64::from(*weight)).sum()
}

// A cut's share of the energy e between two readings, to the nearest Wh: one addition and one division, and no remainder is tested (K3).
// Kept: residual has it too; like this one it asks its caller for numbers that fit, and a public function may ask nothing.
fn rounded_share(e: u64, zk: u64, z: u64) -> u64
    requires { Splittable 0 e zk z }
    ensures { result ≡ rounded_share e zk z }
{
    (e * zk + z / 2) / z
}

// What a cut has between two readings: the earlier reading's count `low`, and its share of the energy e between them.
fn cut_count(low: u64, e: u64, zk: u64, z: u64) -> u64
    requires { Splittable low e zk z }
    ensures { result ≡ low + rounded_share e zk z }
{
    low + rounded_share(e, zk, z)
}

// Writes the part that ends at boundary `end`, which has `count`.
fn add_part(
    from: &mut [u16],
    to: &mut [u16],
    wh: &mut [u64],
    done: Progress,
    end: usize,
    count: u64,
) -> Progress
    requires { Addable (outputs from.old to.old wh.old) done end count }
    ensures { (result ≡ next_part done end count) × (outputs from.new to.new wh.new ≡ with_part (outputs from.old to.old wh.old) done end count) }
{
    let at = done.parts;
    from[at] = done.start as u16;
    to[at] = end as u16;
    wh[at] = count - done.count;
    Progress {
        start: end,
        count,
        parts: at + 1,
    }
}

// Writes the parts from the reading at which the next part starts to the next reading q.
fn fill_interval(
    account: Account<'_>,
    q: usize,
    from: &mut [u16],
    to: &mut [u16],
    wh: &mut [u64],
    done: Progress,
) -> Progress
    requires { Interval (lent account) q (outputs from.old to.old wh.old) done }
    ensures { Written (lent account.entry).weights (shown (lent account.entry)) (q + 1) (outputs from.new to.new wh.new) result }
{
    let Account {
        weights,
        marks,
        counts,
    } = account;
    let p = done.start;
    let low = done.count;
    let high = counts[q];
    let e = high - low;
    let z = weight_sum(&weights[p..q]);
    let mut zk = u64::from(weights[p]);
    let mut reached = done;
    for k in p + 1..q {
        if marks[k] != 0 {
            let count = cut_count(low, e, zk, z);
            reached = add_part(from, to, wh, reached, k, count);
        }
        zk += u64::from(weights[k]);
    }
    add_part(from, to, wh, reached, q, high)
}

// Writes every part, from the first reading to the last; their number.
fn fill(account: Account<'_>, from: &mut [u16], to: &mut [u16], wh: &mut [u64]) -> usize
    requires { Fillable (lent account) (outputs from.old to.old wh.old) }
    ensures { Filled (lent account.entry) (outputs from.new to.new wh.new) result }
{
    let first = next_reading(account.marks, 0).unwrap();
    let mut done = Progress {
        start: first,
        count: account.counts[first],
        parts: 0,
    };
    for q in first + 1..account.marks.len() {
        if is_reading(account.marks[q]) {
            done = fill_interval(account, q, from, to, wh, done);
        }
    }
    done.parts
}
