// The writer of case files (K2): from profile, weekday, means, marks and counts of an account to the bytes of its file.
#![tactic(auto)]

mod bytes;
mod sections;

ghost use Rattle.std.specs.Prelude.{◌≡◌, ◌-◌, replicate};
ghost use Rattle.common.specs.Placed.{number, place, value};
ghost use Rattle.common.specs.Refusals as rows;
ghost use Rattle.account.specs.Account.{account};
ghost use Rattle.account.specs.Refusals.{account_rows};
ghost use Rattle.casewriter.specs.Writer.{series_rows, WriteMet};

use account::Account;
use common::{Fault, Refusal, clear};
use profile::Profile;
use sections::{count_marks, file_end, fill};

// Writes the case file of an account to the start of out, and returns its length. Bytes past the file stay.
// Row 3 comes first and leaves out. Rows 1, 2 and 4 clear all of it, and rows 5 and 15 leave it.
// Kept: slices, as C lends them. Means and profile stand where an `Account` has weights.
pub fn write_case(
    profile: u8,
    weekday: u8,
    means: &[i16],
    marks: &[u8],
    counts: &[u64],
    out: &mut [u8],
) -> Result<usize, Fault>
    ensures { WriteMet profile weekday means.now marks.now counts.now out.old (number result) (place result) (value result) out.new means.now marks.now counts.now }
{
    let checked = check_account(means.len(), marks, counts);
    if checked == Err(Refusal::Unfit) {
        return Err(Refusal::Unfit.into());
    }
    if let Err(fault) = check_series(profile, weekday, means) {
        clear(out);
        return Err(fault);
    }
    // A 5 of the account is held back until here, since it comes after 4.
    checked?;
    let m = count_marks(marks);
    let end = file_end(means.len(), m);
    if out.len() < end {
        return Err(Refusal::NoRoom.into());
    }
    fill(profile, weekday, means, marks, counts, m, out);
    Ok(end)
}

// Rows 3 and 5 for marks and counts over so many means. Any good weights would do, so ones stand for those of the means.
fn check_account(means: usize, marks: &[u8], counts: &[u64]) -> Result<(), Refusal>
    ensures { rows.number result ≡ account_rows (account (replicate (means - 3) 1) marks.now counts.now) 0 }
{
    let n = means.saturating_sub(3);
    if n < Profile::SPAN_LEAST || Profile::SPAN_MOST < n {
        return Err(Refusal::Unfit);
    }
    let ones = [1u32; Profile::SPAN_MOST];
    let account = Account {
        weights: &ones[..n],
        marks,
        counts,
    };
    account.check()
}

// Rows 1, 2 and 4.
// Kept: weights asks these rows too, and 14 after them; a public call for them would be one more promise.
fn check_series(profile: u8, weekday: u8, means: &[i16]) -> Result<(), Fault>
    ensures { result ≡ series_rows profile weekday means.now }
{
    if Profile::COUNT <= profile {
        return Err(Refusal::NoProfile.into());
    }
    if 6 < weekday {
        return Err(Refusal::NoWeekday.into());
    }
    let first = weights::first_out(means);
    if first < means.len() {
        return Err(Fault {
            refusal: Refusal::OutOfRange,
            place: first,
        });
    }
    Ok(())
}
