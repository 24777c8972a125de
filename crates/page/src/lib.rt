// The page for the post (K4): the statement of an account in lines of 40 characters, laid out in a lent slice.
#![tactic(auto)]

ghost use Rattle.std.specs.Prelude.{◌≡◌, false, ◌+◌, ◌≤◌, length};
ghost use Rattle.std.proofs.lemmas.List.Edits.{sets};
ghost use Rattle.account.specs.Account.{account, lent};
ghost use Rattle.statement.specs.Parts.{outputs};
ghost use Rattle.statement.specs.Call.{unfit_outputs};
ghost use Rattle.layout.specs.Text.{decimal};
ghost use Rattle.page.specs.Page.{aligned, page_line, page_text, page_length};
ghost use Rattle.common.specs.Refusals.{number, value};
ghost use Rattle.page.specs.Call.{PageMet};
ghost use Rattle.layout.specs.Parts.{held, count};
ghost use Rattle.page.specs.Progress.{Small, Printable, LengthMet};

use account::Account;
use common::{Refusal, clear};
use layout::Parts;
use profile::Profile;

// Lays out the page of an account, and returns the number of its bytes. Row 11 clears the page, the others leave it.
// Kept: three slices, as C lends them; and inside arrays of the longest length, since there is no heap.
pub fn page(
    weights: &[u32],
    marks: &[u8],
    counts: &[u64],
    page: &mut [u8],
) -> Result<usize, Refusal>
    ensures { PageMet (account weights.now marks.now counts.now) page.old (number result) (value result) (account weights.now marks.now counts.now) page.new }
{
    let n = weights.len();
    if Profile::SPAN_MOST < n {
        return Err(Refusal::Unfit);
    }
    let mut from = [0u16; Profile::SPAN_MOST];
    let mut to = [0u16; Profile::SPAN_MOST];
    let mut wh = [0u64; Profile::SPAN_MOST];
    let account = Account {
        weights,
        marks,
        counts,
    };
    with_outputs(account, &mut from[..n], &mut to[..n], &mut wh[..n], page)
}

// The same, by way of outputs that have the length for the statement.
fn with_outputs(
    account: Account<'_>,
    from: &mut [u16],
    to: &mut [u16],
    wh: &mut [u64],
    page: &mut [u8],
) -> Result<usize, Refusal>
    requires { unfit_outputs (length account.weights.now) (outputs from.old to.old wh.old) ≡ false }
    ensures { PageMet (lent account.entry) page.old (number result) (value result) (lent account.entry) page.new }
{
    match statement::statement(account.weights, account.marks, account.counts, from, to, wh) {
        Ok(parts) => {
            let given = Parts {
                from: &from[..parts],
                to: &to[..parts],
                wh: &wh[..parts],
            };
            laid_out(given, page)
        }
        Err(refusal) => {
            if refusal == Refusal::TooFewReadings {
                clear(page);
            }
            Err(refusal)
        }
    }
}

// The page of a statement's parts, if the lent page has the length for it.
fn laid_out(parts: Parts<'_>, page: &mut [u8]) -> Result<usize, Refusal>
    requires { Printable (held parts) (count parts) }
    ensures { LengthMet (count parts.entry) (page_text (held parts.entry) (count parts.entry)) page.old (number result) (value result) page.new }
{
    let bytes = 41 * (parts.from.len() + 1);
    if page.len() != bytes {
        return Err(Refusal::Unfit);
    }
    lines(parts, page);
    Ok(bytes)
}

// The heading and a line for each part.
fn lines(parts: Parts<'_>, page: &mut [u8])
    requires printable { Printable (held parts) (count parts) }
    requires page_len { length page.old ≡ page_length (count parts) }
    ensures { page.new ≡ page_text (held parts.entry) (count parts.entry) }
{
    page[..41].copy_from_slice(b"  from    to            Wh           sum\n");
    let mut sum: u64 = 0;
    for i in 0..parts.from.len() {
        let amount = parts.wh[i];
        sum += amount;
        line(parts.from[i], parts.to[i], amount, sum, page, 41 * (i + 1));
    }
}

// The line of a part with the running sum, from offset at on.
fn line(from: u16, to: u16, wh: u64, sum: u64, page: &mut [u8], at: usize)
    requires { (at + 41 ≤ length page.old) × Small from to wh sum }
    ensures { page.new ≡ sets page.old at (page_line from to wh sum) }
{
    column(page, at, 6, u64::from(from));
    column(page, at + 6, 6, u64::from(to));
    column(page, at + 12, 14, wh);
    column(page, at + 26, 14, sum);
    page[at + 40] = b'\n';
}

// A number in so many columns from offset at on: its digits from the right, then spaces.
fn column(page: &mut [u8], at: usize, width: usize, n: u64)
    requires { (at + width ≤ length page.old) × (length (decimal n) ≤ width) }
    ensures { page.new ≡ sets page.old at (aligned width (decimal n)) }
{
    let mut end = at + width;
    let mut rest = n;
    // Kept: no index is counted, but digits are taken until one is left.
    while 10 <= rest {
        end -= 1;
        page[end] = b'0' + ((rest % 10) as u8);
        rest /= 10;
    }
    end -= 1;
    page[end] = b'0' + (rest as u8);
    page[at..end].fill(b' ');
}
