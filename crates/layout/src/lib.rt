// The text of a statement, of a refusal and of an account, laid out in a lent buffer (Case file, the program's output).
#![tactic(auto)]

mod put;

ghost use Rattle.std.specs.Prelude.{◌≡◌, false, ◌+◌, ◌*◌, ◌<◌, ◌≤◌, ◌^◌, length};
ghost use Rattle.account.specs.Account.{account, lent};
ghost use Rattle.statement.specs.Parts.{outputs};
ghost use Rattle.statement.specs.Shares.{total};
ghost use Rattle.layout.specs.Text.{LaidOut, TextMet, statement_text, refusal_text, line_of, part_lines, parts_text};
ghost use Rattle.layout.specs.Parts.{held, count, Fit, too_great};
ghost use Rattle.layout.specs.Accounts.{account_text, text_most};

use account::{Account, ENERGY_MOST};
use common::Refusal;
use profile::Profile;

// No text of an account is longer.
pub const TEXT_MOST: usize = 72_390;

// The text of a refusal with its number and place, at the start of out. Kept: the number is a byte, since C passes any.
pub fn refusal_text(number: u8, place: usize, out: &mut [u8]) -> usize
    ensures { LaidOut 0 (refusal_text number place) out.old result out.new }
{
    let at = put::word(out, 0, b"refused ");
    let at = put::number(out, at, u64::from(number), b' ');
    put::number(out, at, place as u64, b'\n')
}

// The text of a statement of so many parts, at the start of out; nothing where no statement can be like that.
// Kept: slices and a number of parts, as C lends them.
pub fn statement_text(from: &[u16], to: &[u16], wh: &[u64], parts: usize, out: &mut [u8]) -> usize
    ensures { TextMet (statement_text (outputs from.now to.now wh.now) parts) out.old result out.new (outputs from.now to.now wh.now) (outputs from.now to.now wh.now) }
{
    if parts == 0
        || Profile::SPAN_MOST < parts
        || from.len() < parts
        || to.len() < parts
        || wh.len() < parts
    {
        return 0;
    }
    let given = Parts {
        from: &from[..parts],
        to: &to[..parts],
        wh: &wh[..parts],
    };
    if given.too_great() {
        return 0;
    }
    given.text(out)
}

// The parts of a statement that are lent to be read: each slice is as long as there are parts.
#[derive(Clone, Copy)]
pub struct Parts<'a> {
    pub from: &'a [u16],
    pub to: &'a [u16],
    pub wh: &'a [u64],
}

impl<'a> Parts<'a> {
    // Whether one has more Wh than an account can have.
    fn too_great(self) -> bool
        ensures { result ≡ too_great (held self.entry) (length self.entry.wh.now) }
    {
        self.wh.iter().any(|amount| ENERGY_MOST < *amount)
    }

    // The words, lines and sum of the statement, at the start of out.
    fn text(self, out: &mut [u8]) -> usize
        requires fit { Fit self }
        requires small { too_great (held self) (count self) ≡ false }
        ensures { LaidOut 0 (parts_text (held self.entry) (count self.entry)) out.old result out.new }
    {
        let at = put::word(out, 0, b"parts ");
        let at = put::number(out, at, self.from.len() as u64, b'\n');
        let at = self.lines(out, at);
        let at = put::word(out, at, b"sum ");
        put::number(out, at, self.sum(), b'\n')
    }

    // The lines from offset at on; the next offset, at most 63 for each part further.
    fn lines(self, out: &mut [u8], at: usize) -> usize
        requires fit { Fit self }
        requires at_bound { at ≤ 1000 }
        ensures laid_out { LaidOut at (part_lines (held self.entry) (count self.entry)) out.old result out.new }
        ensures upper_bound { result ≤ at + 63 * count self.entry }
    {
        let mut next = at;
        for i in 0..self.from.len() {
            next = line(self.from[i], self.to[i], self.wh[i], out, next);
        }
        next
    }

    // The sum of the Wh.
    fn sum(self) -> u64
        requires fit { Fit self }
        requires small { too_great (held self) (count self) ≡ false }
        ensures { result ≡ total (held self.entry) (count self.entry) }
    {
        self.wh.iter().sum()
    }
}

// The line of one part from offset at on; the next offset, at most 63 further.
fn line(from: u16, to: u16, wh: u64, out: &mut [u8], at: usize) -> usize
    requires { at + 100 < 2 ^ 62 }
    ensures laid_out { LaidOut at (line_of from to wh) out.old result out.new }
    ensures upper_bound { result ≤ at + 63 }
{
    let at = put::number(out, at, u64::from(from), b' ');
    let at = put::number(out, at, u64::from(to), b' ');
    put::number(out, at, wh, b'\n')
}

// The statement of an account or its refusal, at the start of out.
// Kept: three slices, as C lends them; and inside arrays of the longest length, since there is no heap.
pub fn account_text(weights: &[u32], marks: &[u8], counts: &[u64], out: &mut [u8]) -> usize
    ensures text_met { TextMet (account_text (account weights.now marks.now counts.now)) out.old result out.new (account weights.now marks.now counts.now) (account weights.now marks.now counts.now) }
    ensures text_most_value { TEXT_MOST ≡ text_most }
{
    if Profile::SPAN_MOST < weights.len() {
        return refusal_text(Refusal::Unfit.number(), 0, out);
    }
    let mut from = [0u16; Profile::SPAN_MOST];
    let mut to = [0u16; Profile::SPAN_MOST];
    let mut wh = [0u64; Profile::SPAN_MOST];
    let account = Account {
        weights,
        marks,
        counts,
    };
    with_outputs(account, &mut from, &mut to, &mut wh, out)
}

// The same, by way of outputs that are long enough.
// Kept: the outputs are three parameters. A struct that holds &mut must say in each contract that its fields keep their ghost names.
fn with_outputs(
    account: Account<'_>,
    from: &mut [u16],
    to: &mut [u16],
    wh: &mut [u64],
    out: &mut [u8],
) -> usize
    requires { (length account.weights.now ≤ length from.old) × (length account.weights.now ≤ length to.old) × (length account.weights.now ≤ length wh.old) }
    ensures { LaidOut 0 (account_text (lent account.entry)) out.old result out.new }
{
    let n = account.weights.len();
    let answer = statement::statement(
        account.weights,
        account.marks,
        account.counts,
        &mut from[..n],
        &mut to[..n],
        &mut wh[..n],
    );
    match answer {
        Ok(parts) => statement_text(&from[..n], &to[..n], &wh[..n], parts, out),
        Err(refusal) => refusal_text(refusal.number(), 0, out),
    }
}
