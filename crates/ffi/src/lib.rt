// The calls for C and Rust, on slices and numbers: each is the call below it, its answer given as the number, place and values of the table (If a call declines).
// include/arvadush.h declares them. Crate ffi_c exports them to C. Kept: a struct with a number, or the number alone, since C has no `Result`.
#![tactic(auto)]

mod returned;

ghost use Rattle.std.specs.Prelude.{◌≡◌};
ghost use Rattle.profile.specs.Answers.{ValueMet, WeightMet};
ghost use Rattle.weights.specs.Temperature.{TemperatureMet};
ghost use Rattle.weights.specs.Weights.{WeightsMet};
ghost use Rattle.account.specs.Account.{account};
ghost use Rattle.account.specs.Calls.{OpenMet, ReadingMet, WithdrawMet, CutMet, UncutMet};
ghost use Rattle.statement.specs.Parts.{outputs};
ghost use Rattle.statement.specs.Call.{StatementMet};
ghost use Rattle.customer.specs.Customer.{CustomerMet, AmountMet};
ghost use Rattle.casefile.specs.Reader.{ReadMet};
ghost use Rattle.casewriter.specs.Writer.{WriteMet};
ghost use Rattle.layout.specs.Text.{LaidOut, TextMet, statement_text, refusal_text};
ghost use Rattle.page.specs.Call.{PageMet};
ghost use Rattle.residual.specs.Spread as spreads;
ghost use Rattle.residual.specs.Spread.{points};
ghost use Rattle.residual.specs.Call.{SpreadMet};
ghost use Rattle.ffi.specs.Calls.{ChooseReturned};

// The table's number (0 is done), the place or index that goes with it, and the value; 0 where there is none.
#[derive(Clone, Copy)]
#[repr(C)]
pub struct Outcome {
    pub number: u8,
    pub place: usize,
    pub value: u64,
}

// The same with a temperature in hundredths of a degree C.
#[derive(Clone, Copy)]
#[repr(C)]
pub struct Temperature {
    pub number: u8,
    pub place: usize,
    pub value: i16,
}

// The same with a profile value in units of 10^-9, low and high.
#[derive(Clone, Copy)]
#[repr(C)]
pub struct Values {
    pub number: u8,
    pub place: usize,
    pub low: i64,
    pub high: i64,
}

// Which series the chooser took (1 measured, 2 forecast, 0 neither), and how many means from its start.
#[derive(Clone, Copy)]
#[repr(C)]
pub struct Chosen {
    pub series: u8,
    pub means: usize,
}

// The allocation temperature of four daily means, today's first.
pub fn arvadush_temperature(a: i16, b: i16, c: i16, d: i16) -> Temperature
    ensures { TemperatureMet a b c d result.number result.place result.value }
{
    weights::temperature(a, b, c, d).into()
}

// The means of a span of n days: which series serves, and its first n + 3 means; none where neither does.
pub fn arvadush_choose<'a>(measured: &'a [i16], forecast: &'a [i16], n: usize) -> Chosen
    ensures { ChooseReturned measured.now forecast.now n result measured.now forecast.now }
{
    let first = weights::choose(measured, measured, n).len();
    if first != 0 {
        return Chosen {
            series: 1,
            means: first,
        };
    }
    let second = weights::choose(forecast, forecast, n).len();
    if second != 0 {
        return Chosen {
            series: 2,
            means: second,
        };
    }
    Chosen {
        series: 0,
        means: 0,
    }
}

// The profile value at a temperature, low and high.
pub fn arvadush_value(profile: u8, t: i16) -> Values
    ensures { ValueMet profile t result.number result.place result.low result.high }
{
    profile::value(profile, t).into()
}

// The weight of one day.
pub fn arvadush_day_weight(profile: u8, weekday: u8, t: i16) -> Outcome
    ensures { WeightMet profile weekday t result.number result.place result.value }
{
    profile::day_weight(profile, weekday, t)
        .map(u64::from)
        .into()
}

// The weight of each day of a span, from its means, oldest first, the weekday of day 0, and which weekday each day counts as (7: its own).
pub fn arvadush_weights(
    profile: u8,
    weekday: u8,
    means: &[i16],
    calendar: &[u8],
    out: &mut [u32],
) -> Outcome
    ensures { WeightsMet profile weekday means.now calendar.now out.old result.number result.place out.new means.now calendar.now × (result.value ≡ 0) }
{
    weights::weights(profile, weekday, means, calendar, out)
        .map(|()| 0)
        .into()
}

// Clears marks and counts, whatever they held.
pub fn arvadush_open(weights: &[u32], marks: &mut [u8], counts: &mut [u64]) -> u8
    ensures { OpenMet (account weights.now marks.old counts.old) result (account weights.now marks.new counts.new) }
{
    account::number_of(account::open(weights, marks, counts))
}

// Sets a reading at boundary k.
pub fn arvadush_reading(
    weights: &[u32],
    marks: &mut [u8],
    counts: &mut [u64],
    k: usize,
    count: u64,
) -> u8
    ensures { ReadingMet (account weights.now marks.old counts.old) k count result (account weights.now marks.new counts.new) }
{
    account::number_of(account::reading(weights, marks, counts, k, count))
}

// Removes the reading at boundary k and zeroes its count.
pub fn arvadush_withdraw(weights: &[u32], marks: &mut [u8], counts: &mut [u64], k: usize) -> u8
    ensures { WithdrawMet (account weights.now marks.old counts.old) k result (account weights.now marks.new counts.new) }
{
    account::number_of(account::withdraw(weights, marks, counts, k))
}

// Sets a cut at boundary k.
pub fn arvadush_cut(weights: &[u32], marks: &mut [u8], counts: &[u64], k: usize) -> u8
    ensures { CutMet (account weights.now marks.old counts.now) k result (account weights.now marks.new counts.now) }
{
    account::number_of(account::cut(weights, marks, counts, k))
}

// Removes the cut at boundary k.
pub fn arvadush_uncut(weights: &[u32], marks: &mut [u8], counts: &[u64], k: usize) -> u8
    ensures { UncutMet (account weights.now marks.old counts.now) k result (account weights.now marks.new counts.now) }
{
    account::number_of(account::uncut(weights, marks, counts, k))
}

// Writes the statement of an account into from, to and wh; its value is the number of parts.
pub fn arvadush_statement(
    weights: &[u32],
    marks: &[u8],
    counts: &[u64],
    from: &mut [u16],
    to: &mut [u16],
    wh: &mut [u64],
) -> Outcome
    ensures { StatementMet (account weights.now marks.now counts.now) (outputs from.old to.old wh.old) result.number result.value (account weights.now marks.now counts.now) (outputs from.new to.new wh.new) × (result.place ≡ 0) }
{
    statement::statement(weights, marks, counts, from, to, wh)
        .map(|parts| parts as u64)
        .into()
}

// The customer value of this energy in Wh over these weights, in units of 0.1 Wh.
pub fn arvadush_customer_value(energy: u64, weights: &[u32]) -> Outcome
    ensures { CustomerMet energy weights.now result.number result.value weights.now × (result.place ≡ 0) }
{
    customer::customer_value(energy, weights).into()
}

// The Wh of a day with this weight for a customer with this value.
pub fn arvadush_daily_amount(value: u64, weight: u32) -> Outcome
    ensures { AmountMet value weight result.number result.value × (result.place ≡ 0) }
{
    customer::daily_amount(value, weight).into()
}

// Reads a case file into the slices of an account, of lengths 1,096, 1,097 and 1,097, the rest zero; its value is n.
pub fn arvadush_read(
    file: &[u8],
    weights: &mut [u32],
    marks: &mut [u8],
    counts: &mut [u64],
) -> Outcome
    ensures { ReadMet file.now (account weights.old marks.old counts.old) result.number result.place result.value (account weights.new marks.new counts.new) file.now }
{
    casefile::read_case(file, weights, marks, counts)
        .map(|days| days as u64)
        .into()
}

// Writes the case file of an account to the start of out; its value is the length of the file.
pub fn arvadush_write(
    profile: u8,
    weekday: u8,
    means: &[i16],
    marks: &[u8],
    counts: &[u64],
    out: &mut [u8],
) -> Outcome
    ensures { WriteMet profile weekday means.now marks.now counts.now out.old result.number result.place result.value out.new means.now marks.now counts.now }
{
    casewriter::write_case(profile, weekday, means, marks, counts, out)
        .map(|length| length as u64)
        .into()
}

// Lays out the page of an account; its value is the number of bytes.
pub fn arvadush_page(weights: &[u32], marks: &[u8], counts: &[u64], page: &mut [u8]) -> Outcome
    ensures { PageMet (account weights.now marks.now counts.now) page.old result.number result.value (account weights.now marks.now counts.now) page.new × (result.place ≡ 0) }
{
    page::page(weights, marks, counts, page)
        .map(|bytes| bytes as u64)
        .into()
}

// Spreads the residual load over the points; its value is the network's total.
pub fn arvadush_spread(
    load: u64,
    suppliers: &[u8],
    bases: &[u64],
    amounts: &mut [u64],
    totals: &mut [u64],
) -> Outcome
    ensures { SpreadMet load (points suppliers.now bases.now) (spreads.outputs amounts.old totals.old) result.number result.value (points suppliers.now bases.now) (spreads.outputs amounts.new totals.new) × (result.place ≡ 0) }
{
    residual::spread(load, suppliers, bases, amounts, totals).into()
}

// The text of a statement of so many parts, at the start of out; the length of the whole text.
pub fn arvadush_statement_text(
    from: &[u16],
    to: &[u16],
    wh: &[u64],
    parts: usize,
    out: &mut [u8],
) -> usize
    ensures { TextMet (statement_text (outputs from.now to.now wh.now) parts) out.old result out.new (outputs from.now to.now wh.now) (outputs from.now to.now wh.now) }
{
    layout::statement_text(from, to, wh, parts, out)
}

// The text of a refusal with its number and place, at the start of out; the length of the whole text.
pub fn arvadush_refusal_text(number: u8, place: usize, out: &mut [u8]) -> usize
    ensures { LaidOut 0 (refusal_text number place) out.old result out.new }
{
    layout::refusal_text(number, place, out)
}
