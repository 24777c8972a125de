// Allocation temperatures, the choice of the series of means, and the weights of a span (Temperature of a day, K1).
#![tactic(auto)]

mod days;
mod means;

ghost use Rattle.std.specs.Prelude.{◌≡◌, length};
ghost use Rattle.common.specs.Placed.{number, place};
ghost use Rattle.common.specs.Refusals as rows;
ghost use Rattle.profile.specs.Limits.{is_span};
ghost use Rattle.weights.specs.Temperature.{TemperatureMet, value};
ghost use Rattle.weights.specs.Means.{FirstOutMet};
ghost use Rattle.weights.specs.Choose.{ChooseMet};
ghost use Rattle.weights.specs.Weights.{LengthsMet, RowsMet, WeightsMet};

use common::{Fault, Refusal, clear};
use profile::Profile;

// The allocation temperature of four daily means, today's first.
#[tactic(auto, using(crate::proofs::Range::kept))]
pub fn temperature(a: i16, b: i16, c: i16, d: i16) -> Result<i16, Fault>
    ensures { TemperatureMet a b c d (number result) (place result) (value result) }
{
    means::check(&[a, b, c, d])?;
    Ok(means::of_four(a, b, c, d))
}

// The means of a span of n days: of the measured series if it serves, else of the forecast; none where neither does.
pub fn choose<'a>(measured: &'a [i16], forecast: &'a [i16], n: usize) -> &'a [i16]
    ensures { ChooseMet measured.entry forecast.entry n result measured.now forecast.now }
{
    if !is_span(n) {
        return &measured[..0];
    }
    if means::serves(measured, n + 3) {
        return &measured[..n + 3];
    }
    if means::serves(forecast, n + 3) {
        return &forecast[..n + 3];
    }
    &measured[..0]
}

// Row 4 for a series of means: the index of the first mean out of range, or the number of means where there is none.
pub fn first_out(means: &[i16]) -> usize
    ensures { FirstOutMet means.now result means.now }
{
    means
        .iter()
        .position(|mean| !profile::in_range(*mean))
        .unwrap_or(means.len())
}

// The weight of each day of a span, from its means, oldest first, the weekday of day 0, and which weekday each day counts as (7: its own).
#[tactic(auto, using(crate::proofs::Table::done_met))]
pub fn weights(
    profile: u8,
    weekday: u8,
    means: &[i16],
    calendar: &[u8],
    out: &mut [u32],
) -> Result<(), Fault>
    ensures { WeightsMet profile weekday means.now calendar.now out.old (number result) (place result) out.new means.now calendar.now }
{
    check_lengths(means.len(), calendar.len(), out.len())?;
    if let Err(fault) = check_rows(profile, weekday, means, calendar) {
        clear(out);
        return Err(fault);
    }
    days::fill(profile, weekday, means, calendar, out);
    Ok(())
}

// Row 3, which leaves the output as it was.
fn check_lengths(means: usize, calendar: usize, out: usize) -> Result<(), Refusal>
    ensures { LengthsMet means calendar out (rows.number result) }
{
    let n = means.saturating_sub(3);
    if !is_span(n) || out != n || calendar != n {
        return Err(Refusal::Unfit);
    }
    Ok(())
}

// Rows 1, 2, 4 and 14, which set the output to zero.
fn check_rows(profile: u8, weekday: u8, means: &[i16], calendar: &[u8]) -> Result<(), Fault>
    ensures { RowsMet profile weekday means.now calendar.now (number result) (place result) }
{
    if Profile::COUNT <= profile {
        return Err(Refusal::NoProfile.into());
    }
    if 6 < weekday {
        return Err(Refusal::NoWeekday.into());
    }
    means::check(means)?;
    days::check(calendar)?;
    Ok(())
}

// Whether a span can have n days.
fn is_span(n: usize) -> bool
    ensures { result ≡ is_span n }
{
    Profile::SPAN_LEAST <= n && n <= Profile::SPAN_MOST
}
