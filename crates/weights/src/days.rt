// The days of a span (Temperature of a day, K1): one temperature, one power and one weight each, in one pass.
ghost use Rattle.std.specs.Prelude.{◌≡◌, true, false, MatchResult, ◌+◌, ◌<◌, length};
ghost use Rattle.profile.specs.Limits.{in_range, profile_count};
ghost use Rattle.profile.specs.Weight.{weight_of};
ghost use Rattle.weights.specs.Means.{some_out};
ghost use Rattle.weights.specs.Calendar.{counts_as, some_no_day, first_no_day};
ghost use Rattle.weights.specs.Weights.{day_temperature, weights_of, Ready};

use common::{Fault, Refusal};

// Row 14: refuses the first byte above 7, with its index.
pub(crate) fn check(calendar: &[u8]) -> Result<(), Fault>
    ensures { MatchResult result (λ _. some_no_day calendar.now ≡ false) (λ fault. (some_no_day calendar.now ≡ true) × (fault ≡ record { refusal = Refusal.NoDay; place = first_no_day calendar.now })) }
{
    match calendar.iter().position(|byte| 7 < *byte) {
        Some(place) => Err(Fault {
            refusal: Refusal::NoDay,
            place,
        }),
        None => Ok(()),
    }
}

// Writes the weight of each day; the weekday is that of day 0.
pub(crate) fn fill(profile: u8, weekday: u8, means: &[i16], calendar: &[u8], out: &mut [u32])
    requires { Ready profile weekday means.now × (length out.old + 3 ≡ length means.now) × (length calendar.now ≡ length out.old) }
    ensures { out.new ≡ weights_of profile weekday means.now calendar.now }
{
    for (k, weight) in out.iter_mut().enumerate() {
        let day = counts_as(weekday, calendar, k);
        *weight = weight_at(profile, day, temperature_of(means, k));
    }
}

// Day k's temperature: its own mean is at index k + 3.
#[tactic(auto, using(crate::proofs::Range::kept, crate::proofs::Range::temperature_in_range, crate::proofs::Series::all_in, crate::proofs::Series::read_in))]
fn temperature_of(means: &[i16], k: usize) -> i16
    requires { (some_out means.now ≡ false) × (k + 3 < length means.now) }
    ensures { (result ≡ day_temperature means.now k) × (in_range result ≡ true) }
{
    crate::means::of_four(means[k + 3], means[k + 2], means[k + 1], means[k])
}

// The weekday that day k counts as: the one that its byte names, or its own.
#[tactic(auto, using(crate::proofs::Calendar::named_day, crate::proofs::Calendar::own_day))]
fn counts_as(weekday: u8, calendar: &[u8], k: usize) -> u8
    requires { (weekday < 7) × (k < length calendar.now) }
    ensures { result ≡ counts_as weekday calendar.now k }
{
    let byte = calendar[k];
    if byte < 7 {
        return byte;
    }
    ((usize::from(weekday) + k) % 7) as u8
}

fn weight_at(profile: u8, weekday: u8, t: i16) -> u32
    requires { (profile < profile_count) × (weekday < 7) × (in_range t ≡ true) }
    ensures { result ≡ weight_of profile weekday t }
{
    profile::day_weight(profile, weekday, t).unwrap()
}
