// Daily means (Temperature of a day): their range, and the rule of four of them.
ghost use Rattle.std.specs.Prelude.{◌≡◌, true, false, MatchResult};
ghost use Rattle.profile.specs.Limits.{in_range};
ghost use Rattle.weights.specs.Temperature.{weighted, temperature_of};
ghost use Rattle.weights.specs.Means.{first_out, some_out};
ghost use Rattle.weights.specs.Choose.{serves};

use crate::first_out;
use common::{Fault, Refusal};

// Row 4: refuses the first mean out of range, with its index.
pub(crate) fn check(means: &[i16]) -> Result<(), Fault>
    ensures { MatchResult result (λ _. some_out means.now ≡ false) (λ fault. (some_out means.now ≡ true) × (fault ≡ record { refusal = Refusal.OutOfRange; place = first_out means.now })) }
{
    let place = first_out(means);
    if place < means.len() {
        return Err(Fault {
            refusal: Refusal::OutOfRange,
            place,
        });
    }
    Ok(())
}

// Whether a series has so many means at its start, all in range.
pub(crate) fn serves(series: &[i16], count: usize) -> bool
    ensures { result ≡ serves series.now count }
{
    count <= series.len() && series[..count].iter().all(|mean| profile::in_range(*mean))
}

// The temperature of four means in range, today's first: the nearest whole number to their weighted sum over 15.
pub(crate) fn of_four(a: i16, b: i16, c: i16, d: i16) -> i16
    requires { (in_range a ≡ true) × (in_range b ≡ true) × (in_range c ≡ true) × (in_range d ≡ true) }
    ensures { result ≡ temperature_of a b c d }
{
    (2 * weighted(a, b, c, d) + 15).div_euclid(30) as i16
}

fn weighted(a: i16, b: i16, c: i16, d: i16) -> i32
    ensures { result ≡ weighted a b c d }
{
    8 * i32::from(a) + 4 * i32::from(b) + 2 * i32::from(c) + i32::from(d)
}
