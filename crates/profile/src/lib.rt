// Profiles, profile value and day weight (Profiles, Profile value).
#![tactic(auto)]

mod curve;
mod table;

ghost use Rattle.std.specs.Prelude.{◌≡◌};
ghost use Rattle.profile.specs.Limits.{in_range};
ghost use Rattle.common.specs.Refusals as refused;
ghost use Rattle.common.specs.Placed.{number, place, value};
ghost use Rattle.profile.specs.Answers.{profile_given, ByNumberMet, LimitsMet, WeightLimitsMet, SpanLimitsMet, low_given, high_given, ValueMet, WeightMet};

use common::{Fault, Refusal};
pub use curve::Values;

// One profile, a standard load profile SigLinDe: coefficients in ten-millionths, weekday factors in ten-thousandths, Monday first.
#[derive(Clone, Copy)]
pub struct Profile {
    pub a: u32,
    pub b: i32,
    pub c: u32,
    pub d: u32,
    pub mh: i32,
    pub bh: i32,
    pub mw: i32,
    pub bw: i32,
    pub factors: [u16; 7],
}

impl Profile {
    // Means, in hundredths of a degree C.
    pub const COLDEST: i16 = -5_000;

    pub const WARMEST: i16 = 3_999;

    // Weights, in millionths.
    pub const WEIGHT_LEAST: u32 = 1;

    pub const WEIGHT_MOST: u32 = 6_999_999;

    // Days of a span.
    pub const SPAN_LEAST: usize = 1;

    pub const SPAN_MOST: usize = 1_096;

    pub const COUNT: u8 = 10;

    // The profile of a number, 0 to 9.
    pub fn by_number(number: u8) -> Result<Profile, Refusal>
        ensures by_number_met { ByNumberMet number (refused.number result) (profile_given result) }
        ensures limits_met { LimitsMet Profile.COLDEST Profile.WARMEST Profile.COUNT }
        ensures weight_limits_met { WeightLimitsMet Profile.WEIGHT_LEAST Profile.WEIGHT_MOST }
        ensures span_limits_met { SpanLimitsMet Profile.SPAN_LEAST Profile.SPAN_MOST }
    {
        if Profile::COUNT <= number {
            return Err(Refusal::NoProfile);
        }
        Ok(table::profile_at(number))
    }
}

// Whether one mean or temperature is in range.
#[tactic(auto, unfolding(crate::specs::Limits::in_range))]
pub fn in_range(t: i16) -> bool
    ensures { result ≡ in_range t }
{
    Profile::COLDEST <= t && t <= Profile::WARMEST
}

// The profile value at a temperature, low and high.
pub fn value(profile: u8, t: i16) -> Result<Values, Fault>
    ensures { ValueMet profile t (number result) (place result) (low_given result) (high_given result) }
{
    if Profile::COUNT <= profile {
        Err(Refusal::NoProfile.into())
    } else if in_range(t) {
        Ok(curve::values_at(profile, t))
    } else {
        Err(Refusal::OutOfRange.into())
    }
}

// The weight of one day.
pub fn day_weight(profile: u8, weekday: u8, t: i16) -> Result<u32, Fault>
    ensures { WeightMet profile weekday t (number result) (place result) (value result) }
{
    if Profile::COUNT <= profile {
        return Err(Refusal::NoProfile.into());
    }
    if 6 < weekday {
        return Err(Refusal::NoWeekday.into());
    }
    if !in_range(t) {
        return Err(Refusal::OutOfRange.into());
    }
    Ok(curve::weight_at(profile, weekday, t))
}
