// Customer value and daily amount, on lent weights and single numbers (Customer value and daily amount, If a call declines).
#![tactic(auto)]

ghost use Rattle.std.specs.Prelude.{◌≡◌, ◌≤◌, length};
ghost use Rattle.profile.specs.Limits.{span_most};
ghost use Rattle.common.specs.Lists.{sum_of};
ghost use Rattle.customer.specs.Customer.{CustomerMet, AmountMet};
ghost use Rattle.common.specs.Refusals as answers;

use account::ENERGY_MOST;
use common::Refusal;
use profile::Profile;

// The largest customer value, in 0.1 Wh.
const VALUE_MOST: u64 = 1_000_000_000_000;

// 10 tenths to the Wh, times 10^6 millionths to a weight of one.
const UNITS: u64 = 10_000_000;

// Z: the sum of the weights.
// Kept: statement has it too; both ask for few enough days that the sum fits, and a public function may ask nothing.
fn sum_of(weights: &[u32]) -> u64
    requires { length weights.now ≤ span_most }
    ensures { result ≡ sum_of weights.now }
{
    weights.iter().map(|weight| u64::from(*weight)).sum()
}

// The customer value of this energy in Wh over these weights, in units of 0.1 Wh.
pub fn customer_value(energy: u64, weights: &[u32]) -> Result<u64, Refusal>
    ensures { CustomerMet energy weights.now (answers.number result) (answers.value result) weights.now }
{
    if !(Profile::SPAN_LEAST..=Profile::SPAN_MOST).contains(&weights.len()) {
        return Err(Refusal::Unfit);
    }
    if !account::good_weights(weights) {
        return Err(Refusal::Unsound);
    }
    if ENERGY_MOST < energy {
        return Err(Refusal::TooMuch);
    }
    let value = rounding::nearest_of(energy * UNITS, sum_of(weights));
    if VALUE_MOST < value {
        return Err(Refusal::TooGreat);
    }
    Ok(value)
}

// The Wh of a day with this weight for a customer with this value.
pub fn daily_amount(value: u64, weight: u32) -> Result<u64, Refusal>
    ensures { AmountMet value weight (answers.number result) (answers.value result) }
{
    if !(Profile::WEIGHT_LEAST..=Profile::WEIGHT_MOST).contains(&weight) {
        return Err(Refusal::Unsound);
    }
    if VALUE_MOST < value {
        return Err(Refusal::TooGreat);
    }
    Ok(rounding::nearest_of(value * u64::from(weight), UNITS))
}
