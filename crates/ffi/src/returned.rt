// What the calls below answer, as the paper's number (0 is done), its place and its values (If a call declines).
ghost use Rattle.std.specs.Prelude.{◌≡◌};
ghost use Rattle.common.specs.Refusals as plain;
ghost use Rattle.common.specs.Placed as placed;
ghost use Rattle.profile.specs.Answers.{low_given, high_given};
ghost use Rattle.weights.specs.Temperature as temperatures;
ghost use Rattle.ffi.specs.Calls.{outcome_of, temperature_of, values_of};

use crate::{Outcome, Temperature, Values};
use common::{Fault, Refusal};

impl From<Result<u64, Fault>> for Outcome {
    ghost from_gives = { λ answer outcome. outcome ≡ outcome_of (placed.number answer) (placed.place answer) (placed.value answer) };

    fn from(answer: Result<u64, Fault>) -> Outcome {
        match answer {
            Ok(value) => Outcome {
                number: 0,
                place: 0,
                value,
            },
            Err(fault) => Outcome {
                number: fault.refusal.number(),
                place: fault.place,
                value: 0,
            },
        }
    }
}

impl From<Result<u64, Refusal>> for Outcome {
    ghost from_gives = { λ answer outcome. outcome ≡ outcome_of (plain.number answer) 0 (plain.value answer) };

    fn from(answer: Result<u64, Refusal>) -> Outcome {
        answer.map_err(Fault::from).into()
    }
}

impl From<Result<i16, Fault>> for Temperature {
    ghost from_gives = { λ answer temperature. temperature ≡ temperature_of (placed.number answer) (placed.place answer) (temperatures.value answer) };

    fn from(answer: Result<i16, Fault>) -> Temperature {
        match answer {
            Ok(value) => Temperature {
                number: 0,
                place: 0,
                value,
            },
            Err(fault) => Temperature {
                number: fault.refusal.number(),
                place: fault.place,
                value: 0,
            },
        }
    }
}

impl From<Result<profile::Values, Fault>> for Values {
    ghost from_gives = { λ answer values. values ≡ values_of (placed.number answer) (placed.place answer) (low_given answer) (high_given answer) };

    fn from(answer: Result<profile::Values, Fault>) -> Values {
        match answer {
            Ok(value) => Values {
                number: 0,
                place: 0,
                low: value.low,
                high: value.high,
            },
            Err(fault) => Values {
                number: fault.refusal.number(),
                place: fault.place,
                low: 0,
                high: 0,
            },
        }
    }
}
