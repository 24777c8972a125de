// What every layer shares: slices set to zero over their whole length, and the rows of the table of refusals (If a call declines).
#![tactic(auto)]

mod refusal;

ghost use Rattle.std.specs.Prelude.{◌≡◌};
ghost use Rattle.common.specs.Rows.{set_to};

pub use refusal::{Fault, Refusal};

// A type of numbers, with its zero.
pub trait Number: Copy {
    ghost ZERO: { Self };

    const ZERO: Self;
}

impl Number for u8 {
    ghost ZERO = { 0 };

    const ZERO: u8 = 0;
}

impl Number for u16 {
    ghost ZERO = { 0 };

    const ZERO: u16 = 0;
}

impl Number for u32 {
    ghost ZERO = { 0 };

    const ZERO: u32 = 0;
}

impl Number for u64 {
    ghost ZERO = { 0 };

    const ZERO: u64 = 0;
}

// Sets a whole slice to zero.
pub fn clear<T: Number>(numbers: &mut [T])
    ensures { numbers.new ≡ set_to T.ZERO numbers.old }
{
    for number in numbers.iter_mut() {
        *number = T::ZERO;
    }
}
