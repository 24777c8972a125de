// Powers of a ratio at most one, rounded down and up, in units of 2^-30 (Profile value).
#![tactic(auto)]

mod by_roots;
mod rounded;

ghost use Rattle.std.specs.Prelude.{◌≡◌};
ghost use Rattle.power.specs.Power.{one, lower_of, upper_of, BoundsMet};

pub use by_roots::Bounds;
pub use rounded::ONE;
use rounded::Rounding;

// The power of n / m rounded down, its exponent c in ten-millionths; 0 where n / m is no ratio at most one.
pub fn lower(n: u32, m: u32, c: u32) -> u64
    ensures { result ≡ lower_of n m c }
{
    by_roots::bound(Rounding::Down, Rounding::Up, n, m, c)
}

// The same power rounded up. Kept beside `lower`: both are public, and one call of `bound` each.
pub fn upper(n: u32, m: u32, c: u32) -> u64
    ensures { result ≡ upper_of n m c }
{
    by_roots::bound(Rounding::Up, Rounding::Down, n, m, c)
}

// Both. Where n is at most m, and m above 0, they enclose the exact power.
pub fn bounds(n: u32, m: u32, c: u32) -> Bounds
    ensures bounds_met { BoundsMet n m c result.low result.high }
    ensures value { ONE ≡ one }
{
    Bounds {
        low: lower(n, m, c),
        high: upper(n, m, c),
    }
}
