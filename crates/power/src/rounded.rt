// Quotients, products and roots in units of 2^-30, rounded down or up (Profile value).
ghost use Rattle.std.specs.Prelude.{◌≡◌, ◌+◌, ◌*◌, ◌^◌, ◌≤◌, ◌<◌};
ghost use Rattle.power.specs.Power as spec;
ghost use Rattle.power.specs.Power.{one};

// The paper's one, 2^30.
pub const ONE: u64 = 1 << 30;

// Which way each step rounds. Kept an enum: the rules and their laws are over it, and closures would be two, for quotients and for roots.
#[derive(Clone, Copy)]
pub(crate) enum Rounding {
    Down,
    Up,
}

pub(crate) fn quotient(way: Rounding, a: u64, b: u64) -> u64
    requires { 0 < b }
    ensures { result ≡ spec.quotient way a b }
{
    match way {
        Rounding::Down => a / b,
        Rounding::Up => a.div_ceil(b),
    }
}

pub(crate) fn product(way: Rounding, p: u64, r: u64) -> u64
    requires { (p ≤ one) × (r ≤ one) }
    ensures { result ≡ spec.scaled_product way p r }
{
    quotient(way, p * r, ONE)
}

// Newton's iteration from above: the mean of r and one is not below the root of r × one. Kept: a power took four times as long with `isqrt`, which halves 32 times.
fn root_down(r: u64) -> u64
    requires { r ≤ one }
    ensures { result ≡ spec.sqrt_down (r * one) }
{
    let x = r * ONE;
    let mut s = (ONE + r) / 2;
    while x < s * s {
        s = (s + x / s) / 2;
    }
    s
}

// The root after r, that of r times one.
pub(crate) fn next_root(way: Rounding, r: u64) -> u64
    requires { r ≤ one }
    ensures { result ≡ spec.next_root way r }
{
    let s = root_down(r);
    match way {
        Rounding::Down => s,
        Rounding::Up => { if s * s < r * ONE { s + 1 } else { s } }
    }
}
