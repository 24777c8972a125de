// The power by repeated products and by roots, rounded down or up (Profile value).
ghost use Rattle.std.specs.Prelude.{◌≡◌, ◌*◌, ◌≤◌};
ghost use Rattle.power.specs.Power as spec;
ghost use Rattle.power.specs.Power.{one};

use super::rounded;
use super::rounded::{ONE, Rounding};

// The exponent's unit is 2^-24, c's is 10^-7.
const WHOLE: u64 = 1 << 24;

const TEN_MILLION: u64 = 10_000_000;

// The two bounds of a power. (Beside `bounds` its name would clash.)
#[derive(Clone, Copy)]
pub struct Bounds {
    pub low: u64,
    pub high: u64,
}

// One, multiplied by r n times.
fn raise(way: Rounding, r: u64, n: u64) -> u64
    requires { r ≤ one }
    ensures { result ≡ spec.raise way n r one }
{
    let mut p = ONE;
    for _ in 0..n {
        p = rounded::product(way, p, r);
    }
    p
}

// p, multiplied by each of the 24 roots after r whose bit in c is set.
fn times_roots(way: Rounding, r: u64, p: u64, c: u64) -> u64
    requires { (r ≤ one) × (p ≤ one) }
    ensures { result ≡ spec.times_roots way 24 r p c }
{
    let mut root = r;
    let mut q = p;
    for bit in (0..24u64).rev() {
        root = rounded::next_root(way, root);
        if (c >> bit) % 2 == 1 {
            q = rounded::product(way, q, root);
        }
    }
    q
}

fn power(way: Rounding, r: u64, c: u64) -> u64
    requires { r ≤ one }
    ensures { result ≡ spec.power way r c }
{
    let p = raise(way, r, c / WHOLE);
    times_roots(way, r, p, c % WHOLE)
}

// The power of n / m with each step rounded the one way and its exponent the other; 0 where n / m is no ratio at most one.
pub(crate) fn bound(way: Rounding, other: Rounding, n: u32, m: u32, c: u32) -> u64
    ensures { result ≡ spec.of_ratio n m (spec.power way (spec.quotient way (n * one) m) (spec.exponent other c)) }
{
    if m == 0 || m < n {
        return 0;
    }
    let r = rounded::quotient(way, u64::from(n) * ONE, u64::from(m));
    let e = rounded::quotient(other, u64::from(c) * WHOLE, TEN_MILLION);
    power(way, r, e)
}
