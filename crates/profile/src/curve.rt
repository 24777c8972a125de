// The parts of a profile value in units of 10^-9 (Profile value).
ghost use Rattle.std.specs.Prelude.{◌≡◌, true, ◌<◌, ◌≤◌, ◌+◌, ◌*◌, ◌/◌, ◌^◌, pos};
ghost use Rattle.profile.specs.Limits.{in_range, profile_count};
ghost use Rattle.profile.specs.Weight.{weight_of};
ghost use Rattle.profile.specs.Steps.{SharesMet, LineMet, LargerMet, ValuesMet};
ghost use Rattle.power.specs.Power.{upward};
ghost use Rattle.profile.specs.Value.{linear, u_of, s_low};

use super::{Profile, table};
use power::{Bounds, ONE};

// A profile value (h value), low and high, in units of 10^-9.
// Kept beside `power::Bounds`, which is unsigned: a type parameter there and an alias here would be longer.
#[derive(Clone, Copy)]
pub struct Values {
    pub low: i64,
    pub high: i64,
}

pub(crate) fn values_at(profile: u8, t: i16) -> Values
    requires { (profile < profile_count) × (in_range t ≡ true) }
    ensures { ValuesMet profile t result.low result.high }
{
    let p = table::profile_at(profile);
    let s = both_shares(p, t);
    let rest = linear_at(p, t);
    Values {
        low: curve_down(p.a, s.low) + rest,
        high: curve_up(p.a, s.high) + rest,
    }
}

pub(crate) fn weight_at(profile: u8, weekday: u8, t: i16) -> u32
    requires { (profile < profile_count) × (weekday < 7) × (in_range t ≡ true) }
    ensures { result ≡ weight_of profile weekday t }
{
    let p = table::profile_at(profile);
    let low = curve_down(p.a, low_share(p, t)) + linear_at(p, t);
    let factor = u64::from(p.factors[usize::from(weekday)]);
    (low as u64 * factor / 10_000_000) as u32
}

fn both_shares(p: Profile, t: i16) -> Bounds
    requires { in_range t ≡ true }
    ensures { SharesMet p t result.low result.high }
{
    let b = p.b.unsigned_abs();
    let u = distance(t);
    if b <= u {
        let q = power::bounds(b, u, p.c);
        return Bounds {
            low: share_down(ONE, q.high),
            high: share_up(ONE, q.low),
        };
    }
    let q = power::bounds(u, b, p.c);
    Bounds {
        low: share_down(q.low, q.low),
        high: share_up(q.high, q.high),
    }
}

// The low share alone. Kept beside both: a weight needs one power, and with two it takes twice as long.
fn low_share(p: Profile, t: i16) -> u64
    requires { in_range t ≡ true }
    ensures { result ≡ s_low p t }
{
    let b = p.b.unsigned_abs();
    let u = distance(t);
    if b <= u {
        return share_down(ONE, power::upper(b, u, p.c));
    }
    let q = power::lower(u, b, p.c);
    share_down(q, q)
}

// first × one / (one + q): the first is one on the cold side and q on the warm side.
// Kept in two: a closure that divides would take more lines than the second function.
fn share_down(first: u64, q: u64) -> u64
    requires { (first ≤ 2 ^ 30) × (q ≤ 2 ^ 30) }
    ensures { result ≡ first * 2 ^ 30 / (2 ^ 30 + q) }
{
    first * ONE / (ONE + q)
}

fn share_up(first: u64, q: u64) -> u64
    requires { (first ≤ 2 ^ 30) × (q ≤ 2 ^ 30) }
    ensures { result ≡ upward (first * 2 ^ 30) (2 ^ 30 + q) }
{
    (first * ONE).div_ceil(ONE + q)
}

// u, which is (4,000 - t) × 100,000.
fn distance(t: i16) -> u32
    requires { in_range t ≡ true }
    ensures { result ≡ u_of t }
{
    (4_000 - i32::from(t)) as u32 * 100_000
}

// A × 100 × s / one, down and up; in two, as the share.
fn curve_down(a: u32, s: u64) -> i64
    requires { (a < 2 ^ 24) × (s ≤ 2 ^ 30) }
    ensures { result ≡ pos (a * 100 * s / 2 ^ 30) }
{
    (u64::from(a) * 100 * s / ONE) as i64
}

fn curve_up(a: u32, s: u64) -> i64
    requires { (a < 2 ^ 24) × (s ≤ 2 ^ 30) }
    ensures { result ≡ pos (upward (a * 100 * s) (2 ^ 30)) }
{
    (u64::from(a) * 100 * s).div_ceil(ONE) as i64
}

// 100 × D and the larger line.
fn linear_at(p: Profile, t: i16) -> i64
    ensures { result ≡ linear p t }
{
    100 * i64::from(p.d) + larger_line(p, t)
}

// The heating line (H) or the water line (W).
fn larger_line(p: Profile, t: i16) -> i64
    ensures { LargerMet p t result }
{
    line_at(p.mh, p.bh, t).max(line_at(p.mw, p.bw, t))
}

fn line_at(m: i32, b: i32, t: i16) -> i64
    ensures { LineMet m b t result }
{
    i64::from(m) * i64::from(t) + 100 * i64::from(b)
}
