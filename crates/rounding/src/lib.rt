// Rounding to the nearest whole number, an exact half going up (the paper's first paragraph), on 64-bit numbers.
#![tactic(auto)]

ghost use Rattle.std.specs.Prelude.{◌≡◌};
ghost use Rattle.rounding.specs.Nearest.{nearest};

// x / d to the nearest whole number; 0 where d is 0. The remainder is compared with what it lacks to d, so nothing is doubled.
pub fn nearest_of(x: u64, d: u64) -> u64
    ensures { result ≡ nearest x d }
{
    if d == 0 {
        return 0;
    }
    let q = x / d;
    let rest = x % d;
    if rest < d - rest { q } else { q + 1 }
}
