// Bytes, words and decimal numbers (Case file, the printed text), put one after the other into a lent slice.
ghost use Rattle.std.specs.Prelude.{◌+◌, ◌<◌, ◌≤◌, ◌^◌, ◌≡◌, ◌∷◌, [], ◌++◌, length};
ghost use Rattle.layout.specs.Text.{LaidOut, digit, decimal};

// The byte b at offset at, where there is room; the next offset.
fn byte(out: &mut [u8], at: usize, b: u8) -> usize
    requires { at < 2 ^ 62 }
    ensures { LaidOut at (b ∷ []) out.old result out.new }
{
    if at < out.len() {
        out[at] = b;
    }
    at + 1
}

// The bytes of a word from offset at on; the next offset.
pub(crate) fn word(out: &mut [u8], at: usize, text: &[u8]) -> usize
    requires { at + length text.now < 2 ^ 62 }
    ensures { LaidOut at text.now out.old result out.new }
{
    let mut next = at;
    for b in text {
        next = byte(out, next, *b);
    }
    next
}

// A digit in ASCII.
fn glyph(d: u64) -> u8
    requires { d < 10 }
    ensures { result ≡ digit d }
{
    b'0' + (d as u8)
}

// The decimal digits of a number from offset at on; the next offset.
fn digits(out: &mut [u8], at: usize, n: u64) -> usize
    requires { at + 21 < 2 ^ 62 }
    ensures { LaidOut at (decimal n) out.old result out.new }
{
    if n < 10 {
        return byte(out, at, glyph(n));
    }
    let last = digits(out, at, n / 10);
    byte(out, last, glyph(n % 10))
}

// A number and the byte after it, from offset at on; the next offset, at most 21 further.
pub(crate) fn number(out: &mut [u8], at: usize, n: u64, after: u8) -> usize
    requires { at + 21 < 2 ^ 62 }
    ensures laid_out { LaidOut at (decimal n ++ (after ∷ [])) out.old result out.new }
    ensures upper_bound { result ≤ at + 21 }
{
    let end = digits(out, at, n);
    byte(out, end, after)
}
