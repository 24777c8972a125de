// Numbers into the bytes of a file, little-endian (K2, Case file).
ghost use Rattle.std.specs.Prelude.{◌≡◌, ◌+◌, ◌≤◌, length};
ghost use Rattle.std.proofs.lemmas.List.Edits.{sets};
ghost use Rattle.casewriter.specs.Bytes.{little_bytes, twos};

// Stores the lowest `width` bytes of n from an offset on.
pub(crate) fn number(out: &mut [u8], at: usize, width: usize, n: u64)
    requires { (width ≤ 8) × (at + width ≤ length out.old) }
    ensures { out.new ≡ sets out.old at (little_bytes width n) }
{
    out[at..at + width].copy_from_slice(&n.to_le_bytes()[..width]);
}

// Gives the 16-bit number that two's complement has for a mean.
pub(crate) fn twos(mean: i16) -> u64
    ensures { result ≡ twos mean }
{
    u64::from(mean.cast_unsigned())
}
