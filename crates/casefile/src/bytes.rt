// Numbers in the bytes of a file, little-endian (Case file).
ghost use Rattle.std.specs.Prelude.{◌≡◌, ◌+◌, ◌≤◌, ◌<◌, length};
ghost use Rattle.casefile.specs.Bytes.{number16, number64, signed16};

// The number in the two bytes at an offset.
#[tactic(auto, unfolding(crate::specs::Bytes::little))]
pub(crate) fn number16(file: &[u8], at: usize) -> usize
    requires { at + 2 ≤ length file.now }
    ensures { (result ≡ number16 file.now at) × (result < 65536) }
{
    usize::from(u16::from_le_bytes([file[at], file[at + 1]]))
}

// The number in the eight bytes at an offset.
pub(crate) fn number64(file: &[u8], at: usize) -> u64
    requires { at + 8 ≤ length file.now }
    ensures { result ≡ number64 file.now at }
{
    u64::from_le_bytes([
        file[at],
        file[at + 1],
        file[at + 2],
        file[at + 3],
        file[at + 4],
        file[at + 5],
        file[at + 6],
        file[at + 7],
    ])
}

// The number in the two bytes at an offset, in two's complement.
pub(crate) fn signed16(file: &[u8], at: usize) -> i16
    requires { at + 2 ≤ length file.now }
    ensures { result ≡ signed16 file.now at }
{
    i16::from_le_bytes([file[at], file[at + 1]])
}
