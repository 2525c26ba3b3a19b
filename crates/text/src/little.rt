// Numbers as bytes, little end first: the bits are gathered without a sign, and the sign is given to the whole.
ghost use Rattle.std.specs.Prelude.{◌≡◌, ◌+◌, ◌*◌, ◌≤◌, ◌<◌, length};
ghost use Rattle.std.specs.Int.{w32, w64};
ghost use Rattle.std.proofs.Common.{to_z, of_z};
ghost use Rattle.text.specs.Little.{bits_at, wide_bits_at, number_at, word_at};

// Four bytes from `at` on: the bits of a number.
pub fn bits_at(s: &[u8], at: usize) -> u32
    requires { at + 4 ≤ length s.now }
    ensures value { result ≡ bits_at s.now at }
    ensures upper_bound { result < 4294967296 }
{
    u32::from_le_bytes([s[at], s[at + 1], s[at + 2], s[at + 3]])
}

// Eight bytes from `at` on.
pub fn wide_bits_at(s: &[u8], at: usize) -> u64
    requires { at + 8 ≤ length s.now }
    ensures { result ≡ wide_bits_at s.now at }
{
    u64::from_le_bytes([
        s[at],
        s[at + 1],
        s[at + 2],
        s[at + 3],
        s[at + 4],
        s[at + 5],
        s[at + 6],
        s[at + 7],
    ])
}

// The number of 32 bits whose bits these are.
pub fn signed(n: u32) -> i32
    ensures { result ≡ to_z w32 n }
{
    n.cast_signed()
}

// The number of 64 bits whose bits these are.
pub fn wide_signed(n: u64) -> i64
    ensures { result ≡ to_z w64 n }
{
    n.cast_signed()
}

// The bits of a number of 32 bits.
pub fn bits_of(z: i32) -> u32
    ensures { result ≡ of_z w32 z }
{
    z.cast_unsigned()
}

// The number of four bytes at `at`.
pub fn number_at(s: &[u8], at: usize) -> i32
    requires { at + 4 ≤ length s.now }
    ensures { result ≡ number_at s.now at }
{
    signed(bits_at(s, at))
}

// The number of eight bytes at `at`.
pub fn word_at(s: &[u8], at: usize) -> i64
    requires { at + 8 ≤ length s.now }
    ensures { result ≡ word_at s.now at }
{
    wide_signed(wide_bits_at(s, at))
}
