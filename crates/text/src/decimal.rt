// Decimal text. A number is put as it is defined: what stands before its last digit, and then that digit.
ghost use Rattle.std.specs.Prelude.{◌≡◌, ◌++◌, ◌∷◌, [], ◌+◌, ◌≤◌, ◌<◌, length, nat_abs};
ghost use Rattle.text.specs.Decimals.{decimal, sign_of, number_text};
ghost use Rattle.text.specs.Laying.{laid};

// The code of a digit.
fn glyph(d: u64) -> u8
    requires { d < 10 }
    ensures { result ≡ 48 + d }
{
    b'0' + d as u8
}

// A number without its sign, also of the least one.
pub fn size_of(z: i64) -> u64
    ensures { result ≡ nat_abs z }
{
    z.unsigned_abs()
}

// Puts one byte.
pub fn put_byte(out: &mut [u8], at: usize, b: u8) -> usize
    requires { at + 1 ≤ length out.old }
    ensures { (out.new ≡ laid at (b ∷ []) out.old) × (result ≡ at + 1) }
{
    out[at] = b;
    at + 1
}

// Puts a text.
pub fn put(out: &mut [u8], at: usize, text: &[u8]) -> usize
    requires { at + length text.now ≤ length out.old }
    ensures { (out.new ≡ laid at text.now out.old) × (result ≡ at + length text.now) }
{
    out[at..at + text.len()].copy_from_slice(text);
    at + text.len()
}

// Puts a number that has no sign; one of 32 bits goes as 64.
pub fn put_decimal(out: &mut [u8], at: usize, n: u64) -> usize
    requires { at + 20 ≤ length out.old }
    ensures { (out.new ≡ laid at (decimal n) out.old) × (result ≡ at + length (decimal n)) × (result ≤ at + 20) }
{
    if n < 10 {
        put_byte(out, at, glyph(n))
    } else {
        let p = put_decimal(out, at, n / 10);
        put_byte(out, p, glyph(n % 10))
    }
}

// Puts the sign of a number below 0, and else nothing.
fn put_sign(out: &mut [u8], at: usize, z: i64) -> usize
    requires { at + 1 ≤ length out.old }
    ensures { (out.new ≡ laid at (sign_of z) out.old) × (result ≡ at + length (sign_of z)) × (result ≤ at + 1) }
{
    if z < 0 { put_byte(out, at, b'-') } else { at }
}

// Puts a number.
pub fn put_number(out: &mut [u8], at: usize, z: i64) -> usize
    requires { at + 21 ≤ length out.old }
    ensures { (out.new ≡ laid at (number_text z) out.old) × (result ≡ at + length (number_text z)) × (result ≤ at + 21) }
{
    let p = put_sign(out, at, z);
    put_decimal(out, p, size_of(z))
}

// Puts a number and the byte that stands behind it.
pub fn put_number_then(out: &mut [u8], at: usize, z: i64, behind: u8) -> usize
    requires { at + 22 ≤ length out.old }
    ensures { (out.new ≡ laid at (number_text z ++ (behind ∷ [])) out.old) × (result ≡ at + length (number_text z ++ (behind ∷ []))) × (result ≤ at + 22) }
{
    let p = put_number(out, at, z);
    put_byte(out, p, behind)
}
