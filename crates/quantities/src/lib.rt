// The variable-length quantities of Standard MIDI Files 1.0, in which a chunk has its gaps and lengths: a number below
// 2^28 in groups of seven bits. They are put in their shortest form, and read in any form of at most four bytes.
#![tactic(auto)]

ghost use Rattle.std.specs.Prelude.{◌≡◌, ◌+◌, ◌≤◌, ◌<◌, length, drop, IfSome};
ghost use Rattle.text.specs.Laying.{laid};
ghost use Rattle.quantities.specs.Quantities.{group, quantity_top, quantity_of, quantity_in};

use text::{put, put_byte};

// The most bytes of a quantity.
pub const MOST: usize = 4;

// The first number of two bytes, of three and of four.
const TWO: u64 = 128;

const THREE: u64 = 16384;

const FOUR: u64 = 2097152;

// The group of seven bits that counts `unit`.
fn group(unit: u64, q: u64) -> u8
    requires { 0 < unit }
    ensures value { result ≡ group unit q }
    ensures upper_bound { result < 128 }
{
    (q / unit % 128) as u8
}

// How many bytes a quantity has. The tests are added up, so that no jump hangs on them.
pub fn quantity_size(q: u64) -> usize
    ensures { result ≡ length (quantity_of q) }
{
    1 + usize::from(TWO <= q) + usize::from(THREE <= q) + usize::from(FOUR <= q)
}

// Puts a quantity at a place and answers the place behind it.
pub fn put_quantity(out: &mut [u8], at: usize, q: u64) -> usize
    requires { at + length (quantity_of q) ≤ length out.old }
    ensures { (out.new ≡ laid at (quantity_of q) out.old) × (result ≡ at + length (quantity_of q)) }
{
    if q < TWO {
        put_byte(out, at, q as u8)
    } else {
        let bytes = [
            128 + group(FOUR, q),
            128 + group(THREE, q),
            128 + group(TWO, q),
            (q % 128) as u8,
        ];
        put(out, at, &bytes[MOST - quantity_size(q)..])
    }
}

// A quantity that was read: its value, and how many bytes it has.
#[derive(Clone, Copy)]
pub struct Quantity {
    pub value: u64,
    pub used: usize,
}

// The quantity at a place, if one stands there.
pub fn quantity_at(s: &[u8], at: usize) -> Option<Quantity>
    requires { at ≤ length s.now }
    ensures value { result ≡ quantity_in (drop at s.now) }
    ensures value_lt_quantity_top { IfSome result (λ q. q.value < quantity_top) }
{
    let mut value: u64 = 0;
    for (used, byte) in s[at..].iter().take(MOST).enumerate() {
        let b = u64::from(*byte);
        if b < TWO {
            return Some(Quantity {
                value: value * 128 + b,
                used: used + 1,
            });
        }
        value = value * 128 + (b - TWO);
    }
    None
}
