// Numbers as text and as bytes: everything that a program of this repository prints or reads goes through here.
// decimal: a number's decimal text, put into a lent buffer at a place, which the answer moves past it.
// little: numbers of four and eight bytes, little end first.
// What is put is said by one equation on the whole buffer (`laid`): the bytes before and behind stay.
#![tactic(auto)]

mod decimal;
mod little;

pub use decimal::{put, put_byte, put_decimal, put_number, put_number_then, size_of};
pub use little::{bits_at, bits_of, number_at, signed, wide_bits_at, wide_signed, word_at};
