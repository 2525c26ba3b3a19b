// Reading a tape: what stands at a place of its bytes. A record is a two-byte mark, as many numbers of four bytes as the
// mark has, and for two of the marks a list (marks, numbers). `record_at` reads it whole, or says why it cannot (records):
// 8 where the tape is at fault, 2 for a target and 3 for a count that no call takes. It asks nothing of the bytes.
#![tactic(auto)]

mod marks;
mod numerals;
mod records;

pub use marks::Mark;
pub use records::{Record, record_at};
