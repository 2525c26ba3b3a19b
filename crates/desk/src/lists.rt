// Numbers of 32 bits: lists as a call is handed them.
use counted::LIST_LIMIT;
use script::args::{as_i32, as_usize};

// So many numbers of a list are handed in: one more than a list may have.
pub const HANDED: usize = LIST_LIMIT + 1;

// The list whose count stands at `from`, put into `room`; of one that is too long, one number too many.
pub fn list_in<'a>(room: &'a mut [i32; HANDED], args: &[i64], from: usize) -> &'a [i32] {
    let mut words = args.iter().skip(from).copied();
    let count = as_usize(words.next().unwrap_or(0)).min(HANDED);
    for number in room[..count].iter_mut() {
        *number = as_i32(words.next().unwrap_or(0));
    }
    &room[..count]
}
