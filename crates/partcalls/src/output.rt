// Call 311: the list written as a track chunk into an output of its own. Afterwards the output stands in the second list, its
// length first, each byte a number.
use chunks::write_chunk;
use script::answer::{Answer, Failure, one};
use script::args::{counted, store};

// The longest output.
pub const MOST_BYTES: usize = 81920;

// Byte i of an output is (i * 5 + 1) mod 256 before the call.
fn fill_output(out: &mut [u8]) {
    let mut next: u8 = 1;
    for byte in out.iter_mut() {
        *byte = next;
        next = next.wrapping_add(5);
    }
}

// The output's length and its bytes as numbers.
fn copy_output(out: &[u8], numbers: &mut [i64]) {
    store(numbers, 0, counted(out.len()));
    for (number, byte) in numbers.iter_mut().skip(1).zip(out) {
        *number = i64::from(*byte);
    }
}

// The call on an output of `room` bytes, which is filled before it and shown after it.
pub fn put_chunk(
    events: &[i64],
    count: usize,
    store: &[u8],
    room: usize,
    numbers: &mut [i64],
) -> Answer {
    let mut bytes: [u8; MOST_BYTES] = [0; MOST_BYTES];
    let Some(out) = bytes.get_mut(..room) else {
        return Err(Failure::Unknown);
    };
    fill_output(out);
    let r = write_chunk(events, count, store, out);
    copy_output(out, numbers);
    one(r.code, counted(r.bytes))
}
