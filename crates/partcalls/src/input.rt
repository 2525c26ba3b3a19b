// Call 312: a track chunk read into the list. Its bytes stand in the arguments, their count first.
use eventlist::Taken;
use reader::read_chunk;
use script::args::{arg, as_usize};

// The most bytes of a chunk: a call has no more arguments.
const MOST_BYTES: usize = 4096;

// The call on an input, which is filled before it; of a chunk that is too long, it has as many bytes as there is a place for.
pub fn take_chunk(args: &[i64], events: &mut [i64], count: usize) -> Taken {
    let mut input: [u8; MOST_BYTES] = [0; MOST_BYTES];
    let n = as_usize(arg(args, 0)).min(MOST_BYTES);
    for (byte, x) in input[..n].iter_mut().zip(args.iter().skip(1)) {
        *byte = (as_usize(*x) % 256) as u8;
    }
    read_chunk(&input[..n], events, count)
}
