// Standard input as the programs of this repository read it: a buffer at a time, filled as far as there is input. A read that
// fails ends the input where it stands.
#![tactic(auto)]

ghost use Rattle.std.specs.Prelude.{◌≤◌, length};

use std::io::{ErrorKind, Read, Stdin};

// Fills the buffer from its front, and answers how many bytes there were: fewer than it has room for only at the input's end.
pub fn read_full(from: &mut Stdin, space: &mut [u8]) -> usize
    ensures { result ≤ length space.new }
{
    let mut done: usize = 0;
    for _ in 0..u64::MAX {
        if done == space.len() {
            return done;
        }
        match from.read(&mut space[done..]) {
            Ok(0) => return done,
            Ok(n) => done += n,
            Err(e) => {
                if e.kind() != ErrorKind::Interrupted {
                    return done;
                }
            }
        }
    }
    done
}
