// Plays many tapes in one run, for the comparison with the Rust: standard input is a stream of tapes, each its length in four
// bytes, little end first, and its bytes. Prints of each what the tape program prints, one after the other. Where the stream ends
// inside a tape, or inside a length, one line says so, and nothing of that tape is played.
#![tactic(auto)]

ghost use Rattle.std.specs.Prelude.{◌≤◌};

use lines::PAGE;
use spool::{LIST_ROOM, TAPE_ROOM, write_tape};
use std::io::{Print, Result, Stdin, Stdout};
use streams::read_full;

// A stream has at most so many tapes.
const MOST_TAPES: u64 = 100000000;

// How long the next tape of a stream is; at the stream's end, how many bytes of a length there were.
fn next_length(from: &mut Stdin) -> std::result::Result<usize, usize> {
    let mut head: [u8; 4] = [0; 4];
    match read_full(from, &mut head) {
        4 => Ok(u32::from_le_bytes(head) as usize),
        n => Err(n),
    }
}

// Reads n bytes to the front of `space`, or as many as there are; answers how many.
fn read_front(from: &mut Stdin, space: &mut [u8], n: usize) -> usize
    ensures { result ≤ n }
{
    match space.get_mut(..n) {
        Some(front) => read_full(from, front).min(n),
        None => 0,
    }
}

// Passes over some of the bytes that are left; answers how many, 0 at the stream's end.
fn skip_part(from: &mut Stdin, left: usize) -> usize
    ensures { result ≤ left }
{
    let mut space: [u8; 65536] = [0; 65536];
    let n = left.min(space.len());
    read_front(from, &mut space, n)
}

// Passes over n bytes, or as many as there are; answers how many. Each part but the last has some.
fn skip(from: &mut Stdin, n: usize) -> usize
    ensures { result ≤ n }
{
    let mut done: usize = 0;
    for _ in 0..n {
        let part = skip_part(from, n - done);
        if part == 0 {
            break;
        }
        done += part;
    }
    done
}

// Reads a tape of `long` bytes, those that show what it is to the front of `space`; answers how many there were.
fn read_tape(from: &mut Stdin, space: &mut [u8], long: usize) -> usize {
    let n = read_front(from, space, long.min(TAPE_ROOM));
    if n < TAPE_ROOM || long <= TAPE_ROOM {
        n
    } else {
        TAPE_ROOM + skip(from, long - TAPE_ROOM)
    }
}

// Says where a stream ended: after `there` bytes of `long`.
fn print_end(to: Stdout, inside: &str, there: usize, long: usize) -> Result<()> {
    println!(to; "the stream ends inside a {inside}{there} bytes of {long}")
}

// Reads and plays a tape of `long` bytes; false where the stream ends inside it.
fn play_next(
    from: &mut Stdin,
    to: Stdout,
    space: &mut [u8; TAPE_ROOM],
    page: &mut [u8],
    long: usize,
) -> Result<bool> {
    let there = read_tape(from, space, long);
    if there < long {
        print_end(to, "tape: ", there, long)?;
        return Ok(false);
    }
    let mut events = [0; LIST_ROOM];
    write_tape(to, &space[..long.min(TAPE_ROOM)], &mut events, page)?;
    Ok(true)
}

// Reads and plays the next tape; false at the stream's end.
fn turn(
    from: &mut Stdin,
    to: Stdout,
    space: &mut [u8; TAPE_ROOM],
    page: &mut [u8],
) -> Result<bool> {
    match next_length(from) {
        Ok(long) => play_next(from, to, space, page, long),
        Err(n) => {
            if 0 < n {
                print_end(to, "length: ", n, 4)?;
            }
            Ok(false)
        }
    }
}

fn play_all(
    from: &mut Stdin,
    to: Stdout,
    space: &mut [u8; TAPE_ROOM],
    page: &mut [u8],
) -> Result<()> {
    for _ in 0..MOST_TAPES {
        if !turn(from, to, space, page)? {
            break;
        }
    }
    Ok(())
}

fn main(rt: HostRuntime) -> Result<()> {
    let mut from = rt.stdin();
    let mut space = [0; TAPE_ROOM];
    let mut page = [0; PAGE];
    play_all(&mut from, rt.stdout(), &mut space, &mut page)
}
