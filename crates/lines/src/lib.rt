// What the tape program prints, as one text in a lent buffer: the line of the refusal, or the first line and a line for each
// event. A text goes in at a place, and the answer is the place behind it; the bytes around it stay (`Puts`).
#![tactic(auto)]

ghost use Rattle.std.specs.Prelude.{◌≡◌, ◌++◌, ◌+◌, ◌*◌, ◌≤◌, length};
ghost use Rattle.laws.specs.Rows.{flat};
ghost use Rattle.text.specs.Decimals.{decimal};
ghost use Rattle.eventlist.specs.Rows.{rows_of, events_of};
ghost use Rattle.lines.specs.Puts.{Puts};
ghost use Rattle.lines.specs.Lines.{pair_text, first_text, refusal_text, three_text, line_text, done_text, end_text, first_long, line_long, page_long};

use budget::Budget;
use eventlist::{WIDTH, read_event};
use events::Event;
use text::{put, put_byte, put_decimal, put_number_then};

// How long a buffer must be for any text.
pub const PAGE: usize = 67697;

// How many events a tape's list holds.
pub const EVENT_ROOM: usize = 512;

// How a tape ended: 0 or the number that refused record `index`, how many events there are, and the budget.
#[derive(Clone, Copy)]
pub struct Ending {
    pub code: u32,
    pub index: usize,
    pub count: usize,
    pub budget: Budget,
}

// A word and a number.
fn put_word(out: &mut [u8], at: usize, word: &[u8], n: u64) -> usize
    requires { (length word.now ≤ 8) × (at + 28 ≤ length out.old) }
    ensures puts { Puts at (word.now ++ decimal n) out.old out.new result }
    ensures upper_bound { result ≤ at + 28 }
{
    let p = put(out, at, word);
    put_decimal(out, p, n)
}

// A word and a number, twice.
fn put_pair(out: &mut [u8], at: usize, v: &[u8], m: u64, w: &[u8], n: u64) -> usize
    requires { (length v.now ≤ 8) × (length w.now ≤ 8) × (at + 56 ≤ length out.old) }
    ensures puts { Puts at (pair_text v.now m w.now n) out.old out.new result }
    ensures upper_bound { result ≤ at + 56 }
{
    let p = put_word(out, at, v, m);
    put_word(out, p, w, n)
}

// The first line.
fn put_first(out: &mut [u8], count: usize, budget: Budget) -> usize
    requires { first_long ≤ length out.old }
    ensures puts { Puts 0 (first_text count budget) out.old out.new result }
    ensures upper_bound { result ≤ first_long }
{
    let p = put_pair(
        out,
        0,
        b"events ",
        count as u64,
        b" bytes ",
        budget.used as u64,
    );
    let q = put_pair(
        out,
        p,
        b" over ",
        budget.over as u64,
        b" seed ",
        budget.seed as u64,
    );
    put_byte(out, q, b'\n')
}

// The line of a refusal.
fn put_refusal(out: &mut [u8], code: u32, index: usize) -> usize
    requires { first_long ≤ length out.old }
    ensures { Puts 0 (refusal_text code index) out.old out.new result }
{
    let p = put_pair(out, 0, b"refused ", code as u64, b" at ", index as u64);
    put_byte(out, p, b'\n')
}

// Three numbers, each with a space behind it, the last with `behind`.
fn put_three(out: &mut [u8], at: usize, x: i64, y: i64, z: i64, behind: u8) -> usize
    requires { at + 66 ≤ length out.old }
    ensures puts { Puts at (three_text x y z behind) out.old out.new result }
    ensures upper_bound { result ≤ at + 66 }
{
    let p = put_number_then(out, at, x, b' ');
    let q = put_number_then(out, p, y, b' ');
    put_number_then(out, q, z, behind)
}

// An event's line.
fn put_line(out: &mut [u8], at: usize, e: Event) -> usize
    requires { at + line_long ≤ length out.old }
    ensures puts { Puts at (line_text e) out.old out.new result }
    ensures upper_bound { result ≤ at + line_long }
{
    let p = put_three(out, at, e.time, e.kind, e.channel, b' ');
    put_three(out, p, e.v1, e.v2, e.v3, b'\n')
}

// The lines of the first `count` events.
fn put_lines(out: &mut [u8], at: usize, events: &[i64], count: usize) -> usize
    requires { (count ≤ length (rows_of events.now)) × (at + line_long * count ≤ length out.old) }
    ensures { Puts at (flat line_text (events_of events.now count)) out.old out.new result }
{
    let mut p = at;
    for i in 0..count {
        p = put_line(out, p, read_event(events, i));
    }
    p
}

// The first line and the events'.
fn put_done(out: &mut [u8], events: &[i64], count: usize, budget: Budget) -> usize
    requires { (count ≤ length (rows_of events.now)) × (first_long + line_long * count ≤ length out.old) }
    ensures { Puts 0 (done_text count budget (events_of events.now count)) out.old out.new result }
{
    let p = put_first(out, count, budget);
    put_lines(out, p, events, count)
}

// What is printed of a tape that ended so, at the front of `out`; answers how many bytes it is. Nothing is put where `out` is
// shorter than PAGE, or there are fewer events than are counted, or more than a tape's list holds.
pub fn put_end(out: &mut [u8], end: Ending, events: &[i64]) -> usize
    ensures { Puts 0 (end_text end events.now out.old) out.old out.new result }
{
    let room = PAGE <= out.len();
    let few = end.count <= EVENT_ROOM;
    let there = end.count <= events.len() / WIDTH;
    if !(room & (few & there)) {
        0
    } else if end.code != 0 {
        put_refusal(out, end.code, end.index)
    } else {
        put_done(out, events, end.count, end.budget)
    }
}
