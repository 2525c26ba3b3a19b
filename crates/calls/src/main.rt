// The port's side of the comparison with the Rust: reads a script of calls from standard input, carries each out on
// its desk, and prints what the call answered and left, as docs/COMPARING.md says. The families of
// calls stand in crates below it; a call that is not there prints `op -1`.
#![tactic(auto)]

use desk::{Buffers, Desk};
use partcalls::{family1, family2, family3, family4};
use script::answer::{Answer, Failure, one, put_answer};
use script::args::{arg, as_i32};
use script::page::Page;
use script::reader::{MOST_WORDS, Reader, family_of};
use showing::show;
use std::io::Result;
use targetcalls::family7;
use track::current_cc_value;
use trackcalls::{family5, family6, family8};

// A script has at most so many calls.
const MOST_CALLS: u64 = 100000000;

// 305: the value of a controller, on the list as it is lent.
fn value(args: &[i64], desk: &Desk, buffers: &Buffers) -> Answer {
    let number = as_i32(arg(args, 0));
    let events = &buffers.events[..desk.lent()];
    let v = current_cc_value(desk.track, number, events, desk.handed(), &buffers.store);
    one(v.code, v.value)
}

// Carries out one call.
fn call(op: i64, args: &[i64], desk: &mut Desk, buffers: &mut Buffers) -> Answer {
    match family_of(op) {
        1 => family1::carry_out(op, args, &buffers.store),
        2 => family2::carry_out(op, args, &mut desk.budget),
        3 if op == 305 => value(args, desk, buffers),
        3 => family3::carry_out(op, args, desk, buffers),
        4 => family4::carry_out(op, args, desk),
        5 => family5::carry_out(op, args, desk),
        6 => family6::carry_out(op, args, desk, buffers),
        7 => family7::carry_out(op, args, desk, buffers),
        8 => family8::carry_out(op, args, desk),
        9 => spoiling::carry_out(op, args, desk, buffers),
        _ => Err(Failure::Unknown),
    }
}

// Carries out one call, and prints what it answered and left.
fn play(op: i64, args: &[i64], desk: &mut Desk, buffers: &mut Buffers, page: &mut Page) {
    let answer = call(op, args, desk, buffers);
    put_answer(page, op, answer);
    if !matches!(answer, Err(Failure::Unknown)) {
        show(op, page, desk, buffers);
    }
    page.end_line();
}

// A script begins with a new desk. Call 901 sets the page's mode.
fn main(rt: HostRuntime) -> Result<()> {
    let mut reader = Reader::new(rt.stdin());
    let mut page = Page::new(rt.stdout());
    let mut words: [i64; MOST_WORDS] = [0; MOST_WORDS];
    let mut desk = Desk::new(96, 0, 64);
    let mut buffers = Buffers::new();
    for _ in 0..MOST_CALLS {
        let Some(head) = reader.call(&mut words) else {
            break;
        };
        if head.op == 901 {
            page.set_full(words[0] != 0);
        }
        let args = &words[..head.count];
        play(head.op, args, &mut desk, &mut buffers, &mut page);
    }
    page.flush()
}
