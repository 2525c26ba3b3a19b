// Family 9: the desk itself, and how a script makes bad input. These calls test nothing. Numbers go into parameters and
// layers (played), options (options) and reservations (waiting) as they stand.
#![tactic(auto)]

mod marks;
mod options;
mod played;
mod waiting;

use budget::Budget;
use desk::{Buffers, Desk, MOST_RECORDS};
use options::put_option;
use played::{put_layer, put_param};
use script::answer::{Answer, Answers, Failure};
use script::args::{arg, as_i32, as_u32, as_usize, store};
use state::Track;
use waiting::{put_cycle, put_note, put_sine, put_wave};

// 903.
fn budget_of(args: &[i64]) -> Budget {
    Budget {
        seed: as_u32(arg(args, 0)),
        maximum: as_u32(arg(args, 1)),
        used: as_u32(arg(args, 2)),
        over: as_u32(arg(args, 3)),
    }
}

// 906: number `field` of the record at `place`.
fn put_number(events: &mut [i64], place: usize, field: usize, value: i64) {
    if place < MOST_RECORDS && field < 8 {
        store(events, place * 8 + field, value);
    }
}

// 904: the eight numbers of a record behind the last; nothing where the list is full.
fn append(args: &[i64], desk: &mut Desk, events: &mut [i64]) {
    if desk.count < desk.room {
        for field in 0..8 {
            put_number(events, desk.count, field, arg(args, field));
        }
        desk.count += 1;
    }
}

// 907.
fn put_own(track: &mut Track, k: usize, value: i64) {
    let x = as_i32(value);
    match k {
        0 => track.timebase = x,
        1 => track.timepos = value,
        2 => track.channel = x,
        3 => track.ccfreq = x,
        4 => track.pbfreq = x,
        5 => track.velocity = x,
        6 => track.timing = x,
        7 => track.octave = x,
        8 => track.qlen = x,
        9 => track.step = as_u32(value),
        _ => (),
    }
}

pub fn carry_out(op: i64, args: &[i64], desk: &mut Desk, buffers: &mut Buffers) -> Answer {
    let a = arg(args, 0);
    let b = arg(args, 1);
    let c = arg(args, 2);
    let place = as_usize(a);
    let k = as_usize(b);
    match op {
        901 | 915 => (),
        902 => *desk = Desk::new(as_i32(a), as_i32(b), as_usize(c)),
        903 => desk.budget = budget_of(args),
        904 => append(args, desk, &mut buffers.events),
        905 => {
            desk.extra = place;
            desk.odd = k;
        }
        906 => put_number(&mut buffers.events, place, k, c),
        907 => put_own(&mut desk.track, place, b),
        908 => {
            if let Some(param) = desk.param_mut(place) {
                put_param(param, k, c);
            }
        }
        909 => put_layer(&mut desk.track.layers.items, place, k, c),
        910 => put_option(&mut desk.track.options, place, k, c),
        911 => put_note(&mut desk.track.notes.items, place, k, c),
        912 => put_wave(&mut desk.track.waves.items, place, k, c),
        913 => put_sine(&mut desk.track.sines.items, place, k, c),
        914 => put_cycle(&mut desk.cycles, place, k, c),
        _ => return Err(Failure::Unknown),
    }
    Ok(Answers::None)
}
