// Family 7: what is set ahead for a target (701 to 706, 710 to 716), and what writes it (707 to 709). What a call hands
// back stands on the desk afterwards, refused or not; a refused call leaves as many records as there were.
use cycling::{Cycled, write_cc_on_cycle};
use desk::lists::{HANDED, list_in};
use desk::{Buffers, Desk, MOST_NUMBERS};
use drawing::set_repeat;
use noting::{Noted, write_cc_on_note};
use reserving::{
    Kept, remove_cc_on, remove_cc_on_note, remove_cc_on_note_wave, remove_pb_on_note_wave,
    remove_reserve, set_cc_on_note, set_cc_on_note_wave, set_on_cycle, set_on_note,
    set_on_note_sine, set_on_note_wave, set_pb_on_note_wave,
};
use script::answer::{Answer, Failure, done};
use script::args::{as_i32, as_u32, as_usize, front};
use tables::OnNoteSine;
use waving::write_cc_on_note_wave;
use writing::Outcome;

// A call on the track and the cycle table.
fn kept(desk: &mut Desk, r: Kept) -> Answer {
    // by way of a variable: the borrow checker takes no array straight from field to field
    let cycles = r.cycles;
    desk.cycles = cycles;
    desk.track = r.track;
    done(r.code)
}

// 705: target, type, low, high, length, times.
fn sine_of(args: &[i64]) -> OnNoteSine {
    let [target, shape, low, high, length, times] = front::<6>(args);
    OnNoteSine {
        target: as_i32(target),
        shape: as_u32(shape),
        low: as_i32(low),
        high: as_i32(high),
        length: as_i32(length),
        times: as_i32(times),
    }
}

// 707.
fn noted(desk: &mut Desk, r: Noted) -> Answer {
    desk.track = r.track;
    desk.wrote(r.code, r.count, r.budget)
}

// 708.
fn waved(desk: &mut Desk, r: Outcome) -> Answer {
    desk.wrote(r.code, r.count, r.budget)
}

// 709.
fn cycled(desk: &mut Desk, r: Cycled) -> Answer {
    // by way of a variable, as above
    let cycles = r.cycles;
    desk.cycles = cycles;
    desk.wrote(r.code, r.count, r.budget)
}

// A call that writes into the list as it is lent.
fn on_list(
    op: i64,
    args: &[i64],
    desk: &mut Desk,
    events: &mut [i64; MOST_NUMBERS],
    store: &[u8],
) -> Answer {
    let [time, size] = front::<2>(args);
    let n = desk.handed();
    let track = desk.track;
    let cycles = desk.cycles;
    let budget = desk.budget;
    let events = &mut events[..desk.lent()];
    match op {
        707 => noted(desk, write_cc_on_note(track, time, budget, events, n)),
        708 => waved(
            desk,
            write_cc_on_note_wave(track, time, budget, events, n, store),
        ),
        _ => cycled(
            desk,
            write_cc_on_cycle(track, as_usize(size), cycles, time, budget, events, n),
        ),
    }
}

// Where the length of the cycle table stands: at `a`, `b`, `c` or `g` of the arguments.
pub fn carry_out(op: i64, args: &[i64], desk: &mut Desk, buffers: &mut Buffers) -> Answer {
    let [a, b, c, _, _, _, g] = front::<7>(args);
    let target = as_i32(a);
    let size = as_usize(b);
    let track = desk.track;
    let cycles = desk.cycles;
    let mut room: [i32; HANDED] = [0; HANDED];
    match op {
        701 => kept(desk, remove_reserve(track, size, cycles, target)),
        702 => desk.keep(set_repeat(track, target, as_u32(b))),
        703 => {
            let list = list_in(&mut room, args, 2);
            kept(desk, set_on_note(track, size, cycles, target, list))
        }
        704 => {
            let list = list_in(&mut room, args, 3);
            let wave = as_u32(b);
            kept(
                desk,
                set_on_note_wave(track, as_usize(c), cycles, target, wave, list),
            )
        }
        705 => kept(
            desk,
            set_on_note_sine(track, as_usize(g), cycles, target, sine_of(args)),
        ),
        706 => {
            let list = list_in(&mut room, args, 3);
            let length = as_i32(b);
            kept(
                desk,
                set_on_cycle(track, as_usize(c), cycles, target, length, list),
            )
        }
        707..=709 => {
            let Buffers {
                events,
                second: _,
                store,
            } = buffers;
            on_list(op, args, desk, events, store)
        }
        710 => kept(desk, remove_cc_on(track, size, cycles, target)),
        711 => desk.keep(remove_cc_on_note_wave(track, target)),
        712 => {
            let list = list_in(&mut room, args, 2);
            kept(desk, set_cc_on_note_wave(track, size, cycles, target, list))
        }
        713 => desk.keep(remove_cc_on_note(track, target)),
        714 => {
            let list = list_in(&mut room, args, 2);
            kept(desk, set_cc_on_note(track, size, cycles, target, list))
        }
        715 => {
            let list = list_in(&mut room, args, 2);
            kept(desk, set_pb_on_note_wave(track, size, cycles, target, list))
        }
        716 => kept(desk, remove_pb_on_note_wave(track, as_usize(a), cycles)),
        _ => Err(Failure::Unknown),
    }
}
