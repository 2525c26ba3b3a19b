// Family 6: options of a target, the types of sines, one value, curves and sines. What the Rust keeps private (606) tests
// here what a call of the port tests.
use budget::budget_ok;
use desk::lists::{HANDED, list_in};
use desk::{Buffers, Desk, MOST_NUMBERS};
use drawing::{
    OptionAnswer, clear_range, get_write_opt, set_delay, set_random, set_range, write_cc_on_time,
    write_on_time, write_pb_on_time, write_sine,
};
use eventlist::{WIDTH, append, list_ok};
use numbers::{Refusal, ask, is_number, is_time};
use script::answer::{Answer, Answers, Failure, accepted};
use script::args::{as_i32, as_u32, front};
use sines::SineType;
use values::{Offer, Write, one_value};
use writing::Outcome;

// 601: delay, random, ranged, low, high, repeat.
fn told(r: OptionAnswer) -> Answer {
    accepted(r.code)?;
    let o = r.option;
    Ok(Answers::Six([
        i64::from(o.delay),
        i64::from(o.random),
        i64::from(o.ranged),
        i64::from(o.low),
        i64::from(o.high),
        i64::from(o.repeat),
    ]))
}

// 611.
fn shape(number: i64) -> Answer {
    Ok(Answers::One(match SineType::from_i(number) {
        SineType::Sine => 0,
        SineType::UpSine => 1,
        SineType::DownSine => 2,
    }))
}

// A call that draws.
fn drawn(desk: &mut Desk, r: Outcome) -> Answer {
    desk.wrote(r.code, r.count, r.budget)
}

// 606: one value at a time on the track's channel, with its target's option. It is appended where its bytes fit and there is
// room.
fn push(target: i32, time: i64, x: i32, desk: &mut Desk, events: &mut [i64], n: usize) -> Answer {
    ask(list_ok(events, n), Refusal::NotAList)?;
    let o = get_write_opt(desk.track, target);
    accepted(o.code)?;
    ask(budget_ok(desk.budget), Refusal::OutOfRange)?;
    ask(is_time(time), Refusal::OutOfRange)?;
    ask(is_number(x), Refusal::OutOfRange)?;
    let offer = Offer {
        step: 0,
        value: i64::from(x),
    };
    let write = Write {
        target,
        channel: desk.track.channel,
        time,
        freq: 1,
        option: o.option,
    };
    let r = one_value(write, desk.budget, offer);
    if r.fits {
        ask(n < events.len() / WIDTH, Refusal::NoRoom)?;
        desk.count = append(events, n, r.event);
    }
    desk.budget = r.budget;
    Ok(Answers::One(i64::from(r.fits)))
}

// A call that writes into the list as it is lent.
fn on_list(
    op: i64,
    args: &[i64],
    desk: &mut Desk,
    events: &mut [i64; MOST_NUMBERS],
    store: &[u8],
) -> Answer {
    let [a, b, c, d, e, f] = front::<6>(args);
    let target = as_i32(a);
    let n = desk.handed();
    let track = desk.track;
    let budget = desk.budget;
    let events = &mut events[..desk.lent()];
    let mut room: [i32; HANDED] = [0; HANDED];
    let list = list_in(&mut room, args, 1);
    match op {
        606 => push(target, b, as_i32(c), desk, events, n),
        607 => drawn(
            desk,
            write_on_time(track, target, list, budget, events, n, store),
        ),
        608 => {
            let shape = as_u32(b);
            let low = as_i32(c);
            let high = as_i32(d);
            let len = as_i32(e);
            let times = as_i32(f);
            drawn(
                desk,
                write_sine(
                    track, target, shape, low, high, len, times, budget, events, n, store,
                ),
            )
        }
        609 => drawn(
            desk,
            write_cc_on_time(track, target, list, budget, events, n, store),
        ),
        _ => drawn(
            desk,
            write_pb_on_time(track, target, list, budget, events, n, store),
        ),
    }
}

pub fn carry_out(op: i64, args: &[i64], desk: &mut Desk, buffers: &mut Buffers) -> Answer {
    let [a, b, c] = front::<3>(args);
    let target = as_i32(a);
    let x = as_i32(b);
    let y = as_i32(c);
    let track = desk.track;
    match op {
        601 => told(get_write_opt(track, target)),
        602 => desk.keep(set_delay(track, target, x)),
        603 => desk.keep(set_random(track, target, x)),
        604 => desk.keep(set_range(track, target, x, y)),
        605 => desk.keep(clear_range(track, target)),
        606..=610 => {
            let Buffers {
                events,
                second: _,
                store,
            } = buffers;
            on_list(op, args, desk, events, store)
        }
        611 => shape(a),
        _ => Err(Failure::Unknown),
    }
}
