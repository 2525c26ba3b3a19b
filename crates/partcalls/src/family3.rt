// Family 3: the list, lent as the desk says. What the Rust has no call for (301 to 303) tests here what a call of the
// port tests. Call 305 is not here.
use crate::input::take_chunk;
use crate::output::{MOST_BYTES, put_chunk};
use crate::record::{event_of, numbers_of};
use cutting::{full_cut, play_from};
use desk::{Buffers, Desk, MOST_NUMBERS};
use eventlist::{
    Taken, WIDTH, Window, append, clear_windows, list_ok, read_event, records_ok,
    remove_pitch_bend_in_range, survey,
};
use events::{CONTROL_CHANGE, Event, PITCH_BEND, event_ok};
use notes::{normalize, split_note_off};
use numbers::{Refusal, ask, is_target, is_time};
use profile::{check_profile, fit_profile};
use script::answer::{Answer, Answers, Failure, accepted, done, one};
use script::args::{as_i32, as_usize, counted, front};
use sorting::events_sort;

// 301: how many records there are afterwards.
fn added(count: usize, e: Event, events: &mut [i64], store: &[u8]) -> Result<usize, Failure> {
    ask(list_ok(events, count), Refusal::NotAList)?;
    ask(event_ok(e, store.len()), Refusal::OutOfRange)?;
    ask(count < events.len() / WIDTH, Refusal::NoRoom)?;
    Ok(append(events, count, e))
}

// An event as call 302 answers it: of an empty stretch the offset says nothing, and is 0.
fn shown(e: Event) -> Answers {
    numbers_of(if e.len == 0 {
        Event { offset: 0, ..e }
    } else {
        e
    })
}

// 302.
fn read(count: usize, place: usize, events: &[i64], store: &[u8]) -> Answer {
    ask(list_ok(events, count), Refusal::NotAList)?;
    ask(records_ok(events, count, store.len()), Refusal::OutOfRange)?;
    ask(place < count, Refusal::OutOfRange)?;
    Ok(shown(read_event(events, place)))
}

// The window of a target, its end left out.
fn window(target: i64, start: i64, end: i64) -> Window {
    let kind = if target < 128 {
        CONTROL_CHANGE
    } else {
        PITCH_BEND
    };
    Window {
        kind,
        number: target,
        start,
        end,
    }
}

// 303: how many records are left.
fn removed(count: usize, w: Window, events: &mut [i64], store: &[u8]) -> Result<usize, Failure> {
    ask(list_ok(events, count), Refusal::NotAList)?;
    ask(is_target(as_i32(w.number)), Refusal::NoTarget)?;
    ask(is_time(w.start) && is_time(w.end), Refusal::OutOfRange)?;
    let seen = survey(events, count, store.len(), &[w])?;
    let cleared = clear_windows(events, count, &[w], seen);
    Ok(cleared.left)
}

// How many records a call of the port leaves, where it is not refused.
fn count_of(t: Taken) -> Result<usize, Failure> {
    accepted(t.code)?;
    Ok(t.count)
}

// A call that leaves so many records.
fn left(desk: &mut Desk, n: Result<usize, Failure>) -> Answer {
    desk.count = n?;
    Ok(Answers::None)
}

// 306: so many records stand in the second list.
fn split(desk: &mut Desk, t: Taken) -> Answer {
    desk.split = count_of(t)?;
    Ok(Answers::None)
}

// 312 and 314: the list has other events, and the call answers how many.
fn replaced(desk: &mut Desk, t: Taken) -> Answer {
    desk.count = count_of(t)?;
    Ok(Answers::One(counted(desk.count)))
}

// A call on the list as it is lent. After 306 and 311 the second list shows what the call answers beside the list; each other call
// empties it.
fn on_lists(
    op: i64,
    args: &[i64],
    desk: &mut Desk,
    events: &mut [i64; MOST_NUMBERS],
    second: &mut [i64; MOST_NUMBERS],
    store: &[u8],
) -> Answer {
    let [a, b, c] = front::<3>(args);
    let n = desk.handed();
    let events = &mut events[..desk.lent()];
    desk.split = 0;
    match op {
        301 => left(desk, added(n, event_of(args), events, store)),
        302 => read(n, as_usize(a), events, store),
        303 => left(desk, removed(n, window(a, b, c), events, store)),
        304 => left(
            desk,
            count_of(remove_pitch_bend_in_range(events, n, a, b, store)),
        ),
        306 => {
            let second = &mut second[..desk.lent_second()];
            split(desk, split_note_off(events, n, second, store))
        }
        307 => left(desk, count_of(normalize(events, n, store))),
        308 => done(events_sort(events, n, store)),
        309 => left(desk, count_of(play_from(events, n, a, store))),
        310 => left(desk, count_of(full_cut(events, n, a, store))),
        311 => {
            let room = as_usize(a);
            if MOST_BYTES < room {
                return Err(Failure::Unknown);
            }
            desk.split = room + 1;
            put_chunk(events, n, store, room, second)
        }
        312 => replaced(desk, take_chunk(args, events, n)),
        313 => {
            let p = check_profile(events, n, store);
            one(p.code, i64::from(p.yes))
        }
        314 => replaced(desk, fit_profile(events, n, store)),
        _ => Err(Failure::Unknown),
    }
}

pub fn carry_out(op: i64, args: &[i64], desk: &mut Desk, buffers: &mut Buffers) -> Answer {
    // taken apart and handed on: the borrow checker does not cover two fields lent behind one reference
    let Buffers {
        events,
        second,
        store,
    } = buffers;
    on_lists(op, args, desk, events, second, store)
}
