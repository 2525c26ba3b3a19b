// What a controller reads at a time, and the two cuts, which drop what was before a time and fold the controllers and
// the program that stood there into events at the start: `play_from`, as the Rust has it, and `full_cut`, which keeps
// the bend too and puts what it folds first. Both work in place, in passes over the list from front to back. In `play_from`
// the last event in list order counts; in `full_cut` the latest, whatever the list's order.
#![tactic(auto)]

ghost use Rattle.std.specs.Prelude.{◌≡◌, true, cond, not, ◌||◌, ◌++◌, ◌+◌, ◌≤◌, length};
ghost use Rattle.std.specs.Int.Signed.{le_z};
ghost use Rattle.laws.specs.Lists.{all, put_first};
ghost use Rattle.numbers.specs.Ranges.{is_time, is_event_time};
ghost use Rattle.events.specs.Events.{zero_event, ok_numbered};
ghost use Rattle.events.specs.Kinds.{control_change};
ghost use Rattle.eventlist.specs.Rows.{rows_of, events_of};
ghost use Rattle.cutting.specs.Value.{default_of, speaks, cc_value, cc_answer};
ghost use Rattle.sorting.specs.Stable.{stable_sort};
ghost use Rattle.sorting.specs.Sorting.{earlier};
ghost use Rattle.cutting.specs.Cuts.{unset, with_time, folds, control_at, in_order, folded, keeps, shifted, kept_of, fits_cut, cut_taken, cut_left, plain, whole};
ghost use Rattle.cutting.specs.Passes.{sound, Holds, lasts_of, noted, stored, valued, parts_of, controls_in, program_in, bend_in, with_more, turned};
ghost use Rattle.cutting.specs.ByTime.{replacing, stood, none_stands, last_in, earliest, dated};

use eventlist::{Taken, WIDTH, append, clear_from, list_ok, read_event, records_ok, write_event};
use events::{CONTROL_CHANGE, Event, Kind, cc_event, event_ok, voice_event, zero_event};
use numbers::{is_channel, is_controller, is_event_time, is_time};
use sorting::rotate_events;

// What a controller reads before any event.
pub fn default_cc_value(number: i64) -> i64
    ensures { result ≡ default_of number }
{
    match number {
        7 => 100,
        10 => 64,
        11 => 127,
        _ => 0,
    }
}

// Of which controller, on which channel and up to which time a value is asked.
#[derive(Clone, Copy)]
pub struct Asked {
    pub channel: i64,
    pub time: i64,
    pub number: i64,
}

// Whether the event has a say in the value that is asked.
fn is_asked(e: Event, a: Asked) -> bool
    ensures { result ≡ speaks a e }
{
    (e.kind == CONTROL_CHANGE) & (e.channel == a.channel) & (e.v1 == a.number) & (e.time <= a.time)
}

// The value that is asked: the list is searched from its end.
fn value_in(events: &[i64], count: usize, a: Asked) -> i64
    requires { count ≤ length (rows_of events.now) }
    ensures { result ≡ cc_value a (events_of events.now count) }
{
    for i in (0..count).rev() {
        let e = read_event(events, i);
        if is_asked(e, a) {
            return e.v2;
        }
    }
    default_cc_value(a.number)
}

// What `current_cc_value` answers: its number, and the value.
#[repr(C)]
#[derive(Clone, Copy)]
pub struct CcValue {
    pub code: u32, // a number beside what it goes with: C reads this record
    pub value: i64,
}

// The value of controller `number` on the channel at the time: that of the last such event in list order at or before
// it, or the controller's default. Refuses 1, 2, 4.
pub fn current_cc_value(
    channel: i64,
    timepos: i64,
    number: i64,
    events: &[i64],
    count: usize,
    store: &[u8],
) -> CcValue
    ensures { result ≡ cc_answer (length store.now) events.now count (record { channel = channel; time = timepos; number = number }) }
{
    if !list_ok(events, count) {
        return CcValue { code: 1, value: 0 };
    }
    if !is_controller(number) {
        return CcValue { code: 2, value: 0 };
    }
    if !(is_time(timepos) & is_channel(channel) & records_ok(events, count, store.len())) {
        return CcValue { code: 4, value: 0 };
    }
    let a = Asked {
        channel,
        time: timepos,
        number,
    };
    CcValue {
        code: 0,
        value: value_in(events, count, a),
    }
}

// The controllers whose values a cut remembers.
const CONTROLLERS: usize = 128;

// A cut: its time, and whether it is the full one.
#[derive(Clone, Copy)]
pub struct Cut {
    pub at: i64,
    pub full: bool,
}

// Whether the cut keeps the event.
#[tactic(auto, unfolding(crate::specs::Cuts::keeps, events::specs::Kinds::is_kind, laws::specs::Integers::inside))]
fn is_kept(e: Event, c: Cut) -> bool
    ensures { result ≡ keeps c e }
{
    match Kind::try_from(e.kind) {
        Ok(Kind::Meta | Kind::SysEx) => true,
        Ok(Kind::NoteOn | Kind::ControlChange | Kind::Voice) => c.at <= e.time,
        Ok(Kind::PitchBend) => c.full & (c.at <= e.time),
        _ => false,
    }
}

// The event at another time.
fn at_time(e: Event, time: i64) -> Event
    ensures { result ≡ with_time time e }
{
    Event { time, ..e }
}

// A kept event, its time counted from the cut.
fn shift(e: Event, c: Cut) -> Event
    requires { (is_time c.at ≡ true) × (is_event_time e.time ≡ true) }
    ensures { result ≡ shifted c e }
{
    if e.time < c.at {
        return at_time(e, 0);
    }
    at_time(e, e.time - c.at)
}

// Whether an event may be stored beside a store of `store` bytes, and be kept if it is. A time that is too far is rare:
// only then is the kind asked.
fn fits(e: Event, c: Cut, store: usize) -> bool
    requires { is_time c.at ≡ true }
    ensures { result ≡ fits_cut store c e }
{
    if !event_ok(e, store) {
        return false;
    }
    let s = shift(e, c);
    if !is_event_time(s.time) {
        return !is_kept(e, c);
    }
    true
}

// Whether each of the `count` events fits.
fn all_fit(events: &[i64], count: usize, c: Cut, store: usize) -> bool
    requires { (count ≤ length (rows_of events.now)) × (is_time c.at ≡ true) }
    ensures { result ≡ all (fits_cut store c) (events_of events.now count) }
{
    for i in 0..count {
        if !fits(read_event(events, i), c, store) {
            return false;
        }
    }
    true
}

// What is remembered of the events before a cut, in the order in which they count, beside the values of the controllers.
#[derive(Clone, Copy)]
pub struct Last {
    pub program: i64,
    pub channel: i64,
    pub bent: bool,
    pub bend: Event,
}

// What is remembered after one more event.
fn note(last: Last, e: Event, c: Cut) -> Last
    ensures { result ≡ noted c.at last e }
{
    if c.at <= e.time {
        return last;
    }
    match Kind::try_from(e.kind) {
        Ok(Kind::Voice) => Last {
            program: e.v1,
            channel: e.channel,
            ..last
        },
        Ok(Kind::ControlChange) => Last {
            channel: e.channel,
            ..last
        },
        Ok(Kind::PitchBend) => Last {
            bent: true,
            bend: e,
            ..last
        },
        _ => last,
    }
}

// Stores the value of a controller's event before the cut.
fn note_value(values: &mut [i64; 128], e: Event, c: Cut)
    requires { ok_numbered e ≡ true }
    ensures { values.new ≡ valued c.at values.old e }
{
    if is_control(e, c) {
        values[e.v1 as usize] = e.v2;
    }
}

// Remembers what stands before the cut, the last in list order: each controller's value in the table, which is all unset,
// the rest in the answer.
fn remember(events: &[i64], count: usize, c: Cut, values: &mut [i64; 128]) -> Last
    requires { (count ≤ length (rows_of events.now)) × ((all sound (events_of events.now count) ≡ true) × (Holds (λ n. unset) values.old)) }
    ensures { (result ≡ lasts_of c.at (events_of events.now count)) × (Holds (control_at c.at (events_of events.now count)) values.new) }
{
    let mut last = Last {
        program: -1,
        channel: 0,
        bent: false,
        bend: zero_event(),
    };
    for i in 0..count {
        let e = read_event(events, i);
        last = note(last, e, c);
        note_value(values, e, c);
    }
    last
}

// The latest so far of some events. An Option would say less: where none was found, `event` says what there is then, the program
// -1 or the channel 0.
#[derive(Clone, Copy)]
pub struct Latest {
    pub found: bool,
    pub event: Event,
}

// The latest after one more of those events, where `since` is the time of the latest so far: of equal times the later in
// the list counts.
fn later(l: Latest, e: Event, since: i64) -> Latest
    ensures { result ≡ replacing l e (not l.found || le_z since e.time) }
{
    if !l.found | (since <= e.time) {
        return Latest {
            found: true,
            event: e,
        };
    }
    l
}

// The latest events before a full cut: the program, the program or controller that gives the channel, and the bend.
#[derive(Clone, Copy)]
pub struct Standing {
    pub program: Latest,
    pub channel: Latest,
    pub bend: Latest,
}

// Before any event: the program is unset, the channel 0, and there is no bend.
fn none_stands() -> Standing
    ensures { result ≡ none_stands }
{
    let none = Latest {
        found: false,
        event: zero_event(),
    };
    Standing {
        program: Latest {
            found: false,
            event: voice_event(0, 0, -1),
        },
        channel: none,
        bend: none,
    }
}

// What stands after one more event.
fn stand(s: Standing, e: Event, c: Cut) -> Standing
    ensures { result ≡ stood c.at s e }
{
    if c.at <= e.time {
        return s;
    }
    let told = s.channel.event.time;
    match Kind::try_from(e.kind) {
        Ok(Kind::Voice) => Standing {
            program: later(s.program, e, s.program.event.time),
            channel: later(s.channel, e, told),
            ..s
        },
        Ok(Kind::ControlChange) => Standing {
            channel: later(s.channel, e, told),
            ..s
        },
        Ok(Kind::PitchBend) => Standing {
            bend: later(s.bend, e, s.bend.event.time),
            ..s
        },
        _ => s,
    }
}

// What stands, as it is remembered.
fn last_of(s: Standing) -> Last
    ensures { result ≡ last_in s }
{
    Last {
        program: s.program.event.v1,
        channel: s.channel.event.channel,
        bent: s.bend.found,
        bend: s.bend.event,
    }
}

// Whether the event is a controller's before the cut.
#[tactic(auto, unfolding(crate::specs::Cuts::folds, events::specs::Kinds::is_kind, laws::specs::Integers::inside))]
fn is_control(e: Event, c: Cut) -> bool
    ensures { result ≡ folds control_change c.at e }
{
    match Kind::try_from(e.kind) {
        Ok(Kind::ControlChange) => e.time < c.at,
        _ => false,
    }
}

// No event that may be stored is before it.
const EARLIEST: i64 = -4398046511104;

// Stores the value of a controller's event before the cut, and its time, unless the time that is stored is later.
fn note_latest(values: &mut [i64; 128], times: &mut [i64; 128], e: Event, c: Cut)
    requires { ok_numbered e ≡ true }
    ensures { (values.new ≡ stored (dated c.at times.old e) e.v1 e.v2 values.old)
        × (times.new ≡ stored (dated c.at times.old e) e.v1 e.time times.old) }
{
    if is_control(e, c) {
        let k = e.v1 as usize;
        if times[k] <= e.time {
            times[k] = e.time;
            values[k] = e.v2;
        }
    }
}

// Remembers what stands before the cut, the latest: each controller's value in the table, which is all unset, the rest in
// the answer. Of the times that count the other table, at first EARLIEST everywhere, keeps account: it stands apart, since the
// values alone go on to what is put in, and the other cut remembers no times.
fn remember_latest(
    events: &[i64],
    count: usize,
    c: Cut,
    values: &mut [i64; 128],
    times: &mut [i64; 128],
) -> Last
    requires { (count ≤ length (rows_of events.now)) × ((all sound (events_of events.now count) ≡ true)
        × ((Holds (λ n. unset) values.old) × (Holds (λ n. earliest) times.old))) }
    ensures { (result ≡ lasts_of c.at (stable_sort earlier (events_of events.now count)))
        × (Holds (control_at c.at (stable_sort earlier (events_of events.now count))) values.new) }
{
    let mut s = none_stands();
    for i in 0..count {
        let e = read_event(events, i);
        s = stand(s, e, c);
        note_latest(values, times, e, c);
    }
    last_of(s)
}

// Remembers what stands before the cut, in the order that counts in it.
fn remember_in_order(events: &[i64], count: usize, c: Cut, values: &mut [i64; 128]) -> Last
    requires { (count ≤ length (rows_of events.now)) × ((all sound (events_of events.now count) ≡ true) × (Holds (λ n. unset) values.old)) }
    ensures { (result ≡ lasts_of c.at (in_order c (events_of events.now count)))
        × (Holds (control_at c.at (in_order c (events_of events.now count))) values.new) }
{
    if c.full {
        let mut times: [i64; 128] = [EARLIEST; 128];
        return remember_latest(events, count, c, values, &mut times);
    }
    remember(events, count, c, values)
}

// Takes out what the cut does not keep and shifts the rest, each record moved at most once; answers how many are left.
// The places that fall vacant are zeroed.
fn keep(events: &mut [i64], count: usize, c: Cut) -> usize
    requires { (count ≤ length (rows_of events.old)) × ((is_time c.at ≡ true) × (all sound (events_of events.old count) ≡ true)) }
    ensures { (result ≡ length (kept_of c (events_of events.old count)))
        × (rows_of events.new ≡ put_first zero_event count (kept_of c (events_of events.old count)) (rows_of events.old)) }
{
    let mut n: usize = 0;
    for i in 0..count {
        let e = read_event(events, i);
        if is_kept(e, c) {
            write_event(events, n, shift(e, c));
            n += 1;
        }
    }
    clear_from(events, n, count);
    n
}

// Puts the controllers that are set after the `count` events, rising, and answers the new count.
fn put_controls(events: &mut [i64], count: usize, values: &[i64; 128], last: Last) -> usize
    requires { count + length (controls_in values.now last) ≤ length (rows_of events.old) }
    ensures { (result ≡ count + length (controls_in values.now last))
        × (rows_of events.new ≡ with_more events.old count (controls_in values.now last)) }
{
    let mut n = count;
    let mut k: usize = 0;
    while k < CONTROLLERS {
        let v = values[k];
        if v < 0 {
            k += 1;
        } else {
            n = append(events, n, cc_event(0, last.channel, k as i64, v));
            k += 1;
        }
    }
    n
}

// The same for the program.
fn put_program(events: &mut [i64], count: usize, last: Last) -> usize
    requires { count + length (program_in last) ≤ length (rows_of events.old) }
    ensures { (result ≡ count + length (program_in last)) × (rows_of events.new ≡ with_more events.old count (program_in last)) }
{
    if last.program < 0 {
        count
    } else {
        append(events, count, voice_event(0, last.channel, last.program))
    }
}

// The same, in the full cut, for the bend.
fn put_bend(events: &mut [i64], count: usize, c: Cut, last: Last) -> usize
    requires { count + length (bend_in c last) ≤ length (rows_of events.old) }
    ensures { (result ≡ count + length (bend_in c last)) × (rows_of events.new ≡ with_more events.old count (bend_in c last)) }
{
    if c.full & last.bent {
        append(events, count, at_time(last.bend, 0))
    } else {
        count
    }
}

// How many events a cut keeps, and how many it leaves with those that it folds.
#[derive(Clone, Copy)]
pub struct Parts {
    pub kept: usize,
    pub count: usize,
}

// The kept events, then the folded ones.
fn fold(events: &mut [i64], count: usize, c: Cut) -> Parts
    requires { (count ≤ length (rows_of events.old)) × ((is_time c.at ≡ true) × (all sound (events_of events.old count) ≡ true)) }
    ensures { (result ≡ parts_of c (events_of events.old count))
        × (rows_of events.new ≡ put_first zero_event count (kept_of c (events_of events.old count) ++ folded c (in_order c (events_of events.old count))) (rows_of events.old)) }
{
    let mut values: [i64; 128] = [-1; 128];
    let last = remember_in_order(events, count, c, &mut values);
    let kept = keep(events, count, c);
    let n = put_controls(events, kept, &values, last);
    let m = put_program(events, n, last);
    Parts {
        kept,
        count: put_bend(events, m, c, last),
    }
}

// In the full cut, brings the folded events before the kept ones.
fn arrange(events: &mut [i64], p: Parts, c: Cut)
    requires { (p.kept ≤ p.count) × (p.count ≤ length (rows_of events.old)) }
    ensures { rows_of events.new ≡ cond c.full (turned p (rows_of events.old)) (rows_of events.old) }
{
    if c.full {
        let kept = p.kept;
        let end = p.count * WIDTH;
        rotate_events(&mut events[..end], kept);
    }
}

// The cut of a list that is tested first. Refuses 1, 4; then the list is left as it is.
fn cut_list(events: &mut [i64], count: usize, c: Cut, store: usize) -> Taken
    ensures { (result ≡ cut_taken store events.old count c) × (events.new ≡ cut_left store events.old count c) }
{
    if !list_ok(events, count) {
        return Taken {
            code: 1,
            count: count,
        };
    }
    if !is_time(c.at) {
        return Taken {
            code: 4,
            count: count,
        };
    }
    if !all_fit(events, count, c, store) {
        return Taken {
            code: 4,
            count: count,
        };
    }
    let p = fold(events, count, c);
    arrange(events, p, c);
    Taken {
        code: 0,
        count: p.count,
    }
}

// Cuts off what is before `cut`: the events that are kept count their time from it, and after them stand, at time 0,
// the controllers and the program as they were by the last of each in list order. Answers the new count; the places that
// fall vacant are zeroed. Refuses 1, 4; then the list is left as it is.
pub fn play_from(events: &mut [i64], count: usize, cut: i64, store: &[u8]) -> Taken
    ensures { (result ≡ cut_taken (length store.now) events.old count (plain cut))
        × (events.new ≡ cut_left (length store.now) events.old count (plain cut)) }
{
    let c = Cut {
        at: cut,
        full: false,
    };
    cut_list(events, count, c, store.len())
}

// The cut with its bends: those from `cut` on are kept, and what is folded stands first, the bend too. Of each controller,
// of the program and of the bend the latest event before `cut` counts, whatever the list's order, and of equal times the
// later in the list; the channel is that of the latest controller or program. A negative value of the latest unsets, but a
// bend counts whatever its value, on its own channel. Answers the new count; the places that fall vacant are zeroed.
// Refuses 1, 4; then the list is left as it is.
pub fn full_cut(events: &mut [i64], count: usize, cut: i64, store: &[u8]) -> Taken
    ensures { (result ≡ cut_taken (length store.now) events.old count (whole cut))
        × (events.new ≡ cut_left (length store.now) events.old count (whole cut)) }
{
    let c = Cut {
        at: cut,
        full: true,
    };
    cut_list(events, count, c, store.len())
}
