// The event list: a slice of numbers that the caller lends, eight to a record, and the count of records that are
// events. Each contract speaks of the slice read whole as records (`rows_of`).
#![tactic(auto)]

ghost use Rattle.std.specs.Prelude.{◌≡◌, [], ◌∷◌, ◌++◌, ◌+◌, ◌≤◌, ◌<◌, MatchResult, length, get_or, set, take, drop};
ghost use Rattle.std.proofs.Math.Seq.{paste};
ghost use Rattle.laws.specs.Lists.{put_first};
ghost use Rattle.laws.specs.Moves.{in_front};
ghost use Rattle.numbers.specs.Refusals.{number_of};
ghost use Rattle.events.specs.Events.{zero_event};
ghost use Rattle.eventlist.specs.Rows.{record_width, event_of, numbers_of, rows_of, events_of};
ghost use Rattle.eventlist.specs.Sound.{is_list, ok_events};
ghost use Rattle.eventlist.specs.Windows.{taken_by, kept_by, taken_by_any};
ghost use Rattle.eventlist.specs.Clearing.{widened, Covers, survey_of, Surveyed, cleared_by, rows_cleared};
ghost use Rattle.eventlist.specs.Bends.{bends_in, bends_refusal, bends_taken, bends_left};

use events::{CONTROL_CHANGE, Event, PITCH_BEND, event_ok};
use numbers::{Refusal, ask, is_time};

// The numbers of a record.
pub const WIDTH: usize = 8;

// The event that eight numbers say.
fn decode(s: &[i64]) -> Event
    requires { length s.now ≡ record_width }
    ensures { result ≡ event_of s.now }
{
    Event {
        kind: s[0],
        time: s[1],
        channel: s[2],
        v1: s[3],
        v2: s[4],
        v3: s[5],
        offset: s[6],
        len: s[7],
    }
}

// The eight numbers of an event.
fn encode(s: &mut [i64], e: Event)
    requires { length s.old ≡ record_width }
    ensures { s.new ≡ numbers_of e }
{
    s[0] = e.kind;
    s[1] = e.time;
    s[2] = e.channel;
    s[3] = e.v1;
    s[4] = e.v2;
    s[5] = e.v3;
    s[6] = e.offset;
    s[7] = e.len;
}

// Record `i`, which is there.
pub fn read_event(events: &[i64], i: usize) -> Event
    requires { i < length (rows_of events.now) }
    ensures { result ≡ get_or (rows_of events.now) i zero_event }
{
    let at = i * WIDTH;
    decode(&events[at..at + WIDTH])
}

// Makes `e` record `i`, which is there.
pub fn write_event(events: &mut [i64], i: usize, e: Event)
    requires { i < length (rows_of events.old) }
    ensures { rows_of events.new ≡ set (rows_of events.old) i e }
{
    let at = i * WIDTH;
    encode(&mut events[at..at + WIDTH], e);
}

// Puts `e` after the `count` events, where there is room, and answers the new count.
pub fn append(events: &mut [i64], count: usize, e: Event) -> usize
    requires { count < length (rows_of events.old) }
    ensures { (result ≡ count + 1)
        × (rows_of events.new ≡ put_first zero_event count (events_of events.old count ++ (e ∷ [])) (rows_of events.old)) }
{
    write_event(events, count, e);
    count + 1
}

// Whether the slice is a whole number of records, `count` of which are there.
#[tactic(auto, unfolding(crate::specs::Sound::is_list))]
pub fn list_ok(events: &[i64], count: usize) -> bool
    ensures { result ≡ is_list events.now count }
{
    (events.len() % WIDTH == 0) & (count <= events.len() / WIDTH)
}

// Whether each of the `count` events may be stored beside a store of `store` bytes.
pub fn records_ok(events: &[i64], count: usize, store: usize) -> bool
    requires { count ≤ length (rows_of events.now) }
    ensures { result ≡ ok_events store events.now count }
{
    for i in 0..count {
        if !event_ok(read_event(events, i), store) {
            return false;
        }
    }
    true
}

// Events of a kind, and of a number where the kind is a controller's, with a time from `start` on and before `end`.
#[derive(Clone, Copy)]
pub struct Window {
    pub kind: i64,
    pub number: i64,
    pub start: i64,
    pub end: i64,
}

// Whether the window takes the event out, whatever its channel.
pub fn in_window(e: Event, w: Window) -> bool
    ensures { result ≡ taken_by w e }
{
    (w.start <= e.time)
        & (e.time < w.end)
        & (e.kind == w.kind)
        & ((w.kind != CONTROL_CHANGE) | (e.v1 == w.number))
}

// Whether some window takes the event out.
fn any_takes(windows: &[Window], e: Event) -> bool
    ensures { result ≡ taken_by_any windows.now e }
{
    windows.iter().any(|w| in_window(e, *w))
}

// Times from `start` on and before `end`.
#[derive(Clone, Copy)]
struct Span {
    start: i64,
    end: i64,
}

// Later than every time and end of a window.
const FAR: i64 = 4611686018427387904;

// The span with a window's times in it too.
fn widen(s: Span, w: Window) -> Span
    ensures { result ≡ widened s w }
{
    Span {
        start: s.start.min(w.start),
        end: w.end.max(s.end),
    }
}

// A span that has the times of all windows in it.
fn span_of(windows: &[Window]) -> Span
    ensures { Covers result windows.now }
{
    let mut span = Span {
        start: FAR,
        end: -FAR,
    };
    for w in windows {
        span = widen(span, *w);
    }
    span
}

// Whether some window takes the event out; windows are looked at only where the time lies in their span.
fn takes(windows: &[Window], span: Span, e: Event) -> bool
    requires { Covers span windows.now }
    ensures { result ≡ taken_by_any windows.now e }
{
    (span.start..span.end).contains(&e.time) && any_takes(windows, e)
}

// What a pass over the events says before windows are taken out: how many stand in front of the first that is taken, and how
// many are taken.
#[derive(Clone, Copy)]
pub struct Seen {
    pub first: usize,
    pub taken: usize,
}

// Goes once over the `count` events, beside a store of `store` bytes. Refuses 4 where one may not be stored. What is taken is
// counted without a branch, which no processor could foresee.
pub fn survey(
    events: &[i64],
    count: usize,
    store: usize,
    windows: &[Window],
) -> Result<Seen, Refusal>
    requires { count ≤ length (rows_of events.now) }
    ensures { result ≡ survey_of store windows.now events.now count }
{
    let span = span_of(windows);
    let mut first: usize = 0;
    let mut taken: usize = 0;
    for i in 0..count {
        let e = read_event(events, i);
        if !event_ok(e, store) {
            return Err(Refusal::OutOfRange);
        }
        let hit = takes(windows, span, e);
        taken += usize::from(hit);
        first += usize::from((first == i) & !hit);
    }
    Ok(Seen { first, taken })
}

// Moves `n` records from `from` on down to `to`, in order, and answers how many were moved.
fn move_down(events: &mut [i64], from: usize, to: usize, n: usize) -> usize
    requires { (to < from) × (from + n ≤ length (rows_of events.old)) }
    ensures { (result ≡ n) × (rows_of events.new ≡ paste (rows_of events.old) to (drop from (rows_of events.old)) n) }
{
    events.copy_within(from * WIDTH..(from + n) * WIDTH, to * WIDTH);
    n
}

// Zeroes the records from `from` on that are below `to`: of the first `to` the first `from` are left.
pub fn clear_from(events: &mut [i64], from: usize, to: usize)
    requires { (from ≤ to) × (to ≤ length (rows_of events.old)) }
    ensures { rows_of events.new ≡ put_first zero_event to (take from (rows_of events.old)) (rows_of events.old) }
{
    events[from * WIDTH..to * WIDTH].fill(0);
}

// The place of the next event, from `i` on, that some window takes; the count where there is none.
fn next_taken(events: &[i64], i: usize, count: usize, windows: &[Window], span: Span) -> usize
    requires { (i ≤ count) × (count ≤ length (rows_of events.now)) × Covers span windows.now }
    ensures { result ≡ i + in_front (taken_by_any windows.now) (drop i (events_of events.now count)) }
{
    for j in i..count {
        if takes(windows, span, read_event(events, j)) {
            return j;
        }
    }
    count
}

// What taking events out leaves: how many are left, and how many of these were moved, that is, written to another place.
#[derive(Clone, Copy)]
pub struct Cleared {
    pub left: usize,
    pub moved: usize,
}

// Takes the windows' events out of the `count`, as `seen` by the survey. What is left keeps its order: before the first that is taken
// nothing moves, and behind it each stretch between two that are taken moves once, the last one without being asked again. The places
// that fall vacant are zeroed.
pub fn clear_windows(events: &mut [i64], count: usize, windows: &[Window], seen: Seen) -> Cleared
    requires { (count ≤ length (rows_of events.old)) × Surveyed windows.now events.old count seen }
    ensures { (result ≡ cleared_by windows.now events.old count)
        × (rows_of events.new ≡ rows_cleared windows.now events.old count) }
{
    let first = seen.first;
    if first == count {
        return Cleared {
            left: count,
            moved: 0,
        };
    }
    let span = span_of(windows);
    let mut n = first;
    let mut moved: usize = 0;
    for gone in 1..seen.taken {
        let i = n + gone;
        let next = next_taken(events, i, count, windows, span);
        moved += move_down(events, i, n, next - i);
        n += next - i;
    }
    let i = n + seen.taken;
    moved += move_down(events, i, n, count - i);
    n += count - i;
    clear_from(events, n, count);
    Cleared { left: n, moved }
}

// What a call that takes events out answers: its number, and the count of the list afterwards.
#[repr(C)]
#[derive(Clone, Copy)]
pub struct Taken {
    pub code: u32, // a number beside what it goes with: C reads this record
    pub count: usize,
}

// The same call's new count, beside a store of `store` bytes.
fn take_bends(
    events: &mut [i64],
    count: usize,
    start: i64,
    end: i64,
    store: usize,
) -> Result<usize, Refusal>
    ensures answer { MatchResult result
        (λ left. (bends_refusal store events.old count start end ≡ 0) × (left ≡ length (kept_by (bends_in start end) events.old count)))
        (λ why. bends_refusal store events.old count start end ≡ number_of why) }
    ensures list { events.new ≡ bends_left store events.old count start end }
{
    ask(list_ok(events, count), Refusal::NotAList)?;
    ask(is_time(start) & is_time(end), Refusal::OutOfRange)?;
    let windows = [Window {
        kind: PITCH_BEND,
        number: 0,
        start,
        end: end + 1,
    }];
    let seen = survey(events, count, store, &windows)?;
    Ok(clear_windows(events, count, &windows, seen).left)
}

// Takes out the bends from `start` to `end`, that time included. Answers the new count; the others keep their order,
// and the places that fall vacant are zeroed. Refuses 1, 4; then the list is left as it is.
pub fn remove_pitch_bend_in_range(
    events: &mut [i64],
    count: usize,
    start: i64,
    end: i64,
    store: &[u8],
) -> Taken
    ensures { (result ≡ bends_taken (length store.now) events.old count start end)
        × (events.new ≡ bends_left (length store.now) events.old count start end) }
{
    match take_bends(events, count, start, end, store.len()) {
        Ok(left) => Taken {
            code: 0,
            count: left,
        },
        Err(refusal) => Taken {
            code: refusal.number(),
            count,
        },
    }
}
