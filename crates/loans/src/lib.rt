// The track's calls as a caller lends them what they change: the budget record, and the table of sixteen cycle records. Each
// hands what is lent to the call by value and puts back what that answers; what the call does is said there. Refused, all that
// is lent stays as it is.
#![tactic(auto)]

ghost use Rattle.std.specs.Prelude.{◌≡◌, length};
ghost use Rattle.drawing.specs.Calls.{draw_answer, draw_left, on_time, cc_target, pb_target, sine_for, on_sine};
ghost use Rattle.waving.specs.Calls.{note_written, note_left};
ghost use Rattle.noting.specs.Calls.{noted, list_left};
ghost use Rattle.reserving.specs.Setting.{remove_reserve, set_on_note, set_on_note_wave, set_on_note_sine, set_on_cycle};
ghost use Rattle.lending.specs.Moving.{saved_of};
ghost use Rattle.loans.specs.Lent.{Written, Reserved, NoteWritten, told, kept};

use budget::Budget;
use cycles::{Cycle, PLACES};
use lending::{Answer, load_cycles, save_cycles};
use reserving::Kept;
use state::{Track, TrackAnswer};
use tables::OnNoteSine;
use writing::Outcome;

// What the write for a note answers: its number, the count of the list and the track afterwards.
#[repr(C)]
#[derive(Clone, Copy)]
pub struct NoteAnswer {
    pub code: u32, // a number beside what it goes with: C reads this record
    pub count: usize,
    pub track: Track,
}

// Puts back the budget that a write by value leaves, and answers the rest of it.
fn spent(budget: &mut Budget, r: Outcome) -> Answer
    ensures { (result ≡ told r) × (budget.new ≡ r.budget) }
{
    *budget = r.budget;
    Answer {
        code: r.code,
        count: r.count,
    }
}

// Puts back the records that a setter by value leaves, and answers the rest of it.
fn kept(cycles: &mut [Cycle], k: Kept) -> TrackAnswer
    ensures { (result ≡ kept k) × (cycles.new ≡ saved_of k.cycles cycles.old) }
{
    let table = k.cycles; // an array goes from field to call by a variable
    save_cycles(cycles, table);
    TrackAnswer {
        code: k.code,
        track: k.track,
    }
}

// Writes a curve at the track's time: `list` is triples of a low, a high and a length. Answers the new count, and leaves the
// budget and the list after it. Refuses 1, 2, 3, 4, 7.
pub fn write_on_time(
    track: Track,
    target: i32,
    list: &[i32],
    budget: &mut Budget,
    events: &mut [i64],
    count: usize,
    store: &[u8],
) -> Answer
    ensures { Written (draw_answer (on_time track target list.now budget.old events.old count (length store.now)))
        (draw_left (on_time track target list.now budget.old events.old count (length store.now)))
        result budget.new events.new }
{
    let r = drawing::write_on_time(track, target, list, *budget, events, count, store);
    spent(budget, r)
}

// `write_on_time` of a controller by its number. Refuses 1, 2, 3, 4, 7.
pub fn write_cc_on_time(
    track: Track,
    number: i32,
    list: &[i32],
    budget: &mut Budget,
    events: &mut [i64],
    count: usize,
    store: &[u8],
) -> Answer
    ensures { Written (draw_answer (on_time track (cc_target number) list.now budget.old events.old count (length store.now)))
        (draw_left (on_time track (cc_target number) list.now budget.old events.old count (length store.now)))
        result budget.new events.new }
{
    let r = drawing::write_cc_on_time(track, number, list, *budget, events, count, store);
    spent(budget, r)
}

// `write_on_time` of the bend, 0 being the small one. Refuses 1, 3, 4, 7.
pub fn write_pb_on_time(
    track: Track,
    big: i32,
    list: &[i32],
    budget: &mut Budget,
    events: &mut [i64],
    count: usize,
    store: &[u8],
) -> Answer
    ensures { Written (draw_answer (on_time track (pb_target big) list.now budget.old events.old count (length store.now)))
        (draw_left (on_time track (pb_target big) list.now budget.old events.old count (length store.now)))
        result budget.new events.new }
{
    let r = drawing::write_pb_on_time(track, big, list, *budget, events, count, store);
    spent(budget, r)
}

// Writes a sine at the track's time, `times` turns of `len` steps from `low` to `high`; `shape` is 0 for a full turn, 1 and 2
// for the quarter up and down. Answers and leaves as `write_on_time`. Refuses 1, 2, 4, 7.
pub fn write_sine(
    track: Track,
    target: i32,
    shape: u32,
    low: i32,
    high: i32,
    len: i32,
    times: i32,
    budget: &mut Budget,
    events: &mut [i64],
    count: usize,
    store: &[u8],
) -> Answer
    ensures { Written (draw_answer (on_sine track (sine_for target shape low high len times) budget.old events.old count (length store.now)))
        (draw_left (on_sine track (sine_for target shape low high len times) budget.old events.old count (length store.now)))
        result budget.new events.new }
{
    let r = drawing::write_sine(
        track, target, shape, low, high, len, times, *budget, events, count, store,
    );
    spent(budget, r)
}

// Writes the waves and then the sines that are reserved for the track's notes, over a note from `start` to the track's time.
// Answers the new count, and leaves the budget and the list after them. Refuses 1, 4, 7.
pub fn write_cc_on_note_wave(
    track: Track,
    start: i64,
    budget: &mut Budget,
    events: &mut [i64],
    count: usize,
    store: &[u8],
) -> Answer
    ensures { Written (note_written (length store.now) track start budget.old events.old count)
        (note_left (length store.now) track start budget.old events.old count) result budget.new events.new }
{
    let r = waving::write_cc_on_note_wave(track, start, *budget, events, count, store);
    spent(budget, r)
}

// Writes what a track's lists have for a note that starts at `start`. Answers the new count and the track, whose lists are
// advanced, and leaves the budget and the list after it. Refuses 1, 4, 7.
pub fn write_cc_on_note(
    track: Track,
    start: i64,
    budget: &mut Budget,
    events: &mut [i64],
    count: usize,
) -> NoteAnswer
    ensures { NoteWritten (noted track start budget.old events.old count)
        (list_left track start budget.old events.old count)
        result budget.new events.new }
{
    let o = noting::write_cc_on_note(track, start, *budget, events, count);
    *budget = o.budget;
    NoteAnswer {
        code: o.code,
        count: o.count,
        track: o.track,
    }
}

// Takes out the reservations of a target, of all four kinds. Answers the track. Refuses 1, 2, 4.
pub fn remove_reserve(track: Track, cycles: &mut [Cycle], target: i32) -> TrackAnswer
    ensures { Reserved (remove_reserve track (length cycles.old) cycles.old target) result cycles.new }
{
    let table = load_cycles(cycles);
    let k = reserving::remove_reserve(track, cycles.len(), table, target);
    kept(cycles, k)
}

// Reserves a list of numbers for a target, one for each note, in place of what is reserved for it. Answers the track.
// Refuses 1, 2, 3, 4, 6.
pub fn set_on_note(track: Track, cycles: &mut [Cycle], target: i32, list: &[i32]) -> TrackAnswer
    ensures { Reserved (set_on_note track (length cycles.old) cycles.old target list.now) result cycles.new }
{
    let table = load_cycles(cycles);
    let k = reserving::set_on_note(track, cycles.len(), table, target, list);
    kept(cycles, k)
}

// Reserves a wave for a target: `list` is triples of a low, a high and a length. Answers the track. Refuses 1, 2, 3, 4, 6.
pub fn set_on_note_wave(
    track: Track,
    cycles: &mut [Cycle],
    target: i32,
    mode: u32,
    list: &[i32],
) -> TrackAnswer
    ensures { Reserved (set_on_note_wave track (length cycles.old) cycles.old target mode list.now) result cycles.new }
{
    let table = load_cycles(cycles);
    let k = reserving::set_on_note_wave(track, cycles.len(), table, target, mode, list);
    kept(cycles, k)
}

// Reserves a sine for a target, which it must name. Answers the track. Refuses 1, 2, 4, 6.
pub fn set_on_note_sine(
    track: Track,
    cycles: &mut [Cycle],
    target: i32,
    sine: OnNoteSine,
) -> TrackAnswer
    ensures { Reserved (set_on_note_sine track (length cycles.old) cycles.old target sine) result cycles.new }
{
    let table = load_cycles(cycles);
    let k = reserving::set_on_note_sine(track, cycles.len(), table, target, sine);
    kept(cycles, k)
}

// Reserves a cycle of `list` for a target, one number every `len` steps from the track's time on; it comes last in the table.
// A length of 0 or less, or no number, only takes the target's reservations out. Answers the track. Refuses 1, 2, 3, 4, 6.
pub fn set_on_cycle(
    track: Track,
    cycles: &mut [Cycle],
    target: i32,
    len: i32,
    list: &[i32],
) -> TrackAnswer
    ensures { Reserved (set_on_cycle track (length cycles.old) cycles.old target len list.now) result cycles.new }
{
    let table = load_cycles(cycles);
    let k = reserving::set_on_cycle(track, cycles.len(), table, target, len, list);
    kept(cycles, k)
}
