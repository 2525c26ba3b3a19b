// A target's list for notes: at the start of each note the list's next value is written. `write_cc_on_note` goes through a
// track's lists in their order. It is a run by value over the table, which gathers at most sixteen events; then the lent
// list is asked for room, and takes them behind its own. A write that does not fit the budget is lost and ends the run:
// earlier lists have moved on, that one and the later ones have not, and none is taken out.
#![tactic(auto)]

ghost use Rattle.std.specs.Prelude.{◌≡◌, true, false, ◌++◌, ◌+◌, ◌≤◌, ◌^◌, length, take};
ghost use Rattle.std.specs.Int.Signed.{mag};
ghost use Rattle.laws.specs.Lists.{put_first};
ghost use Rattle.numbers.specs.Limits.{places};
ghost use Rattle.numbers.specs.Ranges.{is_time};
ghost use Rattle.events.specs.Events.{zero_event};
ghost use Rattle.eventlist.specs.Rows.{rows_of, events_of};
ghost use Rattle.tables.specs.Reservations.{ok_values};
ghost use Rattle.tables.specs.Tables.{ok_notes};
ghost use Rattle.state.specs.Tests.{ok_track};
ghost use Rattle.laws.specs.Lists.{without};
ghost use Rattle.noting.specs.Lists.{silent, place_of, value_of, advanced, spent};
ghost use Rattle.noting.specs.Runs.{wrote_at, step_of, run, ran_of, played_of, notes_put};
ghost use Rattle.noting.specs.Calls.{noted, list_left};
ghost use Rattle.noting.specs.Listed.{noted_by};

use budget::{Budget, budget_ok};
use cycles::{PLACES, key_of};
use eventlist::{WIDTH, list_ok};
use events::{Event, zero_event};
use numbers::{Refusal, ask, is_time};
use state::{OPTIONS, Track, track_ok};
use tables::{NoteTable, OnNoteValues, Reservation};
use values::{Offer, Write, WriteOption, Wrote};

// A note's beginning: when, and on which channel.
#[derive(Clone, Copy)]
pub struct Onset {
    pub start: i64,
    pub channel: i32,
}

// What one list's write leaves: the list, the budget, and the event if it fits.
#[derive(Clone, Copy)]
pub struct Stepped {
    pub list: OnNoteValues,
    pub budget: Budget,
    pub event: Option<Event>,
}

// What a table's lists leave at a note: the table, the budget, the first `made` of `events`, and whether a write was lost.
// `lost` is a flag by itself: what stands beside it counts whether a write was lost or not.
#[derive(Clone, Copy)]
pub struct Played {
    pub notes: NoteTable,
    pub budget: Budget,
    pub made: usize,
    pub events: [Event; PLACES],
    pub lost: bool,
}

// What a call answers: its number, the count of the list, the budget and the track afterwards.
#[repr(C)]
#[derive(Clone, Copy)]
pub struct Noted {
    pub code: u32, // a number beside what it goes with: C reads this record
    pub count: usize,
    pub budget: Budget,
    pub track: Track,
}

// What a call that is not refused leaves, of the track its lists alone.
#[derive(Clone, Copy)]
pub struct Listed {
    pub count: usize,
    pub budget: Budget,
    pub notes: NoteTable,
}

// Whether a list has no value for this note: it is empty, or at its end and does not go round.
#[tactic(auto, unfolding(crate::specs::Lists::silent, crate::specs::Lists::spent))]
fn is_silent(e: OnNoteValues) -> bool
    ensures { result ≡ silent e }
{
    (e.values.count == 0) | is_spent(e)
}

// Whether a list is to be taken out after a note: it is at its end and does not go round.
#[tactic(auto, unfolding(crate::specs::Lists::spent))]
fn is_spent(e: OnNoteValues) -> bool
    ensures { result ≡ spent e }
{
    (e.values.count <= e.index) & (e.cycling == 0)
}

// Where a list's value for this note stands: at its end it begins again.
fn place_of(e: OnNoteValues) -> usize
    ensures { result ≡ place_of e }
{
    if e.values.count <= e.index {
        0
    } else {
        e.index
    }
}

// The list one further.
fn advance(mut e: OnNoteValues) -> OnNoteValues
    requires { ok_values e ≡ true }
    ensures { result ≡ advanced e }
{
    e.index = place_of(e) + 1;
    e
}

// A list's value for this note, which it has.
fn value_of(e: OnNoteValues) -> i32
    requires { (ok_values e ≡ true) × (silent e ≡ false) }
    ensures { (result ≡ value_of e) × (mag result ≤ 2 ^ 22) }
{
    e.values.items[place_of(e)]
}

// The list's value as one value at the note's start.
fn offer_value(e: OnNoteValues, option: WriteOption, at: Onset, b: Budget) -> Wrote
    requires { (ok_values e ≡ true) × (silent e ≡ false) × (is_time at.start ≡ true) }
    ensures { result ≡ wrote_at option at b e }
{
    let write = Write {
        target: e.target,
        channel: at.channel,
        time: at.start,
        freq: 1,
        option,
    };
    let offer = Offer {
        step: 0,
        value: i64::from(value_of(e)),
    };
    values::one_value(write, b, offer)
}

// One list that has a value: where the write fits, the list is one further.
fn step(e: OnNoteValues, option: WriteOption, at: Onset, b: Budget) -> Stepped
    requires { (ok_values e ≡ true) × (silent e ≡ false) × (is_time at.start ≡ true) }
    ensures { result ≡ step_of option at b e }
{
    let w = offer_value(e, option, at, b);
    let moved = advance(e);
    if w.fits {
        Stepped {
            list: moved,
            budget: w.budget,
            event: Some(w.event),
        }
    } else {
        Stepped {
            list: e,
            budget: w.budget,
            event: None,
        }
    }
}

// The lists of a table at a note, up to the first write that does not fit; none is taken out yet.
fn run_notes(table: NoteTable, options: [WriteOption; OPTIONS], at: Onset, b: Budget) -> Played
    requires { (ok_notes table ≡ true) × (is_time at.start ≡ true) }
    ensures { result ≡ ran_of table (run options at b (take table.count table.items)) }
{
    let mut notes = table;
    let mut events = [zero_event(); PLACES];
    let mut budget = b;
    let mut made: usize = 0;
    for i in 0..table.count {
        let e = notes.items[i];
        if !is_silent(e) {
            let s = step(e, options[key_of(e.target)], at, budget);
            budget = s.budget;
            notes.items[i] = s.list;
            match s.event {
                Some(event) => {
                    events[made] = event;
                    made += 1;
                }
                None => {
                    return Played {
                        notes,
                        budget,
                        made,
                        events,
                        lost: true,
                    };
                }
            }
        }
    }
    Played {
        notes,
        budget,
        made,
        events,
        lost: false,
    }
}

// The table without the lists that are spent: the others keep their order and close up, the places left are zeroed.
fn keep_unspent(table: NoteTable) -> NoteTable
    requires { table.count ≤ places }
    ensures { result ≡ notes_put table (without spent (take table.count table.items)) }
{
    let none = OnNoteValues::blank();
    let mut notes = table;
    let mut n: usize = 0;
    for i in 0..table.count {
        let e = notes.items[i];
        notes.items[i] = none;
        if !is_spent(e) {
            notes.items[n] = e;
            n += 1;
        }
    }
    notes.count = n;
    notes
}

// The lists of a table at a note. Where no write was lost, those that are spent are then taken out.
fn play_notes(table: NoteTable, options: [WriteOption; OPTIONS], at: Onset, b: Budget) -> Played
    requires { (ok_notes table ≡ true) × (is_time at.start ≡ true) }
    ensures { result ≡ played_of table (run options at b (take table.count table.items)) }
{
    let mut r = run_notes(table, options, at, b);
    if !r.lost {
        r.notes = keep_unspent(r.notes);
    }
    r
}

// Puts the first `made` of `new` behind the `count` events, where there is room, and answers the new count.
fn append_all(events: &mut [i64], count: usize, made: usize, new: [Event; PLACES]) -> usize
    requires { (made ≤ places) × (count + made ≤ length (rows_of events.old)) }
    ensures { (result ≡ count + made)
        × (rows_of events.new ≡ put_first zero_event count (events_of events.old count ++ take made new) (rows_of events.old)) }
{
    let mut n = count;
    for i in 0..made {
        n = eventlist::append(events, n, new[i]);
    }
    n
}

// The call without the track, whose test `ok` answers: what it says of everything else, or why it refuses. The track is not handed
// back, so that the compiled code does not copy it for each refusal.
fn write_lists(
    track: Track,
    ok: bool,
    start: i64,
    budget: Budget,
    events: &mut [i64],
    count: usize,
) -> Result<Listed, Refusal>
    requires { ok ≡ ok_track track }
    ensures { (noted_by track budget count result ≡ noted track start budget events.old count)
        × (events.new ≡ list_left track start budget events.old count) }
{
    ask(list_ok(events, count), Refusal::NotAList)?;
    ask(is_time(start) & ok & budget_ok(budget), Refusal::OutOfRange)?;
    let at = Onset {
        start,
        channel: track.channel,
    };
    // Parts of a track are locals first: handed on from their place, the compiled code copies the whole track.
    let notes = track.notes;
    let options = track.options;
    let played = play_notes(notes, options, at, budget);
    ask(played.made <= events.len() / WIDTH - count, Refusal::NoRoom)?;
    Ok(Listed {
        count: append_all(events, count, played.made, played.events),
        budget: played.budget,
        notes: played.notes,
    })
}

// Writes what a track's lists have for a note that starts at `start`: the events stand behind the list's own, and each
// list that wrote is one further. Answers the count, the budget and the track afterwards. A write that does not fit sets
// the flag and ends the call; else lists that are used up and do not go round are taken out. Refuses 1, 4, 7; then all is
// left as it is.
pub fn write_cc_on_note(
    mut track: Track,
    start: i64,
    budget: Budget,
    events: &mut [i64],
    count: usize,
) -> Noted
    ensures { (result ≡ noted track start budget events.old count)
        × (events.new ≡ list_left track start budget events.old count) }
{
    let ok = track_ok(track);
    match write_lists(track, ok, start, budget, events, count) {
        Ok(left) => {
            track.notes = left.notes;
            Noted {
                code: 0,
                count: left.count,
                budget: left.budget,
                track,
            }
        }
        Err(refusal) => Noted {
            code: refusal.number(),
            count,
            budget,
            track,
        },
    }
}
