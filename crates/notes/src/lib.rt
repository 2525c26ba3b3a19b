// Notes and their ends: split_note_off and normalize put after each NoteOn its NoteOff, which a score needs and a
// track does not hold.
#![tactic(auto)]

ghost use Rattle.std.specs.Prelude.{◌≡◌, true, ◌≤◌, ◌<◌, ◌^◌, MatchResult, length};
ghost use Rattle.std.specs.Int.Signed.{mag};
ghost use Rattle.laws.specs.Lists.{all, put_first};
ghost use Rattle.numbers.specs.Refusals.{number_of};
ghost use Rattle.events.specs.Events.{zero_event};
ghost use Rattle.eventlist.specs.Rows.{rows_of, events_of};
ghost use Rattle.eventlist.specs.Sound.{ok_events};
ghost use Rattle.notes.specs.Notes.{is_note, off_of, split_notes, ok_end, split_refusal, split_taken, split_left};

use eventlist::{Taken, WIDTH, list_ok, read_event, records_ok, write_event};
use events::{Event, NOTE_OFF, NOTE_ON};
use numbers::{Refusal, ask, is_event_time};

#[tactic(auto, unfolding(crate::specs::Notes::is_note))]
fn is_note(e: Event) -> bool
    ensures { result ≡ is_note e }
{
    matches!(e.kind, NOTE_ON)
}

// The end of a note.
fn off_of(e: Event) -> Event
    requires { (mag e.time < 2 ^ 60) × (mag e.v2 < 2 ^ 60) }
    ensures { result ≡ off_of e }
{
    Event {
        kind: NOTE_OFF,
        time: e.time + e.v2,
        ..e
    }
}

// Whether the note's end, where the event is a note, has a time that an event may have.
fn end_ok(e: Event) -> bool
    requires { (mag e.time < 2 ^ 60) × (mag e.v2 < 2 ^ 60) }
    ensures { result ≡ ok_end e }
{
    !is_note(e) | is_event_time(e.time + e.v2)
}

// Whether all of the `count` events, which may be stored, have such ends.
fn ends_ok(events: &[i64], count: usize, store: usize) -> bool
    requires { (count ≤ length (rows_of events.now)) × (ok_events store events.now count ≡ true) }
    ensures { result ≡ all ok_end (events_of events.now count) }
{
    for i in 0..count {
        if !end_ok(read_event(events, i)) {
            return false;
        }
    }
    true
}

// How many events there are with the ends of notes.
fn split_count(events: &[i64], count: usize) -> usize
    requires { count ≤ length (rows_of events.now) }
    ensures { result ≡ length (split_notes (events_of events.now count)) }
{
    let mut n: usize = 0;
    for i in 0..count {
        n += 1 + usize::from(is_note(read_event(events, i)));
    }
    n
}

// Puts the events at the front of `out`, the end of each note after it, and answers how many they are.
fn split_into(events: &[i64], count: usize, out: &mut [i64], store: usize) -> usize
    requires count_in_bounds { (count ≤ length (rows_of events.now)) × (ok_events store events.now count ≡ true) }
    requires count_in_bounds_2 { length (split_notes (events_of events.now count)) ≤ length (rows_of out.old) }
    ensures { (result ≡ length (split_notes (events_of events.now count)))
        × (rows_of out.new ≡ put_first zero_event 0 (split_notes (events_of events.now count)) (rows_of out.old)) }
{
    let mut n: usize = 0;
    for i in 0..count {
        let e = read_event(events, i);
        write_event(out, n, e);
        n += 1;
        if is_note(e) {
            write_event(out, n, off_of(e));
            n += 1;
        }
    }
    n
}

// How many events a split of the list leaves in a buffer of `size` numbers. Refuses 1, 4, 7.
fn split_asked(events: &[i64], count: usize, size: usize, store: usize) -> Result<usize, Refusal>
    ensures { MatchResult result
        (λ n. (0 ≡ split_refusal store events.now count size) × (n ≡ length (split_notes (events_of events.now count))))
        (λ why. number_of why ≡ split_refusal store events.now count size) }
{
    ask(
        list_ok(events, count) & (size % WIDTH == 0),
        Refusal::NotAList,
    )?;
    ask(records_ok(events, count, store), Refusal::OutOfRange)?;
    ask(ends_ok(events, count, store), Refusal::OutOfRange)?;
    let total = split_count(events, count);
    ask(total <= size / WIDTH, Refusal::NoRoom)?;
    Ok(total)
}

// Puts the list's events at the front of `out`, after each note its end, and answers how many they are. Beyond them
// `out` is left as it is. Refuses 1, 4, 7; then all of `out` is left as it is.
pub fn split_note_off(events: &[i64], count: usize, out: &mut [i64], store: &[u8]) -> Taken
    ensures { (result ≡ split_taken (length store.now) events.now count out.old)
        × (out.new ≡ split_left (length store.now) events.now count out.old 0) }
{
    match split_asked(events, count, out.len(), store.len()) {
        Ok(_) => Taken {
            code: 0,
            count: split_into(events, count, out, store.len()),
        },
        Err(refusal) => Taken {
            code: refusal.number(),
            count,
        },
    }
}

// The same in the list itself, from its end: what is read stands before what is written.
fn split_in_place(events: &mut [i64], count: usize, total: usize, store: usize)
    requires count_in_bounds { (count ≤ length (rows_of events.old)) × (ok_events store events.old count ≡ true) }
    requires total_value { (total ≡ length (split_notes (events_of events.old count))) × (total ≤ length (rows_of events.old)) }
    ensures { rows_of events.new ≡ put_first zero_event count (split_notes (events_of events.old count)) (rows_of events.old) }
{
    let mut n = total;
    for i in (0..count).rev() {
        let e = read_event(events, i);
        if is_note(e) {
            n -= 2;
            write_event(events, n + 1, off_of(e));
            write_event(events, n, e);
        } else {
            n -= 1;
            write_event(events, n, e);
        }
    }
}

// Puts after each note of the list its end, and answers the new count. Refuses 1, 4, 7; then the list is left as it is.
pub fn normalize(events: &mut [i64], count: usize, store: &[u8]) -> Taken
    ensures { (result ≡ split_taken (length store.now) events.old count events.old)
        × (events.new ≡ split_left (length store.now) events.old count events.old count) }
{
    match split_asked(events, count, events.len(), store.len()) {
        Ok(total) => {
            split_in_place(events, count, total, store.len());
            Taken {
                code: 0,
                count: total,
            }
        }
        Err(refusal) => Taken {
            code: refusal.number(),
            count,
        },
    }
}
