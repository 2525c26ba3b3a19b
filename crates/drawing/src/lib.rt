// A track's options, and what it writes at its own time: the calls that change a target's option, and those that draw a
// curve or a sine into the lent list. Each tests what it is handed in the order of document 01's table and takes the track
// apart once. A call that refuses hands back what it was given.
#![tactic(auto)]

ghost use Rattle.std.specs.Prelude.{◌≡◌, ◌≤◌, length};
ghost use Rattle.laws.specs.Integers.{cut};
ghost use Rattle.numbers.specs.Limits.{places};
ghost use Rattle.numbers.specs.Ranges.{is_target};
ghost use Rattle.numbers.specs.Refusals.{told};
ghost use Rattle.eventlist.specs.Sound.{is_list};
ghost use Rattle.drawing.specs.Options.{for_target, target_refusal, option_of, option_for, left, set_delay, set_random, set_range, clear_range, turned, notes_turned, set_repeat};
ghost use Rattle.drawing.specs.Frequency.{bend_freq, freq_for};
ghost use Rattle.drawing.specs.Write.{write_of};
ghost use Rattle.drawing.specs.Calls.{in_order, Drawn, on_time, cc_target, pb_target, sine_for, on_sine};

use budget::{Budget, budget_ok};
use counted::{curve_ok, empty, numbers_of};
use cycles::key_of;
use eventlist::list_ok;
use numbers::{Refusal, ask, code_of, is_length, is_number, is_random, is_target};
use sines::SineType;
use state::{Track, TrackAnswer, track_ok};
use tables::{NoteTable, OnNoteSine, OnNoteValues, sine_ok};
use values::{Write, WriteOption};
use writing::{Outcome, at_least_one};

// A target's option, or the refusal and an option in which nothing is set.
#[repr(C)]
#[derive(Clone, Copy)]
pub struct OptionAnswer {
    pub code: u32, // a number beside what it goes with: C reads this record
    pub option: WriteOption,
}

// The option that stands for a target; both bends have one.
fn option_of(track: Track, target: i32) -> WriteOption
    ensures { result ≡ option_of track target }
{
    // A part of a track is a local first: read in its place, the compiled code copies the whole track.
    let options = track.options;
    options[key_of(target)]
}

// What a call on a target's option or reservations asks: the target, and then the numbers, of which `well` speaks.
#[inline(always)]
pub fn ask_target(target: i32, well: bool) -> Result<(), Refusal>
    ensures { told result ≡ for_target target well }
{
    ask(is_target(target), Refusal::NoTarget)?;
    ask(well, Refusal::OutOfRange)
}

// The same of a call that is handed a track: a target that is none is told before the whole track is tested.
#[inline(always)]
#[tactic(auto, unfolding(crate::specs::Options::target_refusal))]
pub fn ask_track(track: &Track, target: i32, allowed: bool) -> Result<(), Refusal>
    ensures { told result ≡ target_refusal track.now target allowed }
{
    ask(is_target(target), Refusal::NoTarget)?;
    ask_target(target, track_ok(*track) & allowed)
}

// What is set for a target. Refuses 2, 4.
pub fn get_write_opt(track: Track, target: i32) -> OptionAnswer
    ensures { result ≡ option_for track target }
{
    match ask_track(&track, target, true) {
        Ok(()) => OptionAnswer {
            code: 0,
            option: option_of(track, target),
        },
        Err(refusal) => OptionAnswer {
            code: refusal.number(),
            option: WriteOption::new(),
        },
    }
}

// The track with a target's option, where the target, the track and what was handed in are allowed. A setter changes its field and
// hands the option on: a closure that changes it would be no shorter, and the track would be compiled in once for each.
fn leave_option(mut track: Track, target: i32, option: WriteOption, allowed: bool) -> TrackAnswer
    ensures { result ≡ left track target option allowed }
{
    let asked = ask_track(&track, target, allowed);
    if asked.is_ok() {
        track.options[key_of(target)] = option;
    }
    TrackAnswer {
        code: code_of(asked),
        track,
    }
}

// How many steps later a target's events stand. Refuses 2, 4.
pub fn set_delay(track: Track, target: i32, delay: i32) -> TrackAnswer
    ensures { result ≡ set_delay track target delay }
{
    let mut option = option_of(track, target);
    option.delay = delay;
    leave_option(track, target, option, is_length(delay))
}

// How far random moves a target's values; 0 or less is off. Refuses 2, 4.
pub fn set_random(track: Track, target: i32, random: i32) -> TrackAnswer
    ensures { result ≡ set_random track target random }
{
    let mut option = option_of(track, target);
    option.random = random;
    leave_option(track, target, option, is_random(random))
}

// The range to which a target's values are limited. Refuses 2, 4.
pub fn set_range(track: Track, target: i32, low: i32, high: i32) -> TrackAnswer
    ensures { result ≡ set_range track target low high }
{
    let mut option = option_of(track, target);
    option.ranged = 1;
    option.low = low;
    option.high = high;
    leave_option(track, target, option, is_number(low) & is_number(high))
}

// A target's values are limited no more. Refuses 2, 4.
pub fn clear_range(track: Track, target: i32) -> TrackAnswer
    ensures { result ≡ clear_range track target }
{
    let mut option = option_of(track, target);
    option.ranged = 0;
    option.low = 0;
    option.high = 0;
    leave_option(track, target, option, true)
}

// A list for notes: where it is that of key `k`, whether it goes round is set.
fn turn(e: OnNoteValues, k: usize, on: u32) -> OnNoteValues
    ensures { result ≡ turned k on e }
{
    if key_of(e.target) == k {
        OnNoteValues { cycling: on, ..e }
    } else {
        e
    }
}

// The table with each of its lists so turned.
fn turn_notes(mut table: NoteTable, k: usize, on: u32) -> NoteTable
    requires { table.count ≤ places }
    ensures { result ≡ notes_turned table k on }
{
    for i in 0..table.count {
        table.items[i] = turn(table.items[i], k, on);
    }
    table
}

// Whether a target's lists for notes go round, 0 or 1; it reaches the list that is stored too. Refuses 2, 4.
pub fn set_repeat(track: Track, target: i32, on: u32) -> TrackAnswer
    ensures { result ≡ set_repeat track target on }
{
    let mut option = option_of(track, target);
    option.repeat = on;
    let mut left = leave_option(track, target, option, on <= 1);
    if left.code == 0 {
        left.track.notes = turn_notes(track.notes, key_of(target), on);
    }
    left
}

// How many steps a number is: none below 0.
fn steps_of(x: i32) -> u64
    ensures { result ≡ cut x }
{
    offers::length_of(i64::from(x))
}

// How many steps apart a bend's values are written: its setting if positive, else a part of the timebase.
fn bend_freq(freq: i32, timebase: i32) -> u64
    ensures { result ≡ bend_freq freq timebase }
{
    let own = steps_of(freq);
    if own == 0 {
        at_least_one(steps_of(timebase) / 32)
    } else {
        own
    }
}

// How many steps apart a target's values are written, of the settings of controllers and of bends.
fn freq_for(target: i32, ccfreq: i32, pbfreq: i32, timebase: i32) -> u64
    ensures { result ≡ freq_for target ccfreq pbfreq timebase }
{
    match target {
        0..=127 => at_least_one(steps_of(ccfreq)),
        _ => bend_freq(pbfreq, timebase),
    }
}

// What a write at the track's time is asked with: its place, the target's option and frequency.
pub fn write_of(track: Track, target: i32) -> Write
    ensures { result ≡ write_of track target }
{
    Write {
        target,
        channel: track.channel,
        time: track.timepos,
        freq: freq_for(target, track.ccfreq, track.pbfreq, track.timebase),
        option: option_of(track, target),
    }
}

// What a write asks before its events are looked at: the list, the target, whether the arguments are short enough, and the
// numbers, of which `usable` speaks for all but the events'.
#[tactic(auto, unfolding(crate::specs::Calls::in_order))]
fn asked(
    target: i32,
    short: bool,
    usable: bool,
    events: &[i64],
    count: usize,
) -> Result<(), Refusal>
    ensures { told result ≡ in_order (is_list events.now count) (is_target target) short usable 0 }
{
    ask(list_ok(events, count), Refusal::NotAList)?;
    ask(is_target(target), Refusal::NoTarget)?;
    ask(short, Refusal::TooMany)?;
    ask(usable, Refusal::OutOfRange)
}

// Writes a curve at the track's time: `list` is triples of a low, a high and a length. Answers the new count and the budget;
// the target's events within the curve's length are taken out, the new ones stand behind the others.
// Refuses 1, 2, 3, 4, 7.
pub fn write_on_time(
    track: Track,
    target: i32,
    list: &[i32],
    budget: Budget,
    events: &mut [i64],
    count: usize,
    store: &[u8],
) -> Outcome
    ensures { Drawn (on_time track target list.now budget events.old count (length store.now)) result events.new }
{
    let listed = numbers_of(list);
    let numbers = listed.unwrap_or(empty());
    let usable = track_ok(track) & budget_ok(budget) & curve_ok(numbers);
    if let Err(refusal) = asked(target, listed.is_ok(), usable, events, count) {
        return Outcome {
            code: refusal.number(),
            count,
            budget,
        };
    }
    let w = write_of(track, target);
    writing::write_curve(w, budget, list, events, count, store.len())
}

// The target of a controller's number; a number that is none names no target.
pub fn cc_target(number: i32) -> i32
    ensures { result ≡ cc_target number }
{
    match number {
        0..=127 => number,
        _ => -1,
    }
}

// The target of a bend's argument: 0 is the small one.
pub fn pb_target(is_big: i32) -> i32
    ensures { result ≡ pb_target is_big }
{
    match is_big {
        0 => 128,
        _ => 129,
    }
}

// `write_on_time` of a controller by its number. Refuses 1, 2, 3, 4, 7.
pub fn write_cc_on_time(
    track: Track,
    number: i32,
    list: &[i32],
    budget: Budget,
    events: &mut [i64],
    count: usize,
    store: &[u8],
) -> Outcome
    ensures { Drawn (on_time track (cc_target number) list.now budget events.old count (length store.now)) result events.new }
{
    write_on_time(track, cc_target(number), list, budget, events, count, store)
}

// `write_on_time` of the bend. Refuses 1, 3, 4, 7.
pub fn write_pb_on_time(
    track: Track,
    is_big: i32,
    list: &[i32],
    budget: Budget,
    events: &mut [i64],
    count: usize,
    store: &[u8],
) -> Outcome
    ensures { Drawn (on_time track (pb_target is_big) list.now budget events.old count (length store.now)) result events.new }
{
    write_on_time(track, pb_target(is_big), list, budget, events, count, store)
}

// Writes a sine at the track's time, `times` turns of `len` steps from `low` to `high`; `shape` is 0 for a full turn, 1 and 2
// for the quarter up and down. Answers and leaves as `write_on_time`; a length of 0 or less changes nothing, times of 0 or
// less count once. Refuses 1, 2, 4, 7.
pub fn write_sine(
    track: Track,
    target: i32,
    shape: u32,
    low: i32,
    high: i32,
    len: i32,
    times: i32,
    budget: Budget,
    events: &mut [i64],
    count: usize,
    store: &[u8],
) -> Outcome
    ensures { Drawn (on_sine track (sine_for target shape low high len times) budget events.old count (length store.now)) result events.new }
{
    let sine = OnNoteSine {
        target,
        shape,
        low,
        high,
        length: len,
        times,
    };
    let usable = track_ok(track) & budget_ok(budget) & sine_ok(sine);
    if let Err(refusal) = asked(target, true, usable, events, count) {
        return Outcome {
            code: refusal.number(),
            count,
            budget,
        };
    }
    let w = write_of(track, target);
    let stype = SineType::from_i(i64::from(shape));
    writing::write_sine(
        w,
        budget,
        stype,
        low,
        high,
        len,
        times,
        events,
        count,
        store.len(),
    )
}
