// The calls as a C program makes them, by the names of docs/API.md after `dollavir_`. A record that a call changes is lent by `&mut`, one
// that it reads by `&`; what a call answers besides its number goes to where its last parameters point. The number is that of
// document 01's table. Refused, all that is lent stays as it is, and a value that is answered is 0. Written by tools/ctrack.py.
#![tactic(auto)]

ghost use Rattle.std.specs.Prelude.{◌≡◌, length};
ghost use Rattle.state.specs.Calls.{new_of, set_timepos, set_channel, set_cc_freq, set_pb_freq};
ghost use Rattle.budget.specs.Budgets.{new_budget};
ghost use Rattle.cycles.specs.Rules.{no_cycle};
ghost use Rattle.values.specs.Options.{new_option};
ghost use Rattle.tables.specs.Tables.{new_sine};
ghost use Rattle.reserved.specs.Setting.{new_cycle_time};
ghost use Rattle.laws.specs.Integers.{range_of};
ghost use Rattle.drawing.specs.Options.{option_for, set_delay, set_random, set_range, clear_range, set_repeat};
ghost use Rattle.params.specs.Calls.{set_delay as params_set_delay, set_random as params_set_random, set_range as params_set_range, clear_range as params_clear_range, set_repeat as params_set_repeat, set_on_note as params_set_on_note, set_on_cycle as params_set_on_cycle, set_on_time, clear_reserve, set_max, clear_max, has_reserve, calc_on_time, calc_on_note, apply_limit, maximum_or};
ghost use Rattle.drawing.specs.Calls.{on_time, draw_answer, draw_left, cc_target, pb_target, sine_for, on_sine};
ghost use Rattle.reserving.specs.Setting.{remove_reserve, set_on_note, set_on_note_wave, set_on_note_sine, set_on_cycle};
ghost use Rattle.reserving.specs.Old.{remove_cc_on, set_cc_on_note, set_cc_on_note_wave, set_pb_on_note_wave, remove_pb_on_note_wave, remove_cc_on_note, remove_cc_on_note_wave};
ghost use Rattle.noting.specs.Calls.{noted, list_left};
ghost use Rattle.waving.specs.Calls.{note_written, note_left};
ghost use Rattle.cycling.specs.Calls.{cycled_of, cycled_list};
ghost use Rattle.track.specs.Reading.{cc_of_track};
ghost use Rattle.eventlist.specs.Bends.{bends_taken, bends_left};
ghost use Rattle.sorting.specs.Sorting.{sort_refusal, sort_left};
ghost use Rattle.notes.specs.Notes.{split_taken, split_left};
ghost use Rattle.cutting.specs.Cuts.{cut_taken, cut_left, plain, whole};
ghost use Rattle.chunks.specs.Writing.{chunk_written, chunk_left};
ghost use Rattle.reader.specs.Reading.{read_taken, read_left};
ghost use Rattle.profile.specs.Calls.{check_answer, fit_taken, fit_left};
ghost use Rattle.playing.specs.Which.{velocity, timing, gate, octave, span, param_of};
ghost use Rattle.playing.specs.Calls.{value_on_time, value_on_note, on_layers, summed_up, on_param};
ghost use Rattle.layers.specs.Calls.{set_v_sub, set_v_sub_random, set_v_sub_on_time, set_v_sub_on_cycle, set_v_sub_on_note, apply_v_sub};
ghost use Rattle.events.specs.Events.{note_event, made, voice_event, made_cc, pitch_bend_event, pitch_bend_range_event, meta_event, direct_smf_event, sysex_event, size_of};
ghost use Rattle.params.specs.Param.{fresh};
ghost use Rattle.layers.specs.Layers.{one_layer};
ghost use Rattle.reserved.specs.Cycle.{calc_of, said};
ghost use Rattle.ctrack.specs.Kinds.{told_of};
ghost use Rattle.sines.specs.Kinds.{number_of, sine_type};
ghost use Rattle.ctrack.specs.Lent.{TrackLeft, OptionTold, Written, Reserved, NoteWritten, CycleWritten, CcTold, ListLeft, ChunkLeft, ProfileTold, ValueLeft, VelocityLeft, SizeTold, ParamLeft, ParamTold, ParamTaken, LayersLeft, LayersSum, TimeTold};

use budget::{Budget, BudgetAnswer};
use cycles::Cycle;
use eventlist::Taken;
use events::{Event, Made};
use layers::{Layers, LayersAnswer};
use numbers::Refusal;
use params::{NoteParam, ParamAnswer, ParamValue, Told};
use playing::TrackValue;
use reserved::{CycleTimeAnswer, OnCycleTime};
use sines::SineType;
use state::{Track, TrackAnswer};
use tables::{NORMAL, OnNoteSine, SineAnswer};
use values::WriteOption;
use writing::Outcome;

// What a call by value answers, left where it was lent or is asked for; the number is answered.
// The track goes where it was lent.
fn leave_track(answer: TrackAnswer, track: &mut Track) -> u32
    ensures { TrackLeft answer result track.new }
{
    *track = answer.track;
    answer.code
}

// The same with a value.
fn leave_value(answer: TrackValue, value: &mut i32, track: &mut Track) -> u32
    ensures { ValueLeft answer result value.new track.new }
{
    *value = answer.value;
    *track = answer.track;
    answer.code
}

// A write's count and budget.
fn leave_outcome(answer: Outcome, count: &mut usize, budget: &mut Budget) -> u32
    ensures { (result ≡ answer.code) × (count.new ≡ answer.count) × (budget.new ≡ answer.budget) }
{
    *count = answer.count;
    *budget = answer.budget;
    answer.code
}

// A list's count.
fn leave_count(answer: Taken, count: &mut usize) -> u32
    ensures { (result ≡ answer.code) × (count.new ≡ answer.count) }
{
    *count = answer.count;
    answer.code
}

// A parameter that is lent by itself.
fn leave_param(answer: ParamAnswer, param: &mut NoteParam) -> u32
    ensures { ParamLeft answer result param.new }
{
    *param = answer.param;
    answer.code
}

// The same with a value.
fn leave_param_value(answer: ParamValue, value: &mut i32, param: &mut NoteParam) -> u32
    ensures { ParamTaken answer result value.new param.new }
{
    *value = answer.value;
    *param = answer.param;
    answer.code
}

// A value alone.
fn leave_told(answer: Told, value: &mut i32) -> u32
    ensures { ParamTold answer result value.new }
{
    *value = answer.value;
    answer.code
}

// Layers that are lent by themselves.
fn leave_layers(answer: LayersAnswer, layers: &mut Layers) -> u32
    ensures { LayersLeft answer result layers.new }
{
    *layers = answer.layers;
    answer.code
}

// The code of the bends, for whichever of the two a target is.
const BENDS: i32 = 129;

// What a cycle over time answers, in numbers: `found` is 1 where it has a value, else 0.
#[derive(Clone, Copy)]
pub struct CycleTold {
    pub code: u32,
    pub found: u32,
    pub value: i32,
}

fn cycle_told(answer: Result<Option<i32>, Refusal>) -> CycleTold
    ensures { result ≡ told_of (said answer) }
{
    match answer {
        Ok(Some(value)) => CycleTold {
            code: 0,
            found: 1,
            value,
        },
        Ok(None) => CycleTold {
            code: 0,
            found: 0,
            value: 0,
        },
        Err(refusal) => CycleTold {
            code: refusal.number(),
            found: 0,
            value: 0,
        },
    }
}

// The value of a cycle at `timepos`, and in `found` whether it has one: none before the start, and none of a cycle without values or with a length of 0 or less. Refuses 4.
fn cycle_time_calc(cycle: OnCycleTime, timepos: i64) -> CycleTold
    ensures { result ≡ told_of (calc_of cycle timepos) }
{
    cycle_told(cycle.calc(timepos))
}

// ---- new records: a track, a budget, an unused cycle, an option, a sine, a cycle over time
// A track at time 0 with nothing set; the channel is clamped to 0..15. Refuses 4, and then hands back a track of
// timebase 0, which no call takes.
pub fn dollavir_track_new(timebase: i32, channel: i32) -> TrackAnswer
    ensures { result ≡ new_of timebase channel }
{
    Track::new(timebase, channel)
}

// Nothing used yet, the flag clear. Refuses 4, and then hands back a budget of zeros.
pub fn dollavir_budget_new(seed: u32, maximum: u32) -> BudgetAnswer
    ensures { result ≡ new_budget seed maximum }
{
    Budget::new(seed, maximum)
}

// What an unused place of a table of cycles holds.
pub fn dollavir_cycle_none() -> Cycle
    ensures { result ≡ no_cycle }
{
    Cycle::none()
}

// No delay, no random, no range, no repeat.
pub fn dollavir_write_option_new() -> WriteOption
    ensures { result ≡ new_option }
{
    WriteOption::new()
}

// A sine for a target's notes. Refuses 2, 4, and then hands back a sine of zeros.
pub fn dollavir_on_note_sine_new(
    target: i32,
    shape: u32,
    low: i32,
    high: i32,
    len: i32,
    times: i32,
) -> SineAnswer
    ensures { result ≡ new_sine target shape low high len times }
{
    OnNoteSine::new(target, shape, low, high, len, times)
}

// A cycle over time of its own. Refuses 3, 4, and then hands back a cycle of zeros.
pub fn dollavir_cycle_time_new(start: i64, len: i32, values: &[i32]) -> CycleTimeAnswer
    ensures { result ≡ new_cycle_time start len values.now }
{
    OnCycleTime::new(start, len, values)
}

// ---- a number in a range
// Below `low` gives `low`, otherwise above `high` gives `high`, whichever of the two is the greater.
pub fn dollavir_value_range(low: i64, v: i64, high: i64) -> i64
    ensures { result ≡ range_of low v high }
{
    numbers::value_range(low, v, high)
}

// ---- the track's own numbers
// Where the track stands: the time of what is written next. Refuses 4.
pub fn dollavir_set_timepos(track: &mut Track, timepos: i64) -> u32
    ensures { TrackLeft (set_timepos track.old timepos) result track.new }
{
    leave_track(state::set_timepos(*track, timepos), track)
}

// The channel of what is written next; outside 0..15 it is not clamped here. Refuses 4.
pub fn dollavir_set_channel(track: &mut Track, channel: i32) -> u32
    ensures { TrackLeft (set_channel track.old channel) result track.new }
{
    leave_track(state::set_channel(*track, channel), track)
}

// How many steps apart a controller's curve is written. Refuses 4.
pub fn dollavir_set_cc_on_time_freq(track: &mut Track, freq: i32) -> u32
    ensures { TrackLeft (set_cc_freq track.old freq) result track.new }
{
    leave_track(state::set_cc_on_time_freq(*track, freq), track)
}

// The same of a bend's curve. Refuses 4.
pub fn dollavir_set_pb_on_time_freq(track: &mut Track, freq: i32) -> u32
    ensures { TrackLeft (set_pb_freq track.old freq) result track.new }
{
    leave_track(state::set_pb_on_time_freq(*track, freq), track)
}

// ---- a target's option
// What is set for a target. Leaves it in `option`, with nothing set where it refuses. Refuses 2, 4.
pub fn dollavir_get_write_opt(track: &Track, target: i32, option: &mut WriteOption) -> u32
    ensures { OptionTold (option_for track.now target) result option.new }
{
    let r = drawing::get_write_opt(*track, target);
    *option = r.option;
    r.code
}

// How many steps later a target's events stand. Refuses 2, 4.
pub fn dollavir_set_delay(track: &mut Track, target: i32, delay: i32) -> u32
    ensures { TrackLeft (set_delay track.old target delay) result track.new }
{
    leave_track(drawing::set_delay(*track, target, delay), track)
}

// How far random moves a target's values; 0 or less is off. Refuses 2, 4.
pub fn dollavir_set_random(track: &mut Track, target: i32, random: i32) -> u32
    ensures { TrackLeft (set_random track.old target random) result track.new }
{
    leave_track(drawing::set_random(*track, target, random), track)
}

// The range to which a target's values are limited. Refuses 2, 4.
pub fn dollavir_set_range(track: &mut Track, target: i32, low: i32, high: i32) -> u32
    ensures { TrackLeft (set_range track.old target low high) result track.new }
{
    leave_track(drawing::set_range(*track, target, low, high), track)
}

// A target's values are limited no more. Refuses 2, 4.
pub fn dollavir_clear_range(track: &mut Track, target: i32) -> u32
    ensures { TrackLeft (clear_range track.old target) result track.new }
{
    leave_track(drawing::clear_range(*track, target), track)
}

// Whether a target's lists for notes go round, 0 or 1; it reaches the list that is stored too. Refuses 2, 4.
pub fn dollavir_set_repeat(track: &mut Track, target: i32, on: u32) -> u32
    ensures { TrackLeft (set_repeat track.old target on) result track.new }
{
    leave_track(drawing::set_repeat(*track, target, on), track)
}

// ---- writes at the track's time
// Writes a curve at the track's time: `list` is triples of a low, a high and a length. Answers the new count and the
// budget; the target's events within the curve's length are taken out, the new ones stand behind the others. Refuses
// 1, 2, 3, 4, 7.
pub fn dollavir_write_on_time(
    track: &Track,
    target: i32,
    list: &[i32],
    budget: &mut Budget,
    events: &mut [i64],
    count: &mut usize,
    store: &[u8],
) -> u32
    ensures { Written (draw_answer (on_time track.now target list.now budget.old events.old count.old (length store.now)))
        (draw_left (on_time track.now target list.now budget.old events.old count.old (length store.now)))
        result count.new budget.new events.new }
{
    let r = drawing::write_on_time(*track, target, list, *budget, events, *count, store);
    leave_outcome(r, count, budget)
}

// `write_on_time` of a controller by its number. Refuses 1, 2, 3, 4, 7.
pub fn dollavir_write_cc_on_time(
    track: &Track,
    number: i32,
    list: &[i32],
    budget: &mut Budget,
    events: &mut [i64],
    count: &mut usize,
    store: &[u8],
) -> u32
    ensures { Written (draw_answer (on_time track.now (cc_target number) list.now budget.old events.old count.old (length store.now)))
        (draw_left (on_time track.now (cc_target number) list.now budget.old events.old count.old (length store.now)))
        result count.new budget.new events.new }
{
    let r = drawing::write_cc_on_time(*track, number, list, *budget, events, *count, store);
    leave_outcome(r, count, budget)
}

// `write_on_time` of the bend. Refuses 1, 3, 4, 7.
pub fn dollavir_write_pb_on_time(
    track: &Track,
    big: i32,
    list: &[i32],
    budget: &mut Budget,
    events: &mut [i64],
    count: &mut usize,
    store: &[u8],
) -> u32
    ensures { Written (draw_answer (on_time track.now (pb_target big) list.now budget.old events.old count.old (length store.now)))
        (draw_left (on_time track.now (pb_target big) list.now budget.old events.old count.old (length store.now)))
        result count.new budget.new events.new }
{
    let r = drawing::write_pb_on_time(*track, big, list, *budget, events, *count, store);
    leave_outcome(r, count, budget)
}

// Writes a sine at the track's time, `times` turns of `len` steps from `low` to `high`; `shape` is 0 for a full turn,
// 1 and 2 for the quarter up and down. Answers and leaves as `write_on_time`; a length of 0 or less changes nothing,
// times of 0 or less count once. Refuses 1, 2, 4, 7.
pub fn dollavir_write_sine(
    track: &Track,
    target: i32,
    shape: u32,
    low: i32,
    high: i32,
    len: i32,
    times: i32,
    budget: &mut Budget,
    events: &mut [i64],
    count: &mut usize,
    store: &[u8],
) -> u32
    ensures { Written (draw_answer (on_sine track.now (sine_for target shape low high len times) budget.old events.old count.old (length store.now)))
        (draw_left (on_sine track.now (sine_for target shape low high len times) budget.old events.old count.old (length store.now)))
        result count.new budget.new events.new }
{
    let r = drawing::write_sine(
        *track, target, shape, low, high, len, times, *budget, events, *count, store,
    );
    leave_outcome(r, count, budget)
}

// ---- what is reserved for a target
// Takes out the reservations of a target, of all four kinds. Answers the track. Refuses 1, 2, 4.
pub fn dollavir_remove_reserve(track: &mut Track, cycles: &mut [Cycle], target: i32) -> u32
    ensures { Reserved (remove_reserve track.old (length cycles.old) cycles.old target) result track.new cycles.new }
{
    leave_track(loans::remove_reserve(*track, cycles, target), track)
}

// Reserves a list of numbers for a target, one for each note, in place of what is reserved for it. Answers the track.
// Refuses 1, 2, 3, 4, 6.
pub fn dollavir_set_on_note(
    track: &mut Track,
    cycles: &mut [Cycle],
    target: i32,
    list: &[i32],
) -> u32
    ensures { Reserved (set_on_note track.old (length cycles.old) cycles.old target list.now)
        result track.new cycles.new }
{
    leave_track(loans::set_on_note(*track, cycles, target, list), track)
}

// Reserves a wave for a target: `list` is triples of a low, a high and a length. Answers the track. Refuses 1, 2, 3,
// 4, 6.
pub fn dollavir_set_on_note_wave(
    track: &mut Track,
    cycles: &mut [Cycle],
    target: i32,
    mode: u32,
    list: &[i32],
) -> u32
    ensures { Reserved (set_on_note_wave track.old (length cycles.old) cycles.old target mode list.now)
        result track.new cycles.new }
{
    let r = loans::set_on_note_wave(*track, cycles, target, mode, list);
    leave_track(r, track)
}

// Reserves a sine for a target, which it must name. Answers the track. Refuses 1, 2, 4, 6.
pub fn dollavir_set_on_note_sine(
    track: &mut Track,
    cycles: &mut [Cycle],
    target: i32,
    sine: OnNoteSine,
) -> u32
    ensures { Reserved (set_on_note_sine track.old (length cycles.old) cycles.old target sine)
        result track.new cycles.new }
{
    leave_track(loans::set_on_note_sine(*track, cycles, target, sine), track)
}

// Reserves a cycle of `list` for a target, one number every `len` steps from the track's time on; it comes last in
// the table. A length of 0 or less, or no number, only takes the target's reservations out. Answers the track.
// Refuses 1, 2, 3, 4, 6.
pub fn dollavir_set_on_cycle(
    track: &mut Track,
    cycles: &mut [Cycle],
    target: i32,
    len: i32,
    list: &[i32],
) -> u32
    ensures { Reserved (set_on_cycle track.old (length cycles.old) cycles.old target len list.now)
        result track.new cycles.new }
{
    let r = loans::set_on_cycle(*track, cycles, target, len, list);
    leave_track(r, track)
}

// The older calls. `remove_reserve` of a controller. Refuses 1, 2, 4.
pub fn dollavir_remove_cc_on(track: &mut Track, cycles: &mut [Cycle], number: i32) -> u32
    ensures { Reserved (remove_cc_on track.old (length cycles.old) cycles.old number) result track.new cycles.new }
{
    let r = loans::remove_reserve(*track, cycles, drawing::cc_target(number));
    leave_track(r, track)
}

// `set_on_note` of a controller. Refuses 1, 2, 3, 4, 6.
pub fn dollavir_set_cc_on_note(
    track: &mut Track,
    cycles: &mut [Cycle],
    number: i32,
    list: &[i32],
) -> u32
    ensures { Reserved (set_cc_on_note track.old (length cycles.old) cycles.old number list.now)
        result track.new cycles.new }
{
    let r = loans::set_on_note(*track, cycles, drawing::cc_target(number), list);
    leave_track(r, track)
}

// `set_on_note_wave` of a controller, the wave used as it is. Refuses 1, 2, 3, 4, 6.
pub fn dollavir_set_cc_on_note_wave(
    track: &mut Track,
    cycles: &mut [Cycle],
    number: i32,
    list: &[i32],
) -> u32
    ensures { Reserved (set_cc_on_note_wave track.old (length cycles.old) cycles.old number list.now)
        result track.new cycles.new }
{
    let r = loans::set_on_note_wave(*track, cycles, drawing::cc_target(number), NORMAL, list);
    leave_track(r, track)
}

// `set_on_note_wave` of a bend by its argument, the wave used as it is. Refuses 1, 3, 4, 6.
pub fn dollavir_set_pb_on_note_wave(
    track: &mut Track,
    cycles: &mut [Cycle],
    big: i32,
    list: &[i32],
) -> u32
    ensures { Reserved (set_pb_on_note_wave track.old (length cycles.old) cycles.old big list.now)
        result track.new cycles.new }
{
    let r = loans::set_on_note_wave(*track, cycles, drawing::pb_target(big), NORMAL, list);
    leave_track(r, track)
}

// `remove_reserve` of both bends. Refuses 1, 4.
pub fn dollavir_remove_pb_on_note_wave(track: &mut Track, cycles: &mut [Cycle]) -> u32
    ensures { Reserved (remove_pb_on_note_wave track.old (length cycles.old) cycles.old) result track.new cycles.new }
{
    leave_track(loans::remove_reserve(*track, cycles, BENDS), track)
}

// No list for notes stays reserved for a controller; what is of another kind stays. Refuses 2, 4.
pub fn dollavir_remove_cc_on_note(track: &mut Track, number: i32) -> u32
    ensures { TrackLeft (remove_cc_on_note track.old number) result track.new }
{
    leave_track(reserving::remove_cc_on_note(*track, number), track)
}

// No wave and no sine stays reserved for a controller; what is of another kind stays. Refuses 2, 4.
pub fn dollavir_remove_cc_on_note_wave(track: &mut Track, number: i32) -> u32
    ensures { TrackLeft (remove_cc_on_note_wave track.old number) result track.new }
{
    leave_track(reserving::remove_cc_on_note_wave(*track, number), track)
}

// ---- writes at notes and cycles
// Writes what a track's lists have for a note that starts at `start`: the events stand behind the list's own, and
// each list that wrote is one further. Answers the count, the budget and the track afterwards. A write that does not
// fit sets the flag and ends the call; else lists that are used up and do not go round are taken out. Refuses 1, 4,
// 7; then all is left as it is.
pub fn dollavir_write_cc_on_note(
    track: &mut Track,
    start: i64,
    budget: &mut Budget,
    events: &mut [i64],
    count: &mut usize,
) -> u32
    ensures { NoteWritten (noted track.old start budget.old events.old count.old)
        (list_left track.old start budget.old events.old count.old)
        result count.new budget.new track.new events.new }
{
    let r = noting::write_cc_on_note(*track, start, *budget, events, *count);
    *count = r.count;
    *budget = r.budget;
    *track = r.track;
    r.code
}

// Writes the waves and then the sines that are reserved for the track's notes, over a note from `start` to the
// track's time; they stop once the flag is set. Answers the count of events and the budget after them, and leaves the
// events in the list; the track stays as it is. Refuses 1, 4, 7; then list, count and budget are those that were
// handed in.
pub fn dollavir_write_cc_on_note_wave(
    track: &Track,
    start: i64,
    budget: &mut Budget,
    events: &mut [i64],
    count: &mut usize,
    store: &[u8],
) -> u32
    ensures { Written (note_written (length store.now) track.now start budget.old events.old count.old)
        (note_left (length store.now) track.now start budget.old events.old count.old)
        result count.new budget.new events.new }
{
    let r = waving::write_cc_on_note_wave(*track, start, *budget, events, *count, store);
    leave_outcome(r, count, budget)
}

// Makes the writes of the track's cycles that are due up to `until`, as `cycling::write_cc_on_cycle` does, over a
// cycle table and a budget that are lent: the records are advanced in place. Answers the new count. Refuses 1, 4, 7;
// then all that was lent is left.
pub fn dollavir_write_cc_on_cycle(
    track: &Track,
    cycles: &mut [Cycle],
    until: i64,
    budget: &mut Budget,
    events: &mut [i64],
    count: &mut usize,
) -> u32
    ensures { CycleWritten (cycled_of track.now (length cycles.old) cycles.old until budget.old events.old count.old)
        (cycled_list track.now (length cycles.old) cycles.old until budget.old events.old count.old)
        result count.new budget.new cycles.new events.new }
{
    let r = lending::write_cc_on_cycle(*track, cycles, until, budget, events, *count);
    *count = r.count;
    r.code
}

// ---- a controller's value
// The value of controller `number` on the track's channel at its time: that of the last such event in list order at
// or before it, or the controller's default. Leaves it in `value`, 0 where it refuses. Refuses 1, 2, 4.
pub fn dollavir_current_cc_value(
    track: &Track,
    number: i32,
    events: &[i64],
    count: usize,
    store: &[u8],
    value: &mut i64,
) -> u32
    ensures { CcTold (cc_of_track (length store.now) track.now number events.now count) result value.new }
{
    let r = track::current_cc_value(*track, number, events, count, store);
    *value = r.value;
    r.code
}

// ---- the event list
// Takes out the bends from `start` to `end`, that time included. Answers the new count; the others keep their order,
// and the places that fall vacant are zeroed. Refuses 1, 4; then the list is left as it is.
pub fn dollavir_remove_pitch_bend_in_range(
    events: &mut [i64],
    count: &mut usize,
    start: i64,
    end: i64,
    store: &[u8],
) -> u32
    ensures { ListLeft (bends_taken (length store.now) events.old count.old start end)
        (bends_left (length store.now) events.old count.old start end)
        result count.new events.new }
{
    let r = eventlist::remove_pitch_bend_in_range(events, *count, start, end, store);
    leave_count(r, count)
}

// Sorts the list by time; events of one time keep their order. Answers 0, or refuses 1, 4; then the list is left as
// it is.
pub fn dollavir_events_sort(events: &mut [i64], count: usize, store: &[u8]) -> u32
    ensures { (result ≡ sort_refusal (length store.now) events.old count) × (events.new ≡ sort_left (length store.now) events.old count) }
{
    sorting::events_sort(events, count, store)
}

// Puts the list's events at the front of `out`, after each note its end, and leaves their number in `out_count`.
// Beyond them `out` is left as it is. Refuses 1, 4, 7; then all of `out` is left as it is, and `out_count` is
// `count`.
pub fn dollavir_split_note_off(
    events: &[i64],
    count: usize,
    out: &mut [i64],
    store: &[u8],
    out_count: &mut usize,
) -> u32
    ensures { ListLeft (split_taken (length store.now) events.now count out.old)
        (split_left (length store.now) events.now count out.old 0)
        result out_count.new out.new }
{
    leave_count(notes::split_note_off(events, count, out, store), out_count)
}

// Puts after each note of the list its end, and answers the new count. Refuses 1, 4, 7; then the list is left as it
// is.
pub fn dollavir_normalize(events: &mut [i64], count: &mut usize, store: &[u8]) -> u32
    ensures { ListLeft (split_taken (length store.now) events.old count.old events.old)
        (split_left (length store.now) events.old count.old events.old count.old)
        result count.new events.new }
{
    leave_count(notes::normalize(events, *count, store), count)
}

// Cuts off what is before `cut`: the events that are kept count their time from it, and after them stand, at time 0,
// the controllers and the program as they were by the last of each in list order. Answers the new count; the places
// that fall vacant are zeroed. Refuses 1, 4; then the list is left as it is.
pub fn dollavir_play_from(events: &mut [i64], count: &mut usize, cut: i64, store: &[u8]) -> u32
    ensures { ListLeft (cut_taken (length store.now) events.old count.old (plain cut))
        (cut_left (length store.now) events.old count.old (plain cut))
        result count.new events.new }
{
    leave_count(cutting::play_from(events, *count, cut, store), count)
}

// The cut with its bends: those from `cut` on are kept, and what is folded stands first, the bend too. Of each
// controller, of the program and of the bend the latest event before `cut` counts, whatever the list's order, and of
// equal times the later in the list; the channel is that of the latest controller or program. A negative value of the
// latest unsets, but a bend counts whatever its value, on its own channel. Answers the new count; the places that
// fall vacant are zeroed. Refuses 1, 4; then the list is left as it is.
pub fn dollavir_full_cut(events: &mut [i64], count: &mut usize, cut: i64, store: &[u8]) -> u32
    ensures { ListLeft (cut_taken (length store.now) events.old count.old (whole cut))
        (cut_left (length store.now) events.old count.old (whole cut))
        result count.new events.new }
{
    leave_count(cutting::full_cut(events, *count, cut, store), count)
}

// ---- a file's track chunk
// Writes the events as a track chunk of Standard MIDI Files 1.0 at the start of `out`, with full status on every
// event and the end of track last. Leaves in `bytes` how many bytes the chunk has, 0 where it refuses; what stands in
// `out` behind them is left. Refuses 1, 4; 10 a list that is not in order, whose first time is below 0 or that has a
// gap above 268,435,455; 11 a kind that is not written, or a field outside its width; 12 an output that is too short.
// Then all of `out` is left as it is.
pub fn dollavir_write_chunk(
    events: &[i64],
    count: usize,
    store: &[u8],
    out: &mut [u8],
    bytes: &mut usize,
) -> u32
    ensures { ChunkLeft (chunk_written (length store.now) events.now count (length out.old))
        (chunk_left (length store.now) events.now count out.old)
        result bytes.new out.new }
{
    let r = chunks::write_chunk(events, count, store, out);
    *bytes = r.bytes;
    r.code
}

// Reads a track chunk of Standard MIDI Files 1.0 into the list, which then holds the chunk's events in order and
// nothing else: NoteOn, NoteOff, controllers, programs and bends, with running status; Meta, system exclusive and
// aftertouch are stepped over, and their times count. A note's end is a NoteOff of velocity 0. Leaves in `count` how
// many events the list has. Refuses 1; 13 bytes that are no track chunk, or not as many as it says; 14 an event that
// is cut short or faulty; 15 no end of track, or bytes behind it; 7; 4 an event later than 2^42. Then the list and
// the count are left as they are.
pub fn dollavir_read_chunk(chunk: &[u8], events: &mut [i64], count: &mut usize) -> u32
    ensures { ListLeft (read_taken chunk.now events.old count.old)
        (read_left chunk.now events.old count.old)
        result count.new events.new }
{
    leave_count(reader::read_chunk(chunk, events, *count), count)
}

// ---- the rehearsal player's profile
// Leaves in `yes` whether the rehearsal player accepts the list: 1 where its controllers are 1, 7, 10, 11 and 64
// only, at most one of each at a time, its bends 0 to 16,383, all its events but Meta, SysEx and DirectSMF on one
// channel, and its times from 0 on and never falling; else 0, as where it refuses. Refuses 1, 4.
pub fn dollavir_check_profile(events: &[i64], count: usize, store: &[u8], yes: &mut u32) -> u32
    ensures { ProfileTold (check_answer (length store.now) events.now count) result yes.new }
{
    let r = profile::check_profile(events, count, store);
    *yes = r.yes;
    r.code
}

// Fits the list to the rehearsal player: sorts it by time, events of one time in their order, and drops controllers
// but 1, 7, 10, 11 and 64, bends outside 0 to 16,383, and of a controller's events at one time all but the last.
// Leaves the new count in `count`; the places that fall vacant are zeroed. Refuses 1, 4, then 17 more than one
// channel (Meta, SysEx and DirectSMF not counted), then 18 a time below 0, each asked of the list handed in; then the
// list and the count are left as they are.
pub fn dollavir_fit_profile(events: &mut [i64], count: &mut usize, store: &[u8]) -> u32
    ensures { ListLeft (fit_taken (length store.now) events.old count.old)
        (fit_left (length store.now) events.old count.old)
        result count.new events.new }
{
    leave_count(profile::fit_profile(events, *count, store), count)
}

// ---- the track's parameters and layers
// A note's velocity at the track's time, of the curve or cycle that is reserved, or the default; a curve that is over
// goes. Leaves it in `value`, 0 where it refuses. Refuses 4.
pub fn dollavir_calc_v_on_time(track: &mut Track, def: i32, value: &mut i32) -> u32
    ensures { ValueLeft (value_on_time velocity track.old def) result value.new track.new }
{
    leave_value(playing::calc_v_on_time(*track, def), value, track)
}

// The same of a note's timing. Leaves it in `value`, 0 where it refuses. Refuses 4.
pub fn dollavir_calc_t_on_time(track: &mut Track, def: i32, value: &mut i32) -> u32
    ensures { ValueLeft (value_on_time timing track.old def) result value.new track.new }
{
    leave_value(playing::calc_t_on_time(*track, def), value, track)
}

// The same of a note's gate. Leaves it in `value`, 0 where it refuses. Refuses 4.
pub fn dollavir_calc_qlen_on_time(track: &mut Track, def: i32, value: &mut i32) -> u32
    ensures { ValueLeft (value_on_time gate track.old def) result value.new track.new }
{
    leave_value(playing::calc_qlen_on_time(*track, def), value, track)
}

// The same of a note's octave. Leaves it in `value`, 0 where it refuses. Refuses 4.
pub fn dollavir_calc_o_on_time(track: &mut Track, def: i32, value: &mut i32) -> u32
    ensures { ValueLeft (value_on_time octave track.old def) result value.new track.new }
{
    leave_value(playing::calc_o_on_time(*track, def), value, track)
}

// The same of a note's length. Leaves it in `value`, 0 where it refuses. Refuses 4.
pub fn dollavir_calc_l_on_time(track: &mut Track, def: i32, value: &mut i32) -> u32
    ensures { ValueLeft (value_on_time span track.old def) result value.new track.new }
{
    leave_value(playing::calc_l_on_time(*track, def), value, track)
}

// A note's velocity, the next of the list that is reserved, or the default; a list that is spent goes. While the list
// is there, the value is the track's velocity too. Leaves it in `value`, 0 where it refuses. Refuses 4.
pub fn dollavir_calc_v_on_note(track: &mut Track, def: i32, value: &mut i32) -> u32
    ensures { ValueLeft (value_on_note velocity track.old def) result value.new track.new }
{
    leave_value(playing::calc_v_on_note(*track, def), value, track)
}

// The same of a note's timing. Leaves it in `value`, 0 where it refuses. Refuses 4.
pub fn dollavir_calc_t_on_note(track: &mut Track, def: i32, value: &mut i32) -> u32
    ensures { ValueLeft (value_on_note timing track.old def) result value.new track.new }
{
    leave_value(playing::calc_t_on_note(*track, def), value, track)
}

// The same of a note's gate, which is no longer one in steps then. Leaves it in `value`, 0 where it refuses. Refuses
// 4.
pub fn dollavir_calc_qlen_on_note(track: &mut Track, def: i32, value: &mut i32) -> u32
    ensures { ValueLeft (value_on_note gate track.old def) result value.new track.new }
{
    leave_value(playing::calc_qlen_on_note(*track, def), value, track)
}

// The same of a note's octave. Leaves it in `value`, 0 where it refuses. Refuses 4.
pub fn dollavir_calc_o_on_note(track: &mut Track, def: i32, value: &mut i32) -> u32
    ensures { ValueLeft (value_on_note octave track.old def) result value.new track.new }
{
    leave_value(playing::calc_o_on_note(*track, def), value, track)
}

// The same of a note's length, which the track does not keep. Leaves it in `value`, 0 where it refuses. Refuses 4.
pub fn dollavir_calc_l_on_note(track: &mut Track, def: i32, value: &mut i32) -> u32
    ensures { ValueLeft (value_on_note span track.old def) result value.new track.new }
{
    leave_value(playing::calc_l_on_note(*track, def), value, track)
}

// A layer's value; nothing stays reserved for it. Refuses 4, 5.
pub fn dollavir_set_v_sub(track: &mut Track, index: usize, velocity: i32) -> u32
    ensures { TrackLeft (on_layers track.old (set_v_sub track.old.layers index velocity)) result track.new }
{
    leave_track(playing::set_v_sub(*track, index, velocity), track)
}

// A layer's random width. Refuses 4, 5.
pub fn dollavir_set_v_sub_random(track: &mut Track, index: usize, random: i32) -> u32
    ensures { TrackLeft (on_layers track.old (set_v_sub_random track.old.layers index random)) result track.new }
{
    leave_track(playing::set_v_sub_random(*track, index, random), track)
}

// Reserves a curve for a layer, from the track's time and the velocity parameter's delay on. Refuses 3, 4, 5.
pub fn dollavir_set_v_sub_on_time(track: &mut Track, index: usize, values: &[i32]) -> u32
    ensures { TrackLeft (on_layers track.old (set_v_sub_on_time track.old.layers index track.old.timepos track.old.v.delay values.now))
        result track.new }
{
    leave_track(playing::set_v_sub_on_time(*track, index, values), track)
}

// Reserves a cycle for a layer, its length and then its values; nothing, where there is no value. Refuses 3, 4, 5.
pub fn dollavir_set_v_sub_on_cycle(track: &mut Track, index: usize, args: &[i32]) -> u32
    ensures { TrackLeft (on_layers track.old (set_v_sub_on_cycle track.old.layers index track.old.timepos track.old.v.delay args.now))
        result track.new }
{
    leave_track(playing::set_v_sub_on_cycle(*track, index, args), track)
}

// Reserves a value of a layer for each of the next notes, round and round where the velocity parameter's repeat
// stands. Refuses 3, 4, 5.
pub fn dollavir_set_v_sub_on_note(track: &mut Track, index: usize, values: &[i32]) -> u32
    ensures { TrackLeft (on_layers track.old (set_v_sub_on_note track.old.layers index track.old.v.repeat values.now))
        result track.new }
{
    leave_track(playing::set_v_sub_on_note(*track, index, values), track)
}

// A note's velocity at the track's time: the given one and what every layer adds to it. The layers come back
// advanced. Leaves it in `value`, 0 where it refuses. Refuses 4.
pub fn dollavir_apply_v_sub(track: &mut Track, velocity: i32, value: &mut i64) -> u32
    ensures { VelocityLeft (summed_up track.old (apply_v_sub track.old.layers track.old.timepos velocity))
        result value.new track.new }
{
    let r = playing::apply_v_sub(*track, velocity);
    *value = r.value;
    *track = r.track;
    r.code
}

// The setters of a parameter, `which` by its number; any other number refuses 4. Reserves a curve, low, high and
// length by threes, from the track's time and the parameter's delay on. Refuses 3, 4.
pub fn dollavir_set_param_on_time(track: &mut Track, which: u32, values: &[i32]) -> u32
    ensures { TrackLeft (on_param which track.old (set_on_time (param_of which track.old) track.old.timepos values.now))
        result track.new }
{
    leave_track(playing::set_param_on_time(*track, which, values), track)
}

// Reserves a cycle, its length and then its values, from there on; nothing, where there is no value. Refuses 3, 4.
pub fn dollavir_set_param_on_cycle(track: &mut Track, which: u32, args: &[i32]) -> u32
    ensures { TrackLeft (on_param which track.old (params_set_on_cycle (param_of which track.old) track.old.timepos args.now))
        result track.new }
{
    leave_track(playing::set_param_on_cycle(*track, which, args), track)
}

// Reserves a value for each of the next notes, round and round where repeat stands. Refuses 3, 4.
pub fn dollavir_set_param_on_note(track: &mut Track, which: u32, values: &[i32]) -> u32
    ensures { TrackLeft (on_param which track.old (params_set_on_note (param_of which track.old) values.now)) result track.new }
{
    leave_track(playing::set_param_on_note(*track, which, values), track)
}

// Nothing stays reserved. Refuses 4.
pub fn dollavir_clear_param_reserve(track: &mut Track, which: u32) -> u32
    ensures { TrackLeft (on_param which track.old (clear_reserve (param_of which track.old))) result track.new }
{
    leave_track(playing::clear_param_reserve(*track, which), track)
}

// The random width of a value. Refuses 4.
pub fn dollavir_set_param_random(track: &mut Track, which: u32, random: i32) -> u32
    ensures { TrackLeft (on_param which track.old (params_set_random (param_of which track.old) random)) result track.new }
{
    leave_track(playing::set_param_random(*track, which, random), track)
}

// The range of a value. Refuses 4.
pub fn dollavir_set_param_range(track: &mut Track, which: u32, low: i32, high: i32) -> u32
    ensures { TrackLeft (on_param which track.old (params_set_range (param_of which track.old) low high)) result track.new }
{
    leave_track(playing::set_param_range(*track, which, low, high), track)
}

// No range. Refuses 4.
pub fn dollavir_clear_param_range(track: &mut Track, which: u32) -> u32
    ensures { TrackLeft (on_param which track.old (params_clear_range (param_of which track.old))) result track.new }
{
    leave_track(playing::clear_param_range(*track, which), track)
}

// The delay of what is reserved from now on. Refuses 4.
pub fn dollavir_set_param_delay(track: &mut Track, which: u32, delay: i32) -> u32
    ensures { TrackLeft (on_param which track.old (params_set_delay (param_of which track.old) delay)) result track.new }
{
    leave_track(playing::set_param_delay(*track, which, delay), track)
}

// The maximum of a value. Refuses 4.
pub fn dollavir_set_param_max(track: &mut Track, which: u32, max: i32) -> u32
    ensures { TrackLeft (on_param which track.old (set_max (param_of which track.old) max)) result track.new }
{
    leave_track(playing::set_param_max(*track, which, max), track)
}

// No maximum. Refuses 4.
pub fn dollavir_clear_param_max(track: &mut Track, which: u32) -> u32
    ensures { TrackLeft (on_param which track.old (clear_max (param_of which track.old))) result track.new }
{
    leave_track(playing::clear_param_max(*track, which), track)
}

// Whether a list that is reserved from now on goes round: 0 or 1. Refuses 4.
pub fn dollavir_set_param_repeat(track: &mut Track, which: u32, repeat: u32) -> u32
    ensures { TrackLeft (on_param which track.old (params_set_repeat (param_of which track.old) repeat)) result track.new }
{
    leave_track(playing::set_param_repeat(*track, which, repeat), track)
}

// ---- events
// A note of a length and a velocity. Refuses 4.
pub fn dollavir_event_note(time: i64, channel: i64, number: i64, len: i64, vel: i64) -> Made
    ensures { result ≡ made 0 (note_event time channel number len vel) }
{
    Event::note(time, channel, number, len, vel)
}

// A program. Refuses 4.
pub fn dollavir_event_voice(time: i64, channel: i64, value: i64) -> Made
    ensures { result ≡ made 0 (voice_event time channel value) }
{
    Event::voice(time, channel, value)
}

// A controller's value. Refuses 2 a number that is no controller's, then 4.
pub fn dollavir_event_cc(time: i64, channel: i64, number: i64, value: i64) -> Made
    ensures { result ≡ made_cc time channel number value }
{
    Event::cc(time, channel, number, value)
}

// A bend. Refuses 4.
pub fn dollavir_event_pitch_bend(time: i64, channel: i64, value: i64) -> Made
    ensures { result ≡ made 0 (pitch_bend_event time channel value) }
{
    Event::pitch_bend(time, channel, value)
}

// A bend's range. Refuses 4.
pub fn dollavir_event_pitch_bend_range(time: i64, channel: i64, value: i64) -> Made
    ensures { result ≡ made 0 (pitch_bend_range_event time channel value) }
{
    Event::pitch_bend_range(time, channel, value)
}

// A meta event, its data the `len` bytes of `store` from `offset` on. Refuses 4.
pub fn dollavir_event_meta(
    time: i64,
    v1: i64,
    v2: i64,
    v3: i64,
    offset: i64,
    len: i64,
    store: &[u8],
) -> Made
    ensures { result ≡ made (length store.now) (meta_event time v1 v2 v3 offset len) }
{
    Event::meta(time, v1, v2, v3, offset, len, store)
}

// Bytes of `store` that are written as they stand. Refuses 4.
pub fn dollavir_event_direct_smf(time: i64, offset: i64, len: i64, store: &[u8]) -> Made
    ensures { result ≡ made (length store.now) (direct_smf_event time offset len) }
{
    Event::direct_smf(time, offset, len, store)
}

// A system exclusive message of bytes of `store`. Refuses 4.
pub fn dollavir_event_sysex_raw(time: i64, offset: i64, len: i64, store: &[u8]) -> Made
    ensures { result ≡ made (length store.now) (sysex_event time offset len) }
{
    Event::sysex_raw(time, offset, len, store)
}

// The bytes that an event counts in the budget. Refuses 4 an event that may not be stored beside `store`.
pub fn dollavir_event_bytes(event: &Event, store: &[u8], bytes: &mut usize) -> u32
    ensures { SizeTold (size_of (length store.now) event.now) result bytes.new }
{
    let r = event.estimated_midi_bytes(store);
    *bytes = r.bytes;
    r.code
}

// ---- a note parameter of its own
// Nothing reserved, no option set.
pub fn dollavir_param_new() -> NoteParam
    ensures { result ≡ fresh }
{
    NoteParam::new()
}

// Nothing stays reserved. Refuses 4.
pub fn dollavir_param_clear_reserve(param: &mut NoteParam) -> u32
    ensures { ParamLeft (clear_reserve param.old) result param.new }
{
    leave_param(param.clear_reserve(), param)
}

// 1 where something is reserved, else 0. Leaves it in `value`, 0 where it refuses. Refuses 4.
pub fn dollavir_param_has_reserve(param: &NoteParam, value: &mut i32) -> u32
    ensures { ParamTold (has_reserve param.now) result value.new }
{
    leave_told(param.has_reserve(), value)
}

// Reserves a curve, low, high and length by threes, from `timepos` and the delay on. Refuses 3, 4.
pub fn dollavir_param_set_on_time(param: &mut NoteParam, timepos: i64, values: &[i32]) -> u32
    ensures { ParamLeft (set_on_time param.old timepos values.now) result param.new }
{
    leave_param(param.set_on_time(timepos, values), param)
}

// Reserves a cycle, its length and then its values, from `timepos` and the delay on; nothing, where there is no
// value. Refuses 3, 4.
pub fn dollavir_param_set_on_cycle(param: &mut NoteParam, timepos: i64, args: &[i32]) -> u32
    ensures { ParamLeft (params_set_on_cycle param.old timepos args.now) result param.new }
{
    leave_param(param.set_on_cycle(timepos, args), param)
}

// Reserves a value for each of the next notes, round and round where repeat stands. Refuses 3, 4.
pub fn dollavir_param_set_on_note(param: &mut NoteParam, values: &[i32]) -> u32
    ensures { ParamLeft (params_set_on_note param.old values.now) result param.new }
{
    leave_param(param.set_on_note(values), param)
}

// The value of the reserved curve or cycle at `timepos`, or the default; a curve that is over goes. Leaves it in
// `value`, 0 where it refuses. Refuses 4.
pub fn dollavir_param_calc_on_time(
    param: &mut NoteParam,
    timepos: i64,
    def: i32,
    value: &mut i32,
) -> u32
    ensures { ParamTaken (calc_on_time param.old timepos def) result value.new param.new }
{
    leave_param_value(param.calc_on_time(timepos, def), value, param)
}

// The next value of the reserved list, or the default; a list that is spent goes. Leaves it in `value`, 0 where it
// refuses. Refuses 4.
pub fn dollavir_param_calc_on_note(param: &mut NoteParam, def: i32, value: &mut i32) -> u32
    ensures { ParamTaken (calc_on_note param.old def) result value.new param.new }
{
    leave_param_value(param.calc_on_note(def), value, param)
}

// A value limited by the range and then by the maximum, where there is one. Leaves it in `limited`, 0 where it
// refuses. Refuses 4.
pub fn dollavir_param_apply_limit(param: &NoteParam, value: i32, limited: &mut i32) -> u32
    ensures { ParamTold (apply_limit param.now value) result limited.new }
{
    leave_told(param.apply_limit(value), limited)
}

// The maximum, or the default where there is none. Leaves it in `value`, 0 where it refuses. Refuses 4.
pub fn dollavir_param_max_or(param: &NoteParam, def: i32, value: &mut i32) -> u32
    ensures { ParamTold (maximum_or param.now def) result value.new }
{
    leave_told(param.max_or(def), value)
}

// The random width of a value. Refuses 4.
pub fn dollavir_param_set_random(param: &mut NoteParam, random: i32) -> u32
    ensures { ParamLeft (params_set_random param.old random) result param.new }
{
    leave_param(param.set_random(random), param)
}

// The range of a value. Refuses 4.
pub fn dollavir_param_set_range(param: &mut NoteParam, low: i32, high: i32) -> u32
    ensures { ParamLeft (params_set_range param.old low high) result param.new }
{
    leave_param(param.set_range(low, high), param)
}

// No range. Refuses 4.
pub fn dollavir_param_clear_range(param: &mut NoteParam) -> u32
    ensures { ParamLeft (params_clear_range param.old) result param.new }
{
    leave_param(param.clear_range(), param)
}

// The delay of what is reserved from now on. Refuses 4.
pub fn dollavir_param_set_delay(param: &mut NoteParam, delay: i32) -> u32
    ensures { ParamLeft (params_set_delay param.old delay) result param.new }
{
    leave_param(param.set_delay(delay), param)
}

// The maximum of a value. Refuses 4.
pub fn dollavir_param_set_max(param: &mut NoteParam, max: i32) -> u32
    ensures { ParamLeft (set_max param.old max) result param.new }
{
    leave_param(param.set_max(max), param)
}

// No maximum. Refuses 4.
pub fn dollavir_param_clear_max(param: &mut NoteParam) -> u32
    ensures { ParamLeft (clear_max param.old) result param.new }
{
    leave_param(param.clear_max(), param)
}

// Whether a list that is reserved from now on goes round: 0 or 1. Refuses 4.
pub fn dollavir_param_set_repeat(param: &mut NoteParam, repeat: u32) -> u32
    ensures { ParamLeft (params_set_repeat param.old repeat) result param.new }
{
    leave_param(param.set_repeat(repeat), param)
}

// ---- velocity layers of their own
// One layer, with nothing set.
pub fn dollavir_layers_new() -> Layers
    ensures { result ≡ one_layer }
{
    Layers::new()
}

// A layer's value; nothing stays reserved for it. Refuses 4, 5.
pub fn dollavir_layers_set_v_sub(layers: &mut Layers, index: usize, velocity: i32) -> u32
    ensures { LayersLeft (set_v_sub layers.old index velocity) result layers.new }
{
    leave_layers(layers.set_v_sub(index, velocity), layers)
}

// A layer's random width. Refuses 4, 5.
pub fn dollavir_layers_set_v_sub_random(layers: &mut Layers, index: usize, random: i32) -> u32
    ensures { LayersLeft (set_v_sub_random layers.old index random) result layers.new }
{
    leave_layers(layers.set_v_sub_random(index, random), layers)
}

// Reserves a curve for a layer, from `timepos` and the velocity parameter's delay on. Refuses 3, 4, 5.
pub fn dollavir_layers_set_v_sub_on_time(
    layers: &mut Layers,
    index: usize,
    timepos: i64,
    delay: i32,
    values: &[i32],
) -> u32
    ensures { LayersLeft (set_v_sub_on_time layers.old index timepos delay values.now) result layers.new }
{
    let r = layers.set_v_sub_on_time(index, timepos, delay, values);
    leave_layers(r, layers)
}

// Reserves a cycle for a layer, its length and then its values, from `timepos` and the velocity parameter's delay on;
// nothing, where there is no value. Refuses 3, 4, 5.
pub fn dollavir_layers_set_v_sub_on_cycle(
    layers: &mut Layers,
    index: usize,
    timepos: i64,
    delay: i32,
    args: &[i32],
) -> u32
    ensures { LayersLeft (set_v_sub_on_cycle layers.old index timepos delay args.now) result layers.new }
{
    let r = layers.set_v_sub_on_cycle(index, timepos, delay, args);
    leave_layers(r, layers)
}

// Reserves a value of a layer for each of the next notes, round and round where the velocity parameter's repeat
// stands. Refuses 3, 4, 5.
pub fn dollavir_layers_set_v_sub_on_note(
    layers: &mut Layers,
    index: usize,
    repeat: u32,
    values: &[i32],
) -> u32
    ensures { LayersLeft (set_v_sub_on_note layers.old index repeat values.now) result layers.new }
{
    leave_layers(layers.set_v_sub_on_note(index, repeat, values), layers)
}

// A note's velocity at `timepos`: the given one and what every layer adds to it. The layers come back advanced.
// Leaves it in `value`, 0 where it refuses. Refuses 4.
pub fn dollavir_layers_apply_v_sub(
    layers: &mut Layers,
    timepos: i64,
    velocity: i32,
    value: &mut i64,
) -> u32
    ensures { LayersSum (apply_v_sub layers.old timepos velocity) result value.new layers.new }
{
    let r = layers.apply_v_sub(timepos, velocity);
    *value = r.value;
    *layers = r.layers;
    r.code
}

// ---- a cycle over time of its own
// The value of a cycle at `timepos`, and in `found` whether it has one: none before the start, and none of a cycle
// without values or with a length of 0 or less. Leaves it in `value`, 0 where it refuses. Refuses 4.
pub fn dollavir_cycle_time_calc(
    cycle: &OnCycleTime,
    timepos: i64,
    found: &mut u32,
    value: &mut i32,
) -> u32
    ensures { TimeTold (told_of (calc_of cycle.now timepos)) result found.new value.new }
{
    let r = cycle_time_calc(*cycle, timepos);
    *found = r.found;
    *value = r.value;
    r.code
}

// ---- the kind of a sine
// The kind of a sine that a number names, as `write_sine` takes it: 1 and 2 the quarters up and down, any other number the full
// turn, which is 0. Refuses nothing.
pub fn dollavir_sine_type(v: i32) -> u32
    ensures { result ≡ number_of (sine_type v) }
{
    SineType::from_i(i64::from(v)) as u32
}
