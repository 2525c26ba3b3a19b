// The functions of `ctrack` under C's names, as a static library. Each hands on what it is handed to the function of its name and promises
// what that promises; what a function does is said there. Written by tools/ctrack_c.py.
#![tactic(auto)]

ghost use Rattle.std.specs.Prelude.{◌≡◌, length};
ghost use Rattle.state.specs.Calls.{new_of, set_timepos, set_channel, set_cc_freq, set_pb_freq};
ghost use Rattle.budget.specs.Budgets.{new_budget};
ghost use Rattle.cycles.specs.Rules.{no_cycle};
ghost use Rattle.values.specs.Options.{new_option};
ghost use Rattle.tables.specs.Tables.{new_sine};
ghost use Rattle.reserved.specs.Setting.{new_cycle_time};
ghost use Rattle.laws.specs.Integers.{range_of};
ghost use Rattle.drawing.specs.Options.{option_for, set_delay, set_random, set_range, clear_range, set_repeat};
ghost use Rattle.params.specs.Calls.{set_delay as params_set_delay, set_random as params_set_random, set_range as params_set_range, clear_range as params_clear_range, set_repeat as params_set_repeat, set_on_note as params_set_on_note, set_on_cycle as params_set_on_cycle, set_on_time, clear_reserve, set_max, clear_max, has_reserve, calc_on_time, calc_on_note, apply_limit, maximum_or};
ghost use Rattle.drawing.specs.Calls.{on_time, draw_answer, draw_left, cc_target, pb_target, sine_for, on_sine};
ghost use Rattle.reserving.specs.Setting.{remove_reserve, set_on_note, set_on_note_wave, set_on_note_sine, set_on_cycle};
ghost use Rattle.reserving.specs.Old.{remove_cc_on, set_cc_on_note, set_cc_on_note_wave, set_pb_on_note_wave, remove_pb_on_note_wave, remove_cc_on_note, remove_cc_on_note_wave};
ghost use Rattle.noting.specs.Calls.{noted, list_left};
ghost use Rattle.waving.specs.Calls.{note_written, note_left};
ghost use Rattle.cycling.specs.Calls.{cycled_of, cycled_list};
ghost use Rattle.track.specs.Reading.{cc_of_track};
ghost use Rattle.eventlist.specs.Bends.{bends_taken, bends_left};
ghost use Rattle.sorting.specs.Sorting.{sort_refusal, sort_left};
ghost use Rattle.notes.specs.Notes.{split_taken, split_left};
ghost use Rattle.cutting.specs.Cuts.{cut_taken, cut_left, plain, whole};
ghost use Rattle.chunks.specs.Writing.{chunk_written, chunk_left};
ghost use Rattle.reader.specs.Reading.{read_taken, read_left};
ghost use Rattle.profile.specs.Calls.{check_answer, fit_taken, fit_left};
ghost use Rattle.playing.specs.Which.{velocity, timing, gate, octave, span, param_of};
ghost use Rattle.playing.specs.Calls.{value_on_time, value_on_note, on_layers, summed_up, on_param};
ghost use Rattle.layers.specs.Calls.{set_v_sub, set_v_sub_random, set_v_sub_on_time, set_v_sub_on_cycle, set_v_sub_on_note, apply_v_sub};
ghost use Rattle.events.specs.Events.{note_event, made, voice_event, made_cc, pitch_bend_event, pitch_bend_range_event, meta_event, direct_smf_event, sysex_event, size_of};
ghost use Rattle.params.specs.Param.{fresh};
ghost use Rattle.layers.specs.Layers.{one_layer};
ghost use Rattle.reserved.specs.Cycle.{calc_of};
ghost use Rattle.ctrack.specs.Kinds.{told_of};
ghost use Rattle.sines.specs.Kinds.{number_of, sine_type};
ghost use Rattle.ctrack.specs.Lent.{TrackLeft, OptionTold, Written, Reserved, NoteWritten, CycleWritten, CcTold, ListLeft, ChunkLeft, ProfileTold, ValueLeft, VelocityLeft, SizeTold, ParamLeft, ParamTold, ParamTaken, LayersLeft, LayersSum, TimeTold};

use budget::{Budget, BudgetAnswer};
use cycles::Cycle;
use events::{Event, Made};
use layers::Layers;
use params::NoteParam;
use reserved::{CycleTimeAnswer, OnCycleTime};
use state::{Track, TrackAnswer};
use tables::{OnNoteSine, SineAnswer};
use values::WriteOption;

// ---- new records: a track, a budget, an unused cycle, an option, a sine, a cycle over time
#[unsafe(no_mangle)]
pub extern "C" fn dollavir_track_new(timebase: i32, channel: i32) -> TrackAnswer
    ensures { result ≡ new_of timebase channel }
{
    ctrack::dollavir_track_new(timebase, channel)
}

#[unsafe(no_mangle)]
pub extern "C" fn dollavir_budget_new(seed: u32, maximum: u32) -> BudgetAnswer
    ensures { result ≡ new_budget seed maximum }
{
    ctrack::dollavir_budget_new(seed, maximum)
}

#[unsafe(no_mangle)]
pub extern "C" fn dollavir_cycle_none() -> Cycle
    ensures { result ≡ no_cycle }
{
    ctrack::dollavir_cycle_none()
}

#[unsafe(no_mangle)]
pub extern "C" fn dollavir_write_option_new() -> WriteOption
    ensures { result ≡ new_option }
{
    ctrack::dollavir_write_option_new()
}

#[unsafe(no_mangle)]
pub extern "C" fn dollavir_on_note_sine_new(
    target: i32,
    shape: u32,
    low: i32,
    high: i32,
    len: i32,
    times: i32,
) -> SineAnswer
    ensures { result ≡ new_sine target shape low high len times }
{
    ctrack::dollavir_on_note_sine_new(target, shape, low, high, len, times)
}

#[unsafe(no_mangle)]
pub extern "C" fn dollavir_cycle_time_new(start: i64, len: i32, values: &[i32]) -> CycleTimeAnswer
    ensures { result ≡ new_cycle_time start len values.now }
{
    ctrack::dollavir_cycle_time_new(start, len, values)
}

// ---- a number in a range
#[unsafe(no_mangle)]
pub extern "C" fn dollavir_value_range(low: i64, v: i64, high: i64) -> i64
    ensures { result ≡ range_of low v high }
{
    ctrack::dollavir_value_range(low, v, high)
}

// ---- the track's own numbers
#[unsafe(no_mangle)]
pub extern "C" fn dollavir_set_timepos(track: &mut Track, timepos: i64) -> u32
    ensures { TrackLeft (set_timepos track.old timepos) result track.new }
{
    ctrack::dollavir_set_timepos(track, timepos)
}

#[unsafe(no_mangle)]
pub extern "C" fn dollavir_set_channel(track: &mut Track, channel: i32) -> u32
    ensures { TrackLeft (set_channel track.old channel) result track.new }
{
    ctrack::dollavir_set_channel(track, channel)
}

#[unsafe(no_mangle)]
pub extern "C" fn dollavir_set_cc_on_time_freq(track: &mut Track, freq: i32) -> u32
    ensures { TrackLeft (set_cc_freq track.old freq) result track.new }
{
    ctrack::dollavir_set_cc_on_time_freq(track, freq)
}

#[unsafe(no_mangle)]
pub extern "C" fn dollavir_set_pb_on_time_freq(track: &mut Track, freq: i32) -> u32
    ensures { TrackLeft (set_pb_freq track.old freq) result track.new }
{
    ctrack::dollavir_set_pb_on_time_freq(track, freq)
}

// ---- a target's option
#[unsafe(no_mangle)]
pub extern "C" fn dollavir_get_write_opt(
    track: &Track,
    target: i32,
    option: &mut WriteOption,
) -> u32
    ensures { OptionTold (option_for track.now target) result option.new }
{
    ctrack::dollavir_get_write_opt(track, target, option)
}

#[unsafe(no_mangle)]
pub extern "C" fn dollavir_set_delay(track: &mut Track, target: i32, delay: i32) -> u32
    ensures { TrackLeft (set_delay track.old target delay) result track.new }
{
    ctrack::dollavir_set_delay(track, target, delay)
}

#[unsafe(no_mangle)]
pub extern "C" fn dollavir_set_random(track: &mut Track, target: i32, random: i32) -> u32
    ensures { TrackLeft (set_random track.old target random) result track.new }
{
    ctrack::dollavir_set_random(track, target, random)
}

#[unsafe(no_mangle)]
pub extern "C" fn dollavir_set_range(track: &mut Track, target: i32, low: i32, high: i32) -> u32
    ensures { TrackLeft (set_range track.old target low high) result track.new }
{
    ctrack::dollavir_set_range(track, target, low, high)
}

#[unsafe(no_mangle)]
pub extern "C" fn dollavir_clear_range(track: &mut Track, target: i32) -> u32
    ensures { TrackLeft (clear_range track.old target) result track.new }
{
    ctrack::dollavir_clear_range(track, target)
}

#[unsafe(no_mangle)]
pub extern "C" fn dollavir_set_repeat(track: &mut Track, target: i32, on: u32) -> u32
    ensures { TrackLeft (set_repeat track.old target on) result track.new }
{
    ctrack::dollavir_set_repeat(track, target, on)
}

// ---- writes at the track's time
#[unsafe(no_mangle)]
pub extern "C" fn dollavir_write_on_time(
    track: &Track,
    target: i32,
    list: &[i32],
    budget: &mut Budget,
    events: &mut [i64],
    count: &mut usize,
    store: &[u8],
) -> u32
    ensures { Written (draw_answer (on_time track.now target list.now budget.old events.old count.old (length store.now)))
        (draw_left (on_time track.now target list.now budget.old events.old count.old (length store.now)))
        result count.new budget.new events.new }
{
    ctrack::dollavir_write_on_time(track, target, list, budget, events, count, store)
}

#[unsafe(no_mangle)]
pub extern "C" fn dollavir_write_cc_on_time(
    track: &Track,
    number: i32,
    list: &[i32],
    budget: &mut Budget,
    events: &mut [i64],
    count: &mut usize,
    store: &[u8],
) -> u32
    ensures { Written (draw_answer (on_time track.now (cc_target number) list.now budget.old events.old count.old (length store.now)))
        (draw_left (on_time track.now (cc_target number) list.now budget.old events.old count.old (length store.now)))
        result count.new budget.new events.new }
{
    ctrack::dollavir_write_cc_on_time(track, number, list, budget, events, count, store)
}

#[unsafe(no_mangle)]
pub extern "C" fn dollavir_write_pb_on_time(
    track: &Track,
    big: i32,
    list: &[i32],
    budget: &mut Budget,
    events: &mut [i64],
    count: &mut usize,
    store: &[u8],
) -> u32
    ensures { Written (draw_answer (on_time track.now (pb_target big) list.now budget.old events.old count.old (length store.now)))
        (draw_left (on_time track.now (pb_target big) list.now budget.old events.old count.old (length store.now)))
        result count.new budget.new events.new }
{
    ctrack::dollavir_write_pb_on_time(track, big, list, budget, events, count, store)
}

#[unsafe(no_mangle)]
pub extern "C" fn dollavir_write_sine(
    track: &Track,
    target: i32,
    shape: u32,
    low: i32,
    high: i32,
    len: i32,
    times: i32,
    budget: &mut Budget,
    events: &mut [i64],
    count: &mut usize,
    store: &[u8],
) -> u32
    ensures { Written (draw_answer (on_sine track.now (sine_for target shape low high len times) budget.old events.old count.old (length store.now)))
        (draw_left (on_sine track.now (sine_for target shape low high len times) budget.old events.old count.old (length store.now)))
        result count.new budget.new events.new }
{
    ctrack::dollavir_write_sine(
        track, target, shape, low, high, len, times, budget, events, count, store,
    )
}

// ---- what is reserved for a target
#[unsafe(no_mangle)]
pub extern "C" fn dollavir_remove_reserve(
    track: &mut Track,
    cycles: &mut [Cycle],
    target: i32,
) -> u32
    ensures { Reserved (remove_reserve track.old (length cycles.old) cycles.old target) result track.new cycles.new }
{
    ctrack::dollavir_remove_reserve(track, cycles, target)
}

#[unsafe(no_mangle)]
pub extern "C" fn dollavir_set_on_note(
    track: &mut Track,
    cycles: &mut [Cycle],
    target: i32,
    list: &[i32],
) -> u32
    ensures { Reserved (set_on_note track.old (length cycles.old) cycles.old target list.now)
        result track.new cycles.new }
{
    ctrack::dollavir_set_on_note(track, cycles, target, list)
}

#[unsafe(no_mangle)]
pub extern "C" fn dollavir_set_on_note_wave(
    track: &mut Track,
    cycles: &mut [Cycle],
    target: i32,
    mode: u32,
    list: &[i32],
) -> u32
    ensures { Reserved (set_on_note_wave track.old (length cycles.old) cycles.old target mode list.now)
        result track.new cycles.new }
{
    ctrack::dollavir_set_on_note_wave(track, cycles, target, mode, list)
}

#[unsafe(no_mangle)]
pub extern "C" fn dollavir_set_on_note_sine(
    track: &mut Track,
    cycles: &mut [Cycle],
    target: i32,
    sine: OnNoteSine,
) -> u32
    ensures { Reserved (set_on_note_sine track.old (length cycles.old) cycles.old target sine)
        result track.new cycles.new }
{
    ctrack::dollavir_set_on_note_sine(track, cycles, target, sine)
}

#[unsafe(no_mangle)]
pub extern "C" fn dollavir_set_on_cycle(
    track: &mut Track,
    cycles: &mut [Cycle],
    target: i32,
    len: i32,
    list: &[i32],
) -> u32
    ensures { Reserved (set_on_cycle track.old (length cycles.old) cycles.old target len list.now)
        result track.new cycles.new }
{
    ctrack::dollavir_set_on_cycle(track, cycles, target, len, list)
}

#[unsafe(no_mangle)]
pub extern "C" fn dollavir_remove_cc_on(track: &mut Track, cycles: &mut [Cycle], number: i32) -> u32
    ensures { Reserved (remove_cc_on track.old (length cycles.old) cycles.old number) result track.new cycles.new }
{
    ctrack::dollavir_remove_cc_on(track, cycles, number)
}

#[unsafe(no_mangle)]
pub extern "C" fn dollavir_set_cc_on_note(
    track: &mut Track,
    cycles: &mut [Cycle],
    number: i32,
    list: &[i32],
) -> u32
    ensures { Reserved (set_cc_on_note track.old (length cycles.old) cycles.old number list.now)
        result track.new cycles.new }
{
    ctrack::dollavir_set_cc_on_note(track, cycles, number, list)
}

#[unsafe(no_mangle)]
pub extern "C" fn dollavir_set_cc_on_note_wave(
    track: &mut Track,
    cycles: &mut [Cycle],
    number: i32,
    list: &[i32],
) -> u32
    ensures { Reserved (set_cc_on_note_wave track.old (length cycles.old) cycles.old number list.now)
        result track.new cycles.new }
{
    ctrack::dollavir_set_cc_on_note_wave(track, cycles, number, list)
}

#[unsafe(no_mangle)]
pub extern "C" fn dollavir_set_pb_on_note_wave(
    track: &mut Track,
    cycles: &mut [Cycle],
    big: i32,
    list: &[i32],
) -> u32
    ensures { Reserved (set_pb_on_note_wave track.old (length cycles.old) cycles.old big list.now)
        result track.new cycles.new }
{
    ctrack::dollavir_set_pb_on_note_wave(track, cycles, big, list)
}

#[unsafe(no_mangle)]
pub extern "C" fn dollavir_remove_pb_on_note_wave(track: &mut Track, cycles: &mut [Cycle]) -> u32
    ensures { Reserved (remove_pb_on_note_wave track.old (length cycles.old) cycles.old) result track.new cycles.new }
{
    ctrack::dollavir_remove_pb_on_note_wave(track, cycles)
}

#[unsafe(no_mangle)]
pub extern "C" fn dollavir_remove_cc_on_note(track: &mut Track, number: i32) -> u32
    ensures { TrackLeft (remove_cc_on_note track.old number) result track.new }
{
    ctrack::dollavir_remove_cc_on_note(track, number)
}

#[unsafe(no_mangle)]
pub extern "C" fn dollavir_remove_cc_on_note_wave(track: &mut Track, number: i32) -> u32
    ensures { TrackLeft (remove_cc_on_note_wave track.old number) result track.new }
{
    ctrack::dollavir_remove_cc_on_note_wave(track, number)
}

// ---- writes at notes and cycles
#[unsafe(no_mangle)]
pub extern "C" fn dollavir_write_cc_on_note(
    track: &mut Track,
    start: i64,
    budget: &mut Budget,
    events: &mut [i64],
    count: &mut usize,
) -> u32
    ensures { NoteWritten (noted track.old start budget.old events.old count.old)
        (list_left track.old start budget.old events.old count.old)
        result count.new budget.new track.new events.new }
{
    ctrack::dollavir_write_cc_on_note(track, start, budget, events, count)
}

#[unsafe(no_mangle)]
pub extern "C" fn dollavir_write_cc_on_note_wave(
    track: &Track,
    start: i64,
    budget: &mut Budget,
    events: &mut [i64],
    count: &mut usize,
    store: &[u8],
) -> u32
    ensures { Written (note_written (length store.now) track.now start budget.old events.old count.old)
        (note_left (length store.now) track.now start budget.old events.old count.old)
        result count.new budget.new events.new }
{
    ctrack::dollavir_write_cc_on_note_wave(track, start, budget, events, count, store)
}

#[unsafe(no_mangle)]
pub extern "C" fn dollavir_write_cc_on_cycle(
    track: &Track,
    cycles: &mut [Cycle],
    until: i64,
    budget: &mut Budget,
    events: &mut [i64],
    count: &mut usize,
) -> u32
    ensures { CycleWritten (cycled_of track.now (length cycles.old) cycles.old until budget.old events.old count.old)
        (cycled_list track.now (length cycles.old) cycles.old until budget.old events.old count.old)
        result count.new budget.new cycles.new events.new }
{
    ctrack::dollavir_write_cc_on_cycle(track, cycles, until, budget, events, count)
}

// ---- a controller's value
#[unsafe(no_mangle)]
pub extern "C" fn dollavir_current_cc_value(
    track: &Track,
    number: i32,
    events: &[i64],
    count: usize,
    store: &[u8],
    value: &mut i64,
) -> u32
    ensures { CcTold (cc_of_track (length store.now) track.now number events.now count) result value.new }
{
    ctrack::dollavir_current_cc_value(track, number, events, count, store, value)
}

// ---- the event list
#[unsafe(no_mangle)]
pub extern "C" fn dollavir_remove_pitch_bend_in_range(
    events: &mut [i64],
    count: &mut usize,
    start: i64,
    end: i64,
    store: &[u8],
) -> u32
    ensures { ListLeft (bends_taken (length store.now) events.old count.old start end)
        (bends_left (length store.now) events.old count.old start end)
        result count.new events.new }
{
    ctrack::dollavir_remove_pitch_bend_in_range(events, count, start, end, store)
}

#[unsafe(no_mangle)]
pub extern "C" fn dollavir_events_sort(events: &mut [i64], count: usize, store: &[u8]) -> u32
    ensures { (result ≡ sort_refusal (length store.now) events.old count) × (events.new ≡ sort_left (length store.now) events.old count) }
{
    ctrack::dollavir_events_sort(events, count, store)
}

#[unsafe(no_mangle)]
pub extern "C" fn dollavir_split_note_off(
    events: &[i64],
    count: usize,
    out: &mut [i64],
    store: &[u8],
    out_count: &mut usize,
) -> u32
    ensures { ListLeft (split_taken (length store.now) events.now count out.old)
        (split_left (length store.now) events.now count out.old 0)
        result out_count.new out.new }
{
    ctrack::dollavir_split_note_off(events, count, out, store, out_count)
}

#[unsafe(no_mangle)]
pub extern "C" fn dollavir_normalize(events: &mut [i64], count: &mut usize, store: &[u8]) -> u32
    ensures { ListLeft (split_taken (length store.now) events.old count.old events.old)
        (split_left (length store.now) events.old count.old events.old count.old)
        result count.new events.new }
{
    ctrack::dollavir_normalize(events, count, store)
}

#[unsafe(no_mangle)]
pub extern "C" fn dollavir_play_from(
    events: &mut [i64],
    count: &mut usize,
    cut: i64,
    store: &[u8],
) -> u32
    ensures { ListLeft (cut_taken (length store.now) events.old count.old (plain cut))
        (cut_left (length store.now) events.old count.old (plain cut))
        result count.new events.new }
{
    ctrack::dollavir_play_from(events, count, cut, store)
}

#[unsafe(no_mangle)]
pub extern "C" fn dollavir_full_cut(
    events: &mut [i64],
    count: &mut usize,
    cut: i64,
    store: &[u8],
) -> u32
    ensures { ListLeft (cut_taken (length store.now) events.old count.old (whole cut))
        (cut_left (length store.now) events.old count.old (whole cut))
        result count.new events.new }
{
    ctrack::dollavir_full_cut(events, count, cut, store)
}

// ---- a file's track chunk
#[unsafe(no_mangle)]
pub extern "C" fn dollavir_write_chunk(
    events: &[i64],
    count: usize,
    store: &[u8],
    out: &mut [u8],
    bytes: &mut usize,
) -> u32
    ensures { ChunkLeft (chunk_written (length store.now) events.now count (length out.old))
        (chunk_left (length store.now) events.now count out.old)
        result bytes.new out.new }
{
    ctrack::dollavir_write_chunk(events, count, store, out, bytes)
}

#[unsafe(no_mangle)]
pub extern "C" fn dollavir_read_chunk(chunk: &[u8], events: &mut [i64], count: &mut usize) -> u32
    ensures { ListLeft (read_taken chunk.now events.old count.old)
        (read_left chunk.now events.old count.old)
        result count.new events.new }
{
    ctrack::dollavir_read_chunk(chunk, events, count)
}

// ---- the rehearsal player's profile
#[unsafe(no_mangle)]
pub extern "C" fn dollavir_check_profile(
    events: &[i64],
    count: usize,
    store: &[u8],
    yes: &mut u32,
) -> u32
    ensures { ProfileTold (check_answer (length store.now) events.now count) result yes.new }
{
    ctrack::dollavir_check_profile(events, count, store, yes)
}

#[unsafe(no_mangle)]
pub extern "C" fn dollavir_fit_profile(events: &mut [i64], count: &mut usize, store: &[u8]) -> u32
    ensures { ListLeft (fit_taken (length store.now) events.old count.old)
        (fit_left (length store.now) events.old count.old)
        result count.new events.new }
{
    ctrack::dollavir_fit_profile(events, count, store)
}

// ---- the track's parameters and layers
#[unsafe(no_mangle)]
pub extern "C" fn dollavir_calc_v_on_time(track: &mut Track, def: i32, value: &mut i32) -> u32
    ensures { ValueLeft (value_on_time velocity track.old def) result value.new track.new }
{
    ctrack::dollavir_calc_v_on_time(track, def, value)
}

#[unsafe(no_mangle)]
pub extern "C" fn dollavir_calc_t_on_time(track: &mut Track, def: i32, value: &mut i32) -> u32
    ensures { ValueLeft (value_on_time timing track.old def) result value.new track.new }
{
    ctrack::dollavir_calc_t_on_time(track, def, value)
}

#[unsafe(no_mangle)]
pub extern "C" fn dollavir_calc_qlen_on_time(track: &mut Track, def: i32, value: &mut i32) -> u32
    ensures { ValueLeft (value_on_time gate track.old def) result value.new track.new }
{
    ctrack::dollavir_calc_qlen_on_time(track, def, value)
}

#[unsafe(no_mangle)]
pub extern "C" fn dollavir_calc_o_on_time(track: &mut Track, def: i32, value: &mut i32) -> u32
    ensures { ValueLeft (value_on_time octave track.old def) result value.new track.new }
{
    ctrack::dollavir_calc_o_on_time(track, def, value)
}

#[unsafe(no_mangle)]
pub extern "C" fn dollavir_calc_l_on_time(track: &mut Track, def: i32, value: &mut i32) -> u32
    ensures { ValueLeft (value_on_time span track.old def) result value.new track.new }
{
    ctrack::dollavir_calc_l_on_time(track, def, value)
}

#[unsafe(no_mangle)]
pub extern "C" fn dollavir_calc_v_on_note(track: &mut Track, def: i32, value: &mut i32) -> u32
    ensures { ValueLeft (value_on_note velocity track.old def) result value.new track.new }
{
    ctrack::dollavir_calc_v_on_note(track, def, value)
}

#[unsafe(no_mangle)]
pub extern "C" fn dollavir_calc_t_on_note(track: &mut Track, def: i32, value: &mut i32) -> u32
    ensures { ValueLeft (value_on_note timing track.old def) result value.new track.new }
{
    ctrack::dollavir_calc_t_on_note(track, def, value)
}

#[unsafe(no_mangle)]
pub extern "C" fn dollavir_calc_qlen_on_note(track: &mut Track, def: i32, value: &mut i32) -> u32
    ensures { ValueLeft (value_on_note gate track.old def) result value.new track.new }
{
    ctrack::dollavir_calc_qlen_on_note(track, def, value)
}

#[unsafe(no_mangle)]
pub extern "C" fn dollavir_calc_o_on_note(track: &mut Track, def: i32, value: &mut i32) -> u32
    ensures { ValueLeft (value_on_note octave track.old def) result value.new track.new }
{
    ctrack::dollavir_calc_o_on_note(track, def, value)
}

#[unsafe(no_mangle)]
pub extern "C" fn dollavir_calc_l_on_note(track: &mut Track, def: i32, value: &mut i32) -> u32
    ensures { ValueLeft (value_on_note span track.old def) result value.new track.new }
{
    ctrack::dollavir_calc_l_on_note(track, def, value)
}

#[unsafe(no_mangle)]
pub extern "C" fn dollavir_set_v_sub(track: &mut Track, index: usize, velocity: i32) -> u32
    ensures { TrackLeft (on_layers track.old (set_v_sub track.old.layers index velocity)) result track.new }
{
    ctrack::dollavir_set_v_sub(track, index, velocity)
}

#[unsafe(no_mangle)]
pub extern "C" fn dollavir_set_v_sub_random(track: &mut Track, index: usize, random: i32) -> u32
    ensures { TrackLeft (on_layers track.old (set_v_sub_random track.old.layers index random)) result track.new }
{
    ctrack::dollavir_set_v_sub_random(track, index, random)
}

#[unsafe(no_mangle)]
pub extern "C" fn dollavir_set_v_sub_on_time(track: &mut Track, index: usize, values: &[i32]) -> u32
    ensures { TrackLeft (on_layers track.old (set_v_sub_on_time track.old.layers index track.old.timepos track.old.v.delay values.now))
        result track.new }
{
    ctrack::dollavir_set_v_sub_on_time(track, index, values)
}

#[unsafe(no_mangle)]
pub extern "C" fn dollavir_set_v_sub_on_cycle(track: &mut Track, index: usize, args: &[i32]) -> u32
    ensures { TrackLeft (on_layers track.old (set_v_sub_on_cycle track.old.layers index track.old.timepos track.old.v.delay args.now))
        result track.new }
{
    ctrack::dollavir_set_v_sub_on_cycle(track, index, args)
}

#[unsafe(no_mangle)]
pub extern "C" fn dollavir_set_v_sub_on_note(track: &mut Track, index: usize, values: &[i32]) -> u32
    ensures { TrackLeft (on_layers track.old (set_v_sub_on_note track.old.layers index track.old.v.repeat values.now))
        result track.new }
{
    ctrack::dollavir_set_v_sub_on_note(track, index, values)
}

#[unsafe(no_mangle)]
pub extern "C" fn dollavir_apply_v_sub(track: &mut Track, velocity: i32, value: &mut i64) -> u32
    ensures { VelocityLeft (summed_up track.old (apply_v_sub track.old.layers track.old.timepos velocity))
        result value.new track.new }
{
    ctrack::dollavir_apply_v_sub(track, velocity, value)
}

#[unsafe(no_mangle)]
pub extern "C" fn dollavir_set_param_on_time(track: &mut Track, which: u32, values: &[i32]) -> u32
    ensures { TrackLeft (on_param which track.old (set_on_time (param_of which track.old) track.old.timepos values.now))
        result track.new }
{
    ctrack::dollavir_set_param_on_time(track, which, values)
}

#[unsafe(no_mangle)]
pub extern "C" fn dollavir_set_param_on_cycle(track: &mut Track, which: u32, args: &[i32]) -> u32
    ensures { TrackLeft (on_param which track.old (params_set_on_cycle (param_of which track.old) track.old.timepos args.now))
        result track.new }
{
    ctrack::dollavir_set_param_on_cycle(track, which, args)
}

#[unsafe(no_mangle)]
pub extern "C" fn dollavir_set_param_on_note(track: &mut Track, which: u32, values: &[i32]) -> u32
    ensures { TrackLeft (on_param which track.old (params_set_on_note (param_of which track.old) values.now)) result track.new }
{
    ctrack::dollavir_set_param_on_note(track, which, values)
}

#[unsafe(no_mangle)]
pub extern "C" fn dollavir_clear_param_reserve(track: &mut Track, which: u32) -> u32
    ensures { TrackLeft (on_param which track.old (clear_reserve (param_of which track.old))) result track.new }
{
    ctrack::dollavir_clear_param_reserve(track, which)
}

#[unsafe(no_mangle)]
pub extern "C" fn dollavir_set_param_random(track: &mut Track, which: u32, random: i32) -> u32
    ensures { TrackLeft (on_param which track.old (params_set_random (param_of which track.old) random)) result track.new }
{
    ctrack::dollavir_set_param_random(track, which, random)
}

#[unsafe(no_mangle)]
pub extern "C" fn dollavir_set_param_range(
    track: &mut Track,
    which: u32,
    low: i32,
    high: i32,
) -> u32
    ensures { TrackLeft (on_param which track.old (params_set_range (param_of which track.old) low high)) result track.new }
{
    ctrack::dollavir_set_param_range(track, which, low, high)
}

#[unsafe(no_mangle)]
pub extern "C" fn dollavir_clear_param_range(track: &mut Track, which: u32) -> u32
    ensures { TrackLeft (on_param which track.old (params_clear_range (param_of which track.old))) result track.new }
{
    ctrack::dollavir_clear_param_range(track, which)
}

#[unsafe(no_mangle)]
pub extern "C" fn dollavir_set_param_delay(track: &mut Track, which: u32, delay: i32) -> u32
    ensures { TrackLeft (on_param which track.old (params_set_delay (param_of which track.old) delay)) result track.new }
{
    ctrack::dollavir_set_param_delay(track, which, delay)
}

#[unsafe(no_mangle)]
pub extern "C" fn dollavir_set_param_max(track: &mut Track, which: u32, max: i32) -> u32
    ensures { TrackLeft (on_param which track.old (set_max (param_of which track.old) max)) result track.new }
{
    ctrack::dollavir_set_param_max(track, which, max)
}

#[unsafe(no_mangle)]
pub extern "C" fn dollavir_clear_param_max(track: &mut Track, which: u32) -> u32
    ensures { TrackLeft (on_param which track.old (clear_max (param_of which track.old))) result track.new }
{
    ctrack::dollavir_clear_param_max(track, which)
}

#[unsafe(no_mangle)]
pub extern "C" fn dollavir_set_param_repeat(track: &mut Track, which: u32, repeat: u32) -> u32
    ensures { TrackLeft (on_param which track.old (params_set_repeat (param_of which track.old) repeat)) result track.new }
{
    ctrack::dollavir_set_param_repeat(track, which, repeat)
}

// ---- events
#[unsafe(no_mangle)]
pub extern "C" fn dollavir_event_note(
    time: i64,
    channel: i64,
    number: i64,
    len: i64,
    vel: i64,
) -> Made
    ensures { result ≡ made 0 (note_event time channel number len vel) }
{
    ctrack::dollavir_event_note(time, channel, number, len, vel)
}

#[unsafe(no_mangle)]
pub extern "C" fn dollavir_event_voice(time: i64, channel: i64, value: i64) -> Made
    ensures { result ≡ made 0 (voice_event time channel value) }
{
    ctrack::dollavir_event_voice(time, channel, value)
}

#[unsafe(no_mangle)]
pub extern "C" fn dollavir_event_cc(time: i64, channel: i64, number: i64, value: i64) -> Made
    ensures { result ≡ made_cc time channel number value }
{
    ctrack::dollavir_event_cc(time, channel, number, value)
}

#[unsafe(no_mangle)]
pub extern "C" fn dollavir_event_pitch_bend(time: i64, channel: i64, value: i64) -> Made
    ensures { result ≡ made 0 (pitch_bend_event time channel value) }
{
    ctrack::dollavir_event_pitch_bend(time, channel, value)
}

#[unsafe(no_mangle)]
pub extern "C" fn dollavir_event_pitch_bend_range(time: i64, channel: i64, value: i64) -> Made
    ensures { result ≡ made 0 (pitch_bend_range_event time channel value) }
{
    ctrack::dollavir_event_pitch_bend_range(time, channel, value)
}

#[unsafe(no_mangle)]
pub extern "C" fn dollavir_event_meta(
    time: i64,
    v1: i64,
    v2: i64,
    v3: i64,
    offset: i64,
    len: i64,
    store: &[u8],
) -> Made
    ensures { result ≡ made (length store.now) (meta_event time v1 v2 v3 offset len) }
{
    ctrack::dollavir_event_meta(time, v1, v2, v3, offset, len, store)
}

#[unsafe(no_mangle)]
pub extern "C" fn dollavir_event_direct_smf(time: i64, offset: i64, len: i64, store: &[u8]) -> Made
    ensures { result ≡ made (length store.now) (direct_smf_event time offset len) }
{
    ctrack::dollavir_event_direct_smf(time, offset, len, store)
}

#[unsafe(no_mangle)]
pub extern "C" fn dollavir_event_sysex_raw(time: i64, offset: i64, len: i64, store: &[u8]) -> Made
    ensures { result ≡ made (length store.now) (sysex_event time offset len) }
{
    ctrack::dollavir_event_sysex_raw(time, offset, len, store)
}

#[unsafe(no_mangle)]
pub extern "C" fn dollavir_event_bytes(event: &Event, store: &[u8], bytes: &mut usize) -> u32
    ensures { SizeTold (size_of (length store.now) event.now) result bytes.new }
{
    ctrack::dollavir_event_bytes(event, store, bytes)
}

// ---- a note parameter of its own
#[unsafe(no_mangle)]
pub extern "C" fn dollavir_param_new() -> NoteParam
    ensures { result ≡ fresh }
{
    ctrack::dollavir_param_new()
}

#[unsafe(no_mangle)]
pub extern "C" fn dollavir_param_clear_reserve(param: &mut NoteParam) -> u32
    ensures { ParamLeft (clear_reserve param.old) result param.new }
{
    ctrack::dollavir_param_clear_reserve(param)
}

#[unsafe(no_mangle)]
pub extern "C" fn dollavir_param_has_reserve(param: &NoteParam, value: &mut i32) -> u32
    ensures { ParamTold (has_reserve param.now) result value.new }
{
    ctrack::dollavir_param_has_reserve(param, value)
}

#[unsafe(no_mangle)]
pub extern "C" fn dollavir_param_set_on_time(
    param: &mut NoteParam,
    timepos: i64,
    values: &[i32],
) -> u32
    ensures { ParamLeft (set_on_time param.old timepos values.now) result param.new }
{
    ctrack::dollavir_param_set_on_time(param, timepos, values)
}

#[unsafe(no_mangle)]
pub extern "C" fn dollavir_param_set_on_cycle(
    param: &mut NoteParam,
    timepos: i64,
    args: &[i32],
) -> u32
    ensures { ParamLeft (params_set_on_cycle param.old timepos args.now) result param.new }
{
    ctrack::dollavir_param_set_on_cycle(param, timepos, args)
}

#[unsafe(no_mangle)]
pub extern "C" fn dollavir_param_set_on_note(param: &mut NoteParam, values: &[i32]) -> u32
    ensures { ParamLeft (params_set_on_note param.old values.now) result param.new }
{
    ctrack::dollavir_param_set_on_note(param, values)
}

#[unsafe(no_mangle)]
pub extern "C" fn dollavir_param_calc_on_time(
    param: &mut NoteParam,
    timepos: i64,
    def: i32,
    value: &mut i32,
) -> u32
    ensures { ParamTaken (calc_on_time param.old timepos def) result value.new param.new }
{
    ctrack::dollavir_param_calc_on_time(param, timepos, def, value)
}

#[unsafe(no_mangle)]
pub extern "C" fn dollavir_param_calc_on_note(
    param: &mut NoteParam,
    def: i32,
    value: &mut i32,
) -> u32
    ensures { ParamTaken (calc_on_note param.old def) result value.new param.new }
{
    ctrack::dollavir_param_calc_on_note(param, def, value)
}

#[unsafe(no_mangle)]
pub extern "C" fn dollavir_param_apply_limit(
    param: &NoteParam,
    value: i32,
    limited: &mut i32,
) -> u32
    ensures { ParamTold (apply_limit param.now value) result limited.new }
{
    ctrack::dollavir_param_apply_limit(param, value, limited)
}

#[unsafe(no_mangle)]
pub extern "C" fn dollavir_param_max_or(param: &NoteParam, def: i32, value: &mut i32) -> u32
    ensures { ParamTold (maximum_or param.now def) result value.new }
{
    ctrack::dollavir_param_max_or(param, def, value)
}

#[unsafe(no_mangle)]
pub extern "C" fn dollavir_param_set_random(param: &mut NoteParam, random: i32) -> u32
    ensures { ParamLeft (params_set_random param.old random) result param.new }
{
    ctrack::dollavir_param_set_random(param, random)
}

#[unsafe(no_mangle)]
pub extern "C" fn dollavir_param_set_range(param: &mut NoteParam, low: i32, high: i32) -> u32
    ensures { ParamLeft (params_set_range param.old low high) result param.new }
{
    ctrack::dollavir_param_set_range(param, low, high)
}

#[unsafe(no_mangle)]
pub extern "C" fn dollavir_param_clear_range(param: &mut NoteParam) -> u32
    ensures { ParamLeft (params_clear_range param.old) result param.new }
{
    ctrack::dollavir_param_clear_range(param)
}

#[unsafe(no_mangle)]
pub extern "C" fn dollavir_param_set_delay(param: &mut NoteParam, delay: i32) -> u32
    ensures { ParamLeft (params_set_delay param.old delay) result param.new }
{
    ctrack::dollavir_param_set_delay(param, delay)
}

#[unsafe(no_mangle)]
pub extern "C" fn dollavir_param_set_max(param: &mut NoteParam, max: i32) -> u32
    ensures { ParamLeft (set_max param.old max) result param.new }
{
    ctrack::dollavir_param_set_max(param, max)
}

#[unsafe(no_mangle)]
pub extern "C" fn dollavir_param_clear_max(param: &mut NoteParam) -> u32
    ensures { ParamLeft (clear_max param.old) result param.new }
{
    ctrack::dollavir_param_clear_max(param)
}

#[unsafe(no_mangle)]
pub extern "C" fn dollavir_param_set_repeat(param: &mut NoteParam, repeat: u32) -> u32
    ensures { ParamLeft (params_set_repeat param.old repeat) result param.new }
{
    ctrack::dollavir_param_set_repeat(param, repeat)
}

// ---- velocity layers of their own
#[unsafe(no_mangle)]
pub extern "C" fn dollavir_layers_new() -> Layers
    ensures { result ≡ one_layer }
{
    ctrack::dollavir_layers_new()
}

#[unsafe(no_mangle)]
pub extern "C" fn dollavir_layers_set_v_sub(layers: &mut Layers, index: usize, velocity: i32) -> u32
    ensures { LayersLeft (set_v_sub layers.old index velocity) result layers.new }
{
    ctrack::dollavir_layers_set_v_sub(layers, index, velocity)
}

#[unsafe(no_mangle)]
pub extern "C" fn dollavir_layers_set_v_sub_random(
    layers: &mut Layers,
    index: usize,
    random: i32,
) -> u32
    ensures { LayersLeft (set_v_sub_random layers.old index random) result layers.new }
{
    ctrack::dollavir_layers_set_v_sub_random(layers, index, random)
}

#[unsafe(no_mangle)]
pub extern "C" fn dollavir_layers_set_v_sub_on_time(
    layers: &mut Layers,
    index: usize,
    timepos: i64,
    delay: i32,
    values: &[i32],
) -> u32
    ensures { LayersLeft (set_v_sub_on_time layers.old index timepos delay values.now) result layers.new }
{
    ctrack::dollavir_layers_set_v_sub_on_time(layers, index, timepos, delay, values)
}

#[unsafe(no_mangle)]
pub extern "C" fn dollavir_layers_set_v_sub_on_cycle(
    layers: &mut Layers,
    index: usize,
    timepos: i64,
    delay: i32,
    args: &[i32],
) -> u32
    ensures { LayersLeft (set_v_sub_on_cycle layers.old index timepos delay args.now) result layers.new }
{
    ctrack::dollavir_layers_set_v_sub_on_cycle(layers, index, timepos, delay, args)
}

#[unsafe(no_mangle)]
pub extern "C" fn dollavir_layers_set_v_sub_on_note(
    layers: &mut Layers,
    index: usize,
    repeat: u32,
    values: &[i32],
) -> u32
    ensures { LayersLeft (set_v_sub_on_note layers.old index repeat values.now) result layers.new }
{
    ctrack::dollavir_layers_set_v_sub_on_note(layers, index, repeat, values)
}

#[unsafe(no_mangle)]
pub extern "C" fn dollavir_layers_apply_v_sub(
    layers: &mut Layers,
    timepos: i64,
    velocity: i32,
    value: &mut i64,
) -> u32
    ensures { LayersSum (apply_v_sub layers.old timepos velocity) result value.new layers.new }
{
    ctrack::dollavir_layers_apply_v_sub(layers, timepos, velocity, value)
}

// ---- a cycle over time of its own
#[unsafe(no_mangle)]
pub extern "C" fn dollavir_cycle_time_calc(
    cycle: &OnCycleTime,
    timepos: i64,
    found: &mut u32,
    value: &mut i32,
) -> u32
    ensures { TimeTold (told_of (calc_of cycle.now timepos)) result found.new value.new }
{
    ctrack::dollavir_cycle_time_calc(cycle, timepos, found, value)
}

// ---- the kind of a sine
#[unsafe(no_mangle)]
pub extern "C" fn dollavir_sine_type(v: i32) -> u32
    ensures { result ≡ number_of (sine_type v) }
{
    ctrack::dollavir_sine_type(v)
}
