// The track's calls under plain names, for bench/main.rs: the track and the cycle table go in and come out by value.
use cycles::PLACES;
use tables::CycleTable;
use track::{
    Budget, CcValue, Cycled, Kept, Noted, OnNoteSine, Outcome, Track, TrackAnswer, TrackValue,
    TrackVelocity,
};

#[unsafe(no_mangle)]
pub extern "C" fn bench_new(timebase: i32, channel: i32) -> TrackAnswer {
    Track::new(timebase, channel)
}

// A track in and out with nothing asked of it: what handing it on costs.
#[unsafe(no_mangle)]
pub extern "C" fn bench_hand_on(track: Track) -> TrackAnswer {
    TrackAnswer { code: 0, track }
}

#[unsafe(no_mangle)]
pub extern "C" fn bench_set_timepos(track: Track, timepos: i64) -> TrackAnswer {
    track::set_timepos(track, timepos)
}

#[unsafe(no_mangle)]
pub extern "C" fn bench_set_frequencies(track: Track, controllers: i32, bends: i32) -> TrackAnswer {
    let r = track::set_cc_on_time_freq(track, controllers);
    track::set_pb_on_time_freq(r.track, bends)
}

#[unsafe(no_mangle)]
pub extern "C" fn bench_set_delay(track: Track, target: i32, delay: i32) -> TrackAnswer {
    track::set_delay(track, target, delay)
}

#[unsafe(no_mangle)]
pub extern "C" fn bench_set_random(track: Track, target: i32, random: i32) -> TrackAnswer {
    track::set_random(track, target, random)
}

#[unsafe(no_mangle)]
pub extern "C" fn bench_set_repeat(track: Track, target: i32, on: u32) -> TrackAnswer {
    track::set_repeat(track, target, on)
}

// A parameter's list, which goes round.
#[unsafe(no_mangle)]
pub extern "C" fn bench_set_param_on_note(track: Track, which: u32, values: &[i32]) -> TrackAnswer {
    let r = track::set_param_repeat(track, which, 1);
    track::set_param_on_note(r.track, which, values)
}

#[unsafe(no_mangle)]
pub extern "C" fn bench_set_on_note(
    track: Track,
    table: CycleTable,
    target: i32,
    list: &[i32],
) -> Kept {
    track::set_on_note(track, PLACES, table.items, target, list)
}

#[unsafe(no_mangle)]
pub extern "C" fn bench_set_on_note_wave(
    track: Track,
    table: CycleTable,
    target: i32,
    mode: u32,
    list: &[i32],
) -> Kept {
    track::set_on_note_wave(track, PLACES, table.items, target, mode, list)
}

#[unsafe(no_mangle)]
pub extern "C" fn bench_set_on_note_sine(
    track: Track,
    table: CycleTable,
    target: i32,
    sine: OnNoteSine,
) -> Kept {
    track::set_on_note_sine(track, PLACES, table.items, target, sine)
}

#[unsafe(no_mangle)]
pub extern "C" fn bench_set_on_cycle(
    track: Track,
    table: CycleTable,
    target: i32,
    length: i32,
    list: &[i32],
) -> Kept {
    track::set_on_cycle(track, PLACES, table.items, target, length, list)
}

#[unsafe(no_mangle)]
pub extern "C" fn bench_calc_v_on_note(track: Track, def: i32) -> TrackValue {
    track::calc_v_on_note(track, def)
}

#[unsafe(no_mangle)]
pub extern "C" fn bench_calc_t_on_note(track: Track, def: i32) -> TrackValue {
    track::calc_t_on_note(track, def)
}

#[unsafe(no_mangle)]
pub extern "C" fn bench_calc_qlen_on_note(track: Track, def: i32) -> TrackValue {
    track::calc_qlen_on_note(track, def)
}

#[unsafe(no_mangle)]
pub extern "C" fn bench_write_cc_on_note(
    track: Track,
    start: i64,
    budget: Budget,
    events: &mut [i64],
    count: usize,
) -> Noted {
    track::write_cc_on_note(track, start, budget, events, count)
}

#[unsafe(no_mangle)]
pub extern "C" fn bench_write_cc_on_note_wave(
    track: Track,
    start: i64,
    budget: Budget,
    events: &mut [i64],
    count: usize,
    store: &[u8],
) -> Outcome {
    track::write_cc_on_note_wave(track, start, budget, events, count, store)
}

#[unsafe(no_mangle)]
pub extern "C" fn bench_write_cc_on_time(
    track: Track,
    number: i32,
    list: &[i32],
    budget: Budget,
    events: &mut [i64],
    count: usize,
    store: &[u8],
) -> Outcome {
    track::write_cc_on_time(track, number, list, budget, events, count, store)
}

#[unsafe(no_mangle)]
pub extern "C" fn bench_write_sine(
    track: Track,
    sine: OnNoteSine,
    budget: Budget,
    events: &mut [i64],
    count: usize,
    store: &[u8],
) -> Outcome {
    track::write_sine(
        track,
        sine.target,
        sine.shape,
        sine.low,
        sine.high,
        sine.length,
        sine.times,
        budget,
        events,
        count,
        store,
    )
}

#[unsafe(no_mangle)]
pub extern "C" fn bench_write_cc_on_cycle(
    track: Track,
    table: CycleTable,
    until: i64,
    budget: Budget,
    events: &mut [i64],
    count: usize,
) -> Cycled {
    track::write_cc_on_cycle(track, PLACES, table.items, until, budget, events, count)
}

// ---- these are asked for their stack alone
#[unsafe(no_mangle)]
pub extern "C" fn bench_set_param_on_cycle(track: Track, which: u32, args: &[i32]) -> TrackAnswer {
    track::set_param_on_cycle(track, which, args)
}

#[unsafe(no_mangle)]
pub extern "C" fn bench_set_v_sub_on_cycle(
    track: Track,
    layer: usize,
    args: &[i32],
) -> TrackAnswer {
    track::set_v_sub_on_cycle(track, layer, args)
}

#[unsafe(no_mangle)]
pub extern "C" fn bench_apply_v_sub(track: Track, velocity: i32) -> TrackVelocity {
    track::apply_v_sub(track, velocity)
}

#[unsafe(no_mangle)]
pub extern "C" fn bench_calc_v_on_time(track: Track, def: i32) -> TrackValue {
    track::calc_v_on_time(track, def)
}

#[unsafe(no_mangle)]
pub extern "C" fn bench_remove_reserve(track: Track, table: CycleTable, target: i32) -> Kept {
    track::remove_reserve(track, PLACES, table.items, target)
}

#[unsafe(no_mangle)]
pub extern "C" fn bench_remove_cc_on_note_wave(track: Track, number: i32) -> TrackAnswer {
    track::remove_cc_on_note_wave(track, number)
}

#[unsafe(no_mangle)]
pub extern "C" fn bench_current_cc_value(
    track: Track,
    number: i32,
    events: &[i64],
    count: usize,
    store: &[u8],
) -> CcValue {
    track::current_cc_value(track, number, events, count, store)
}
