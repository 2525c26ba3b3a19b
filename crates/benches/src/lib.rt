// Calls under plain names, for bench/main.rs to link beside the original: the list's, each of which answers the list's
// new count, or the number of its refusal above every count; the value of a curve; and, in `tracks`, the track's.
#![tactic(auto)]

pub mod tracks;

use cutting::{full_cut, play_from};
use eventlist::{Taken, remove_pitch_bend_in_range};
use notes::normalize;
use numbers::is_number;
use shapes::curve_value;
use sorting::events_sort;

// Above every count.
const REFUSED: usize = 4294967296;

// Above every value.
const NO_VALUE: i64 = 4294967296;

// The longest curve.
const LONGEST: u64 = 1048576;

fn count_of(t: Taken) -> usize {
    if t.code != 0 { REFUSED } else { t.count }
}

#[unsafe(no_mangle)]
pub extern "C" fn bench_remove_pitch_bend_in_range(
    events: &mut [i64],
    count: usize,
    start: i64,
    end: i64,
    store: &[u8],
) -> usize {
    count_of(remove_pitch_bend_in_range(events, count, start, end, store))
}

#[unsafe(no_mangle)]
pub extern "C" fn bench_play_from(
    events: &mut [i64],
    count: usize,
    cut: i64,
    store: &[u8],
) -> usize {
    count_of(play_from(events, count, cut, store))
}

#[unsafe(no_mangle)]
pub extern "C" fn bench_full_cut(
    events: &mut [i64],
    count: usize,
    cut: i64,
    store: &[u8],
) -> usize {
    count_of(full_cut(events, count, cut, store))
}

#[unsafe(no_mangle)]
pub extern "C" fn bench_normalize(events: &mut [i64], count: usize, store: &[u8]) -> usize {
    count_of(normalize(events, count, store))
}

#[unsafe(no_mangle)]
pub extern "C" fn bench_events_sort(events: &mut [i64], count: usize, store: &[u8]) -> usize {
    if events_sort(events, count, store) != 0 {
        REFUSED
    } else {
        count
    }
}

// The value at step `j` of a curve of length `len`; above every value where a number is out of its range.
#[unsafe(no_mangle)]
pub extern "C" fn bench_curve_value(low: i32, high: i32, j: u64, len: u64) -> i64 {
    if is_number(low) && is_number(high) && j < len && len <= LONGEST {
        curve_value(i64::from(low), i64::from(high), j, len)
    } else {
        NO_VALUE
    }
}
