// Numbers of what is reserved for targets.
use crate::marks::{place_of, put_item};
use cycles::Cycle;
use script::args::as_i32;
use tables::{OnNoteSine, OnNoteValues, OnNoteWave};

// 911: target, index, values.
pub fn put_note(notes: &mut [OnNoteValues], place: usize, k: usize, value: i64) {
    if let Some(note) = notes.get_mut(place) {
        match k {
            0 => note.target = as_i32(value),
            1 => note.index = place_of(value),
            _ => put_item(&mut note.values, k - 2, value),
        }
    }
}

// 912: target, values.
pub fn put_wave(waves: &mut [OnNoteWave], place: usize, k: usize, value: i64) {
    if let Some(wave) = waves.get_mut(place) {
        match k {
            0 => wave.target = as_i32(value),
            _ => put_item(&mut wave.values, k - 1, value),
        }
    }
}

// 913: target, low, high, length, times.
pub fn put_sine(sines: &mut [OnNoteSine], place: usize, k: usize, value: i64) {
    if let Some(sine) = sines.get_mut(place) {
        let x = as_i32(value);
        match k {
            0 => sine.target = x,
            1 => sine.low = x,
            2 => sine.high = x,
            3 => sine.length = x,
            _ => sine.times = x,
        }
    }
}

// 914: target, length, next, index, values.
pub fn put_cycle(cycles: &mut [Cycle], place: usize, k: usize, value: i64) {
    if let Some(cycle) = cycles.get_mut(place) {
        match k {
            0 => cycle.target = as_i32(value),
            1 => cycle.length = as_i32(value),
            2 => cycle.next = value,
            3 => cycle.index = place_of(value),
            _ => put_item(&mut cycle.values, k - 4, value),
        }
    }
}
