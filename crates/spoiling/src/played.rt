// Numbers of a note parameter, and of a velocity layer.
use crate::marks::{place_of, put_item};
use layers::Layer;
use params::NoteParam;
use script::args::as_i32;

// 908: start, length and index of the reservation, random, low, high, delay, maximum, and the numbers of the list.
pub fn put_param(param: &mut NoteParam, k: usize, value: i64) {
    let x = as_i32(value);
    match k {
        0 => param.reserve.start = value,
        1 => param.reserve.length = x,
        2 => param.reserve.index = place_of(value),
        3 => param.random = x,
        4 => param.low = x,
        5 => param.high = x,
        6 => param.delay = x,
        7 => param.max = x,
        _ => put_item(&mut param.reserve.values, k - 8, value),
    }
}

// 909: value and random.
pub fn put_layer(layers: &mut [Layer], place: usize, k: usize, value: i64) {
    if let Some(layer) = layers.get_mut(place) {
        match k {
            0 => layer.value = as_i32(value),
            _ => layer.random = as_i32(value),
        }
    }
}
