// Numbers of a target's option.
use script::args::{as_i32, as_u32};
use values::WriteOption;

// 910: delay, random, low, high, repeat.
pub fn put_option(options: &mut [WriteOption], key: usize, k: usize, value: i64) {
    if let Some(option) = options.get_mut(key) {
        let x = as_i32(value);
        match k {
            0 => option.delay = x,
            1 => option.random = x,
            2 => option.low = x,
            3 => option.high = x,
            _ => option.repeat = as_u32(value),
        }
    }
}
