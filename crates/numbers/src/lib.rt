// The numbers that a caller may hand in, and the two things that a write does to one: it limits it to a range
// and spreads it by random. Each range of document 01 has one test here, both ends included; callers test
// before they store or compute, so that nothing further in needs a `requires`.
#![tactic(auto, unfolding(crate::specs::Ranges::is_time, crate::specs::Ranges::is_stored_time, crate::specs::Ranges::is_event_time, crate::specs::Ranges::is_number, crate::specs::Ranges::is_length, crate::specs::Ranges::is_random, crate::specs::Ranges::is_sine_end, crate::specs::Ranges::is_controller, crate::specs::Ranges::is_bend, crate::specs::Ranges::is_target, crate::specs::Ranges::is_channel, crate::specs::Ranges::is_timebase, crate::specs::Ranges::is_word, crate::specs::Ranges::is_bytes, laws::specs::Integers::sized))]

mod refusals;

ghost use Rattle.std.specs.Prelude.{◌≡◌, ◌<◌, ◌^◌};
ghost use Rattle.std.specs.Int.Signed.{mag};
ghost use Rattle.laws.specs.Integers.{inside, range_of};
ghost use Rattle.numbers.specs.Random.{next_rand, spread};
ghost use Rattle.numbers.specs.Ranges.{is_time, is_stored_time, is_event_time, is_number, is_length, is_random, is_sine_end, is_controller, is_bend, is_target, is_channel, is_timebase, is_word, is_bytes};

pub use refusals::{Refusal, ask, code_of};

// Below `low` gives `low`, otherwise above `high` gives `high`, whichever of the two is the greater.
pub fn value_range(low: i64, v: i64, high: i64) -> i64
    ensures { result ≡ range_of low v high }
{
    // No `clamp`: that asks that `low` is not above `high`.
    if v < low {
        low
    } else if v > high {
        high
    } else {
        v
    }
}

// Whether `z` is from `low` to `high`.
pub fn within(low: i64, z: i64, high: i64) -> bool
    ensures { result ≡ inside low high z }
{
    (low..=high).contains(&z)
}

// A time, a cut or an `until`: within ±2^40.
pub fn is_time(z: i64) -> bool
    ensures { result ≡ is_time z }
{
    within(-1099511627776, z, 1099511627776)
}

// A stored start or next time: within ±2^41.
pub fn is_stored_time(z: i64) -> bool
    ensures { result ≡ is_stored_time z }
{
    within(-2199023255552, z, 2199023255552)
}

// The time of an event: within ±2^42.
pub fn is_event_time(z: i64) -> bool
    ensures { result ≡ is_event_time z }
{
    within(-4398046511104, z, 4398046511104)
}

// A list's number, a range's end, a velocity, timing, octave, qlen, default or maximum, a value to be limited:
// within ±2^22.
pub fn is_number(z: i32) -> bool
    ensures { result ≡ is_number z }
{
    within(-4194304, i64::from(z), 4194304)
}

// A length of a curve, wave, cycle or sine, a sine's times, a delay, a frequency: within ±2^20.
pub fn is_length(z: i32) -> bool
    ensures { result ≡ is_length z }
{
    within(-1048576, i64::from(z), 1048576)
}

// A random width: at most 2^20, with no lower end.
pub fn is_random(z: i32) -> bool
    ensures { result ≡ is_random z }
{
    z <= 1048576
}

// A sine's low or high.
pub fn is_sine_end(z: i32) -> bool
    ensures { result ≡ is_sine_end z }
{
    within(-16383, i64::from(z), 16383)
}

// The code of a target: a controller, 128 for bend 0, 129 for bend 1.
pub fn is_target(z: i32) -> bool
    ensures { result ≡ is_target z }
{
    within(0, i64::from(z), 129)
}

pub fn is_timebase(z: i32) -> bool
    ensures { result ≡ is_timebase z }
{
    within(1, i64::from(z), 32767)
}

// A track's channel.
pub fn channel_ok(z: i32) -> bool
    ensures { result ≡ is_channel z }
{
    is_channel(i64::from(z))
}

// An event's channel, controller number, and v1 to v3: an event holds i64.
pub fn is_channel(z: i64) -> bool
    ensures { result ≡ is_channel z }
{
    within(0, z, 15)
}

pub fn is_controller(z: i64) -> bool
    ensures { result ≡ is_controller z }
{
    within(0, z, 127)
}

// A bend that two data bytes hold.
pub fn is_bend(z: i64) -> bool
    ensures { result ≡ is_bend z }
{
    within(0, z, 16383)
}

pub fn is_word(z: i64) -> bool
    ensures { result ≡ is_word z }
{
    within(-2147483648, z, 2147483647)
}

// The budget's maximum, or its bytes used.
pub fn is_bytes(n: u32) -> bool
    ensures { result ≡ is_bytes n }
{
    n <= 67108864
}

// The random generator's next number, which is also its next seed.
pub fn next_rand(seed: u32) -> u32
    ensures { result ≡ next_rand seed }
{
    let a = seed ^ (seed << 13);
    let b = a ^ (a >> 17);
    b ^ (b << 5)
}

// `v` moved by the random number `y`: with a width above 0 it gains `y` modulo the width, less half the width.
pub fn spread(v: i64, width: i64, y: u32) -> i64
    requires { (mag v < 2 ^ 40) × (mag width < 2 ^ 40) }
    ensures { result ≡ spread v width y }
{
    if width <= 0 {
        v
    } else {
        let r = i64::from(y) % width - width / 2;
        v + r
    }
}
