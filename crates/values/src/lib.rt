// One value, on its way into the list: what an option does to it, the clamp of its target, the event that it
// becomes and the bytes that it takes. Curves, waves, sines, lists per note and cycles all write by `one_value`;
// none of them knows more of an option than this room. The list itself is not met here.
#![tactic(auto)]

ghost use Rattle.std.specs.Prelude.{◌≡◌, ◌<◌, ◌^◌};
ghost use Rattle.std.specs.Int.Signed.{mag};
ghost use Rattle.values.specs.Options.{ok_option, new_option, range_in, limited};
ghost use Rattle.values.specs.Clamp.{clamped};
ghost use Rattle.values.specs.Value.{start_of, time_of, kind_of, event_for, wrote_of, Ready, Near};

use budget::{Budget, VALUE_BYTES};
use events::Event;

// What is set for a target and outlasts a write. `ranged` and `repeat` are 0 or 1.
#[repr(C)]
#[derive(Clone, Copy)]
pub struct WriteOption {
    pub delay: i32,
    pub random: i32,
    pub ranged: u32,
    pub low: i32,
    pub high: i32,
    pub repeat: u32,
}

// What a write is asked with; it stays the same through a call. The target is a code: 0 to 127 the controllers, 128
// and 129 the bends with argument 0 and 1. `time` is before the delay; `freq` is only asked by curves and sines.
#[derive(Clone, Copy)]
pub struct Write {
    pub target: i32,
    pub channel: i32,
    pub time: i64,
    pub freq: u64,
    pub option: WriteOption,
}

// A value, offered so many steps after the start.
#[derive(Clone, Copy)]
pub struct Offer {
    pub step: u64,
    pub value: i64,
}

// What came of an offer: the event that it became, whether its bytes fit, and the budget after it.
#[derive(Clone, Copy)]
pub struct Wrote {
    pub budget: Budget,
    pub event: Event,
    pub fits: bool,
}

impl WriteOption {
    // No delay, no random, no range, no repeat.
    pub fn new() -> WriteOption
        ensures { result ≡ new_option }
    {
        WriteOption {
            delay: 0,
            random: 0,
            ranged: 0,
            low: 0,
            high: 0,
            repeat: 0,
        }
    }
}

// Whether an option's numbers are in their ranges.
#[tactic(auto, unfolding(crate::specs::Options::ok_option))]
pub fn option_ok(option: WriteOption) -> bool
    ensures { result ≡ ok_option option }
{
    let range = (option.ranged == 0)
        | (numbers::is_number(option.low) & numbers::is_number(option.high));
    (option.ranged <= 1)
        & (option.repeat <= 1)
        & range
        & numbers::is_length(option.delay)
        & numbers::is_random(option.random)
}

// The range that an option has, if it has one.
#[tactic(auto, unfolding(crate::specs::Options::range_in))]
pub fn range_of(option: WriteOption) -> Option<(i32, i32)>
    ensures { result ≡ range_in option }
{
    if option.ranged == 0 {
        None
    } else {
        Some((option.low, option.high))
    }
}

// The value that a target's event gets; a code that is no target's gets 0.
fn clamp(target: i32, v: i64) -> i64
    requires { mag v < 2 ^ 40 }
    ensures { result ≡ clamped target v }
{
    match target {
        0..=127 => numbers::value_range(0, v, 127),
        128 => numbers::value_range(0, v * 128, 32639),
        129 => numbers::value_range(0, v + 8192, 32639),
        _ => 0,
    }
}

// A narrow number as a wide one.
pub fn widened(x: i32) -> i64
    ensures { (result ≡ x) × (mag result < 2 ^ 31) }
{
    i64::from(x)
}

// A value within an option's range.
fn limit(option: WriteOption, v: i64) -> i64
    requires { mag v < 2 ^ 38 }
    ensures { (result ≡ limited (range_in option) v) × (mag result < 2 ^ 40) }
{
    match range_of(option) {
        None => v,
        Some((low, high)) => numbers::value_range(i64::from(low), v, i64::from(high)),
    }
}

// The kind of a target's events.
#[tactic(auto, unfolding(crate::specs::Value::kind_of))]
pub fn kind_of(target: i32) -> i64
    ensures { result ≡ kind_of target }
{
    match target {
        0..=127 => events::CONTROL_CHANGE,
        _ => events::PITCH_BEND,
    }
}

// When a write starts: its time and its option's delay.
#[tactic(auto, unfolding(crate::specs::Value::start_of))]
pub fn start_of(w: Write) -> i64
    requires { Ready w }
    ensures { (result ≡ start_of w) × (mag result < 2 ^ 43) }
{
    w.time + i64::from(w.option.delay)
}

// When an offer's event stands.
#[tactic(auto, unfolding(crate::specs::Value::time_of))]
fn time_of(w: Write, step: u64) -> i64
    requires { Ready w × (step < 2 ^ 43) }
    ensures { result ≡ time_of w step }
{
    start_of(w) + step as i64
}

// The event of a target: a controller's has its number and the value, a bend's the value alone.
#[tactic(auto, unfolding(crate::specs::Value::event_for))]
fn make_event(target: i32, time: i64, channel: i32, v: i64) -> Event
    ensures { result ≡ event_for target time channel v }
{
    match target {
        0..=127 => events::cc_event(time, i64::from(channel), i64::from(target), v),
        _ => events::pitch_bend_event(time, i64::from(channel), v),
    }
}

// One value: random, then the option's range, then the delay, then the clamp; then its bytes are asked for. The seed
// steps whether they fit or not.
pub fn one_value(w: Write, b: Budget, o: Offer) -> Wrote
    requires { Ready w × Near o }
    ensures { result ≡ wrote_of w b o }
{
    let moved = budget::calc_rand_value(b, o.value, i64::from(w.option.random));
    let v = clamp(w.target, limit(w.option, moved.value));
    let asked = budget::reserve_event(moved.budget, VALUE_BYTES);
    Wrote {
        budget: asked.budget,
        event: make_event(w.target, time_of(w, o.step), w.channel, v),
        fits: asked.fits,
    }
}
