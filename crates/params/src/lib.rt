// A note parameter (velocity, gate, timing, octave, length): what it has reserved for the notes to come, and its options.
// It is handed in by value and handed back, advanced. Every public function tests what it is handed, the parameter too;
// where it refuses, it hands back the parameter that it was given.
#![tactic(auto)]

ghost use Rattle.std.specs.Prelude.{◌≡◌, true, false, ◌&&◌};
ghost use Rattle.std.specs.Fn.{FnOnceReturnsAtMut};
ghost use Rattle.laws.specs.Integers.{range_of};
ghost use Rattle.params.specs.Param.{fresh, ok_limits, ok_param, range_for, max_for, limited};
ghost use Rattle.reserved.specs.Setting.{demand};
ghost use Rattle.params.specs.Calls.{told, reserving, taking, clear_reserve, set_on_time, set_on_cycle, set_on_note, calc_on_time, calc_on_note, has_reserve, apply_limit, maximum_or, set_random, set_range, clear_range, set_delay, set_max, clear_max, set_repeat};

use numbers::{Refusal, is_length, is_number, is_random, is_time, value_range};
use reserved::{
    NOTHING, Reserve, Taken, curve_asked, cycle_asked, idle_reserve, notes_asked, reserve_ok,
};

// A flag is 0 or 1: where `ranged` is 0 there is no range, where `maxed` is 0 no maximum.
#[repr(C)]
#[derive(Clone, Copy)]
pub struct NoteParam {
    pub reserve: Reserve,
    pub random: i32,
    pub ranged: u32, // a flag with numbers beside it, here and below: C lends them within a track
    pub low: i32,
    pub high: i32,
    pub delay: i32,
    pub maxed: u32,
    pub max: i32,
    pub repeat: u32,
}

// The parameter as a call leaves it.
#[repr(C)]
#[derive(Clone, Copy)]
pub struct ParamAnswer {
    pub code: u32, // a number beside what it goes with: C reads this record
    pub param: NoteParam,
}

// The same with the value that a note takes.
#[repr(C)]
#[derive(Clone, Copy)]
pub struct ParamValue {
    pub code: u32, // a number beside what it goes with: C reads this record
    pub value: i32,
    pub param: NoteParam,
}

// A value alone, of a call that leaves the parameter as it is.
#[repr(C)]
#[derive(Clone, Copy)]
pub struct Told {
    pub code: u32, // a number beside what it goes with: C reads this record
    pub value: i32,
}

// Whether the numbers of a parameter's options are in their ranges; what is absent is not asked.
fn limits_ok(param: NoteParam) -> bool
    ensures { result ≡ ok_limits param }
{
    let a = is_random(param.random);
    let b = param.ranged <= 1;
    let c = is_number(param.low);
    let d = is_number(param.high);
    let range = (param.ranged == 0) | (c & d);
    let e = param.maxed <= 1;
    let f = is_number(param.max);
    let most = (param.maxed == 0) | f;
    let g = param.repeat <= 1;
    a & b & range & e & most & g
}

// Whether every number of a parameter is in its range.
#[tactic(auto, unfolding(crate::specs::Param::ok_param))]
pub fn param_ok(param: NoteParam) -> bool
    ensures { result ≡ ok_param param }
{
    let a = reserve_ok(param.reserve);
    let b = is_length(param.delay);
    let c = limits_ok(param);
    a & b & c
}

fn range_of(param: NoteParam) -> Option<(i32, i32)>
    ensures { result ≡ range_for param }
{
    (param.ranged != 0).then_some((param.low, param.high))
}

fn max_of(param: NoteParam) -> Option<i32>
    ensures { result ≡ max_for param }
{
    (param.maxed != 0).then_some(param.max)
}

fn clamp(low: i32, value: i32, high: i32) -> i32
    ensures { result ≡ range_of low value high }
{
    value_range(i64::from(low), i64::from(value), i64::from(high)) as i32
}

// A value limited by the range, and then by the maximum.
#[tactic(auto, unfolding(crate::specs::Param::limited))]
fn within_limits(param: NoteParam, value: i32) -> i32
    ensures { result ≡ limited param value }
{
    let kept = match range_of(param) {
        Some((low, high)) => clamp(low, value, high),
        None => value,
    };
    match max_of(param) {
        Some(top) => kept.min(top),
        None => kept,
    }
}

// A value alone, or the number 4.
#[tactic(auto, unfolding(crate::specs::Calls::told))]
fn told_of(ok: bool, value: i32) -> Told
    ensures { result ≡ told (demand ok) value }
{
    if ok {
        Told { code: 0, value }
    } else {
        Told {
            code: Refusal::OutOfRange.number(),
            value: 0,
        }
    }
}

impl NoteParam {
    // Nothing reserved, no option set.
    pub fn new() -> NoteParam
        ensures { result ≡ fresh }
    {
        NoteParam {
            reserve: idle_reserve(),
            random: 0,
            ranged: 0,
            low: 0,
            high: 0,
            delay: 0,
            maxed: 0,
            max: 0,
            repeat: 0,
        }
    }

    // The parameter changed, where it is in range and so is what is asked with it, or as it was given.
    fn changed<F: FnOnce(&mut NoteParam)>(mut self, ok: bool, change: F) -> ParamAnswer
        requires { F.IsAlwaysCallable change }
        ensures refused { (ok_param self && ok) ≡ false → result ≡ record { code = 4; param = self } }
        ensures changed { (ok_param self && ok) ≡ true → (result.code ≡ 0) × FnOnceReturnsAtMut F.FnOnce change self tt result.param }
    {
        if !(param_ok(self) & ok) {
            return ParamAnswer {
                code: Refusal::OutOfRange.number(),
                param: self,
            };
        }
        change(&mut self);
        ParamAnswer {
            code: 0,
            param: self,
        }
    }

    // The parameter with what is to be reserved, or as it was given.
    fn reserving(self, made: Result<Reserve, Refusal>) -> ParamAnswer
        ensures { result ≡ reserving (ok_param self) self made }
    {
        match made {
            Ok(reserve) => self.changed(true, |param| param.reserve = reserve),
            Err(refusal) => ParamAnswer {
                code: refusal.number(),
                param: self,
            },
        }
    }

    // What a note took, and the parameter with what is then reserved; or the number 4, and the parameter as it was given.
    fn taking(mut self, taken: Option<Taken>) -> ParamValue
        ensures { result ≡ taking self taken }
    {
        let Some(Taken { value, reserve }) = taken else {
            return ParamValue {
                code: Refusal::OutOfRange.number(),
                value: 0,
                param: self,
            };
        };
        self.reserve = reserve;
        ParamValue {
            code: 0,
            value,
            param: self,
        }
    }

    // Nothing stays reserved. Refuses 4.
    pub fn clear_reserve(self) -> ParamAnswer
        ensures { result ≡ clear_reserve self }
    {
        self.reserving(Ok(idle_reserve()))
    }

    // Reserves a curve, low, high and length by threes, from `timepos` and the delay on. Refuses 3, 4.
    pub fn set_on_time(self, timepos: i64, values: &[i32]) -> ParamAnswer
        ensures { result ≡ set_on_time self timepos values.now }
    {
        self.reserving(curve_asked(timepos, self.delay, values))
    }

    // Reserves a cycle, its length and then its values, from `timepos` and the delay on; nothing, where there is no value.
    // Refuses 3, 4.
    pub fn set_on_cycle(self, timepos: i64, args: &[i32]) -> ParamAnswer
        ensures { result ≡ set_on_cycle self timepos args.now }
    {
        self.reserving(cycle_asked(timepos, self.delay, args))
    }

    // Reserves a value for each of the next notes, round and round where repeat stands. Refuses 3, 4.
    pub fn set_on_note(self, values: &[i32]) -> ParamAnswer
        ensures { result ≡ set_on_note self values.now }
    {
        self.reserving(notes_asked(self.repeat, values))
    }

    // The value of the reserved curve or cycle at `timepos`, or the default; a curve that is over goes. Refuses 4.
    #[tactic(auto, unfolding(crate::specs::Calls::given, crate::specs::Param::ok_param))]
    pub fn calc_on_time(self, timepos: i64, def: i32) -> ParamValue
        ensures { result ≡ calc_on_time self timepos def }
    {
        if param_ok(self) & is_time(timepos) & is_number(def) {
            self.taking(Some(self.reserve.at_time(timepos, def)))
        } else {
            self.taking(None)
        }
    }

    // The next value of the reserved list, or the default; a list that is spent goes. Refuses 4.
    #[tactic(auto, unfolding(crate::specs::Calls::given, crate::specs::Param::ok_param))]
    pub fn calc_on_note(self, def: i32) -> ParamValue
        ensures { result ≡ calc_on_note self def }
    {
        if param_ok(self) & is_number(def) {
            self.taking(Some(self.reserve.next(def)))
        } else {
            self.taking(None)
        }
    }

    // 1 where something is reserved, else 0. Refuses 4.
    pub fn has_reserve(self) -> Told
        ensures { result ≡ has_reserve self }
    {
        told_of(param_ok(self), i32::from(self.reserve.kind != NOTHING))
    }

    // A value limited by the range and then by the maximum, where there is one. Refuses 4.
    pub fn apply_limit(self, value: i32) -> Told
        ensures { result ≡ apply_limit self value }
    {
        told_of(
            param_ok(self) & is_number(value),
            within_limits(self, value),
        )
    }

    // The maximum, or the default where there is none. Refuses 4.
    pub fn max_or(self, def: i32) -> Told
        ensures { result ≡ maximum_or self def }
    {
        told_of(param_ok(self) & is_number(def), max_of(self).unwrap_or(def))
    }

    // The random width of a value. Refuses 4.
    pub fn set_random(self, random: i32) -> ParamAnswer
        ensures { result ≡ set_random self random }
    {
        self.changed(is_random(random), |param| param.random = random)
    }

    // The range of a value. Refuses 4.
    pub fn set_range(self, low: i32, high: i32) -> ParamAnswer
        ensures { result ≡ set_range self low high }
    {
        self.changed(is_number(low) & is_number(high), |param| {
            param.ranged = 1;
            param.low = low;
            param.high = high;
        })
    }

    // No range. Refuses 4.
    pub fn clear_range(self) -> ParamAnswer
        ensures { result ≡ clear_range self }
    {
        self.changed(true, |param| {
            param.ranged = 0;
            param.low = 0;
            param.high = 0;
        })
    }

    // The delay of what is reserved from now on. Refuses 4.
    pub fn set_delay(self, delay: i32) -> ParamAnswer
        ensures { result ≡ set_delay self delay }
    {
        self.changed(is_length(delay), |param| param.delay = delay)
    }

    // The maximum of a value. Refuses 4.
    pub fn set_max(self, max: i32) -> ParamAnswer
        ensures { result ≡ set_max self max }
    {
        self.changed(is_number(max), |param| {
            param.maxed = 1;
            param.max = max;
        })
    }

    // No maximum. Refuses 4.
    pub fn clear_max(self) -> ParamAnswer
        ensures { result ≡ clear_max self }
    {
        self.changed(true, |param| {
            param.maxed = 0;
            param.max = 0;
        })
    }

    // Whether a list that is reserved from now on goes round: 0 or 1. Refuses 4.
    pub fn set_repeat(self, repeat: u32) -> ParamAnswer
        ensures { result ≡ set_repeat self repeat }
    {
        self.changed(repeat <= 1, |param| param.repeat = repeat)
    }
}
