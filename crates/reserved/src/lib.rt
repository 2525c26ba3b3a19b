// What a note parameter or a velocity layer has reserved for the notes to come: a curve over time, a cycle over time, or
// a list of which each note takes the next value. A reservation is handed in by value and handed back, advanced.
#![tactic(auto)]

ghost use Rattle.std.specs.Prelude.{◌≡◌, true, ◌<◌, ◌/◌, ◌+ℤ◌, get_or};
ghost use Rattle.laws.specs.Integers.{cut};
ghost use Rattle.numbers.specs.Ranges.{is_time, is_stored_time, is_length};
ghost use Rattle.shapes.specs.Curve.{curve_of};
ghost use Rattle.counted.specs.Numbers.{shown};
ghost use Rattle.counted.specs.Curves.{triples, no_triple, ok_curve};
ghost use Rattle.reserved.specs.Cycle.{since_of, ok_cycle, value_list, said, cycle_at, calc_of};
ghost use Rattle.reserved.specs.Curve.{curve_at};
ghost use Rattle.reserved.specs.Reserve.{ok_values, ok_reserve, idle, timed, noted, place, first_or, cycle_of, from_since};
ghost use Rattle.reserved.specs.Reserve.{curve_from, notes_from};
ghost use Rattle.reserved.specs.Setting.{cycle_args, cycle_for, no_cycle_time, cycle_made, new_cycle_time, curve_asked, cycle_asked, notes_asked};

use counted::{LIST_LIMIT, Numbers, curve_ok, empty, number_at, numbers_of, numbers_ok};
use numbers::{Refusal, ask, is_length, is_stored_time, is_time};
use shapes::curve_value;

// How many steps ago something began, if it has begun.
fn steps_since(start: i64, timepos: i64) -> Option<u64>
    requires start_value { is_stored_time start ≡ true }
    requires timepos_value { is_time timepos ≡ true }
    ensures { result ≡ since_of start timepos }
{
    u64::try_from(timepos - start).ok()
}

// A length in steps: 0 where it is less.
fn span(length: i32) -> u64
    ensures { result ≡ cut length }
{
    u64::try_from(length).unwrap_or(0)
}

// A value for every `length` steps from `start` on, round and round.
#[repr(C)]
#[derive(Clone, Copy)]
pub struct OnCycleTime {
    pub start: i64,
    pub length: i32,
    pub values: Numbers,
}

// What `OnCycleTime::new` answers: 0 and the cycle, or the refusal's number and a cycle of zeros.
#[repr(C)]
#[derive(Clone, Copy)]
pub struct CycleTimeAnswer {
    pub code: u32, // a number beside what it goes with: C reads this record
    pub cycle: OnCycleTime,
}

#[tactic(auto, unfolding(crate::specs::Cycle::ok_cycle))]
fn cycle_ok(cycle: OnCycleTime) -> bool
    ensures { result ≡ ok_cycle cycle }
{
    is_stored_time(cycle.start) & is_length(cycle.length) & numbers_ok(cycle.values)
}

#[tactic(auto, using(crate::proofs::Cycles::cycle_start), unfolding(crate::specs::Cycle::cycle_at))]
fn cycle_at(cycle: OnCycleTime, timepos: i64) -> Option<i32>
    requires cycle_value { ok_cycle cycle ≡ true }
    requires timepos_value { is_time timepos ≡ true }
    ensures { value_list result ≡ cycle_at cycle timepos }
{
    let steps = steps_since(cycle.start, timepos)?;
    let turns = steps.checked_div(span(cycle.length))?;
    let place = (turns as usize).checked_rem(cycle.values.count)?;
    Some(cycle.values.items[place])
}

// A cycle of zeros, which has no value.
fn no_cycle_time() -> OnCycleTime
    ensures { result ≡ no_cycle_time }
{
    OnCycleTime {
        start: 0,
        length: 0,
        values: empty(),
    }
}

// A cycle of its parts, each in range.
fn cycle_made(start: i64, length: i32, values: &[i32]) -> Result<OnCycleTime, Refusal>
    ensures { result ≡ cycle_made start length values.now }
{
    let values = numbers_of(values)?;
    let cycle = OnCycleTime {
        start,
        length,
        values,
    };
    ask(cycle_ok(cycle), Refusal::OutOfRange)?;
    Ok(cycle)
}

impl OnCycleTime {
    // A cycle over time of its own. Refuses 3, 4, and then hands back a cycle of zeros.
    #[tactic(auto, unfolding(crate::specs::Setting::new_cycle_time))]
    pub fn new(start: i64, length: i32, values: &[i32]) -> CycleTimeAnswer
        ensures { result ≡ new_cycle_time start length values.now }
    {
        match cycle_made(start, length, values) {
            Ok(cycle) => CycleTimeAnswer { code: 0, cycle },
            Err(refusal) => CycleTimeAnswer {
                code: refusal.number(),
                cycle: no_cycle_time(),
            },
        }
    }

    // The value at `timepos`: none before the start, and none of a cycle without values or with a length of 0 or
    // less. Refuses 4.
    #[tactic(auto, unfolding(crate::specs::Cycle::calc_of))]
    pub fn calc(self, timepos: i64) -> Result<Option<i32>, Refusal>
        ensures { said result ≡ calc_of self timepos }
    {
        ask(cycle_ok(self) & is_time(timepos), Refusal::OutOfRange)?;
        Ok(cycle_at(self, timepos))
    }
}

// The length of triple `i` in steps.
fn length_at(list: Numbers, i: usize) -> u64
    requires list_value { ok_curve list ≡ true }
    requires i_bound { i < list.count / 3 }
    ensures { result ≡ cut (get_or (triples (shown list)) i no_triple).length }
{
    span(list.items[i * 3 + 2])
}

// The value at step `j` of triple `i`.
fn value_at(list: Numbers, i: usize, j: u64, len: u64) -> i32
    requires list_value { ok_curve list ≡ true }
    requires i_bound { i < list.count / 3 }
    requires len_value { len ≡ cut (get_or (triples (shown list)) i no_triple).length }
    requires j_lt_len { j < len }
    ensures { result ≡ curve_of (get_or (triples (shown list)) i no_triple).low (get_or (triples (shown list)) i no_triple).high j len }
{
    let low = list.items[i * 3];
    let high = list.items[i * 3 + 1];
    curve_value(i64::from(low), i64::from(high), j, len) as i32
}

// Where a curve stands `steps` after its start, if it is not over.
#[tactic(auto, using(crate::proofs::Curves::over, crate::proofs::Curves::here, crate::proofs::Curves::on))]
fn curve_at(list: Numbers, steps: u64) -> Option<i32>
    requires { ok_curve list ≡ true }
    ensures { result ≡ curve_at (triples (shown list)) steps }
{
    let mut left = steps;
    for i in 0..list.count / 3 {
        let len = length_at(list, i);
        if left < len {
            return Some(value_at(list, i, left, len));
        }
        left -= len;
    }
    None
}

// What may be reserved, by number. An enum would not be read from the memory that C lends, where any number may stand:
// `reserve_ok` refuses the others.
pub const NOTHING: u32 = 0;

pub const ON_TIME: u32 = 1;

pub const ON_CYCLE: u32 = 2;

pub const ON_NOTE: u32 = 3;

// What is reserved for the notes to come: nothing, a curve over time, a cycle over time, or a list of which each
// note takes the next value. What a kind has no use for is zero.
#[repr(C)]
#[derive(Clone, Copy)]
pub struct Reserve {
    pub kind: u32,
    pub cycling: u32,
    pub start: i64,
    pub length: i32,
    pub index: usize,
    pub values: Numbers,
}

// A value for a note, and what is then reserved.
#[derive(Clone, Copy)]
pub struct Taken {
    pub value: i32,
    pub reserve: Reserve,
}

// Nothing reserved.
pub fn idle_reserve() -> Reserve
    ensures { result ≡ idle }
{
    Reserve {
        kind: NOTHING,
        cycling: 0,
        start: 0,
        length: 0,
        index: 0,
        values: empty(),
    }
}

#[tactic(auto, unfolding(crate::specs::Reserve::ok_values))]
fn values_ok(kind: u32, values: Numbers) -> bool
    ensures { result ≡ ok_values kind values }
{
    if kind == ON_TIME {
        curve_ok(values)
    } else {
        numbers_ok(values)
    }
}

#[tactic(auto, unfolding(crate::specs::Reserve::ok_reserve))]
pub fn reserve_ok(reserve: Reserve) -> bool
    ensures { result ≡ ok_reserve reserve }
{
    let a = reserve.kind <= ON_NOTE;
    let b = reserve.cycling <= 1;
    let c = is_stored_time(reserve.start);
    let d = is_length(reserve.length);
    let e = reserve.index <= reserve.values.count;
    let f = values_ok(reserve.kind, reserve.values);
    a & b & c & d & e & f
}

// The value of a cycle at a time, or the default where it has none.
fn cycle_value(reserve: Reserve, timepos: i64, def: i32) -> i32
    ensures { result ≡ first_or def (calc_of (cycle_of reserve) timepos).values }
{
    let cycle = OnCycleTime {
        start: reserve.start,
        length: reserve.length,
        values: reserve.values,
    };
    let Ok(Some(value)) = cycle.calc(timepos) else {
        return def;
    };
    value
}

// The value of a curve at a time, or the default before it and past it; past it nothing stays reserved.
fn curve_taken(reserve: Reserve, timepos: i64, def: i32) -> Taken
    requires start_value { is_stored_time reserve.start ≡ true }
    requires timepos_value { is_time timepos ≡ true }
    requires values_value { ok_curve reserve.values ≡ true }
    ensures { result ≡ from_since reserve def (since_of reserve.start timepos) }
{
    let Some(steps) = steps_since(reserve.start, timepos) else {
        return Taken {
            value: def,
            reserve,
        };
    };
    match curve_at(reserve.values, steps) {
        Some(value) => Taken { value, reserve },
        None => Taken {
            value: def,
            reserve: idle_reserve(),
        },
    }
}

impl Reserve {
    // What a curve or a cycle gives at a time, or the default; a curve that is over goes.
    #[tactic(auto, unfolding(crate::specs::Reserve::timed))]
    pub fn at_time(self, timepos: i64, def: i32) -> Taken
        requires self_value { ok_reserve self ≡ true }
        requires timepos_value { is_time timepos ≡ true }
        ensures { result ≡ timed self timepos def }
    {
        match self.kind {
            ON_CYCLE => Taken {
                value: cycle_value(self, timepos, def),
                reserve: self,
            },
            ON_TIME => curve_taken(self, timepos, def),
            _ => Taken {
                value: def,
                reserve: self,
            },
        }
    }

    // The place of the list that the next note reads.
    fn next_place(self) -> usize
        ensures { result ≡ place self }
    {
        if self.values.count <= self.index && self.cycling == 1 {
            0
        } else {
            self.index
        }
    }

    // What the next note takes of a list, or the default; a list that is spent goes.
    #[tactic(auto, unfolding(crate::specs::Reserve::noted))]
    pub fn next(self, def: i32) -> Taken
        requires { ok_reserve self ≡ true }
        ensures { result ≡ noted self def }
    {
        if self.kind != ON_NOTE {
            return Taken {
                value: def,
                reserve: self,
            };
        }
        let i = self.next_place();
        match number_at(self.values, i) {
            Some(value) => Taken {
                value,
                reserve: Reserve {
                    index: i + 1,
                    ..self
                },
            },
            None => Taken {
                value: def,
                reserve: idle_reserve(),
            },
        }
    }
}

// The reservations that a setter makes. A curve:
fn curve_reserve(start: i64, values: Numbers) -> Reserve
    ensures { result ≡ curve_from start values }
{
    Reserve {
        kind: ON_TIME,
        cycling: 0,
        start,
        length: 0,
        index: 0,
        values,
    }
}

// A list for the notes, which goes round where `repeat` stands:
fn note_reserve(repeat: u32, values: Numbers) -> Reserve
    ensures { result ≡ notes_from repeat values }
{
    Reserve {
        kind: ON_NOTE,
        cycling: repeat,
        start: 0,
        length: 0,
        index: 0,
        values,
    }
}

// A cycle, or nothing where it has no value:
fn cycle_reserve(start: i64, length: i32, values: Numbers) -> Reserve
    ensures { result ≡ cycle_for start length values }
{
    if values.count == 0 {
        idle_reserve()
    } else {
        Reserve {
            kind: ON_CYCLE,
            cycling: 0,
            start,
            length,
            index: 0,
            values,
        }
    }
}

// A cycle's arguments taken apart: a length, and the values after it. Refuses 3.
#[tactic(auto, unfolding(crate::specs::Setting::cycle_args))]
fn cycle_args(args: &[i32]) -> Result<(i32, Numbers), Refusal>
    ensures { result ≡ cycle_args args.now }
{
    ask(args.len() <= LIST_LIMIT, Refusal::TooMany)?;
    match args.split_first() {
        Some((length, values)) => Ok((*length, numbers_of(values)?)),
        None => Ok((0, empty())),
    }
}

// Where a reservation that is set at `timepos` starts.
fn delayed(timepos: i64, delay: i32) -> i64
    requires timepos_value { is_time timepos ≡ true }
    requires delay_value { is_length delay ≡ true }
    ensures { result ≡ timepos +ℤ delay }
{
    timepos + i64::from(delay)
}

// A curve, low, high and length by threes, from `timepos` and the delay on. Refuses 3, 4.
#[tactic(auto, using(crate::proofs::Laid::laid_triples), unfolding(crate::specs::Setting::curve_asked))]
pub fn curve_asked(timepos: i64, delay: i32, values: &[i32]) -> Result<Reserve, Refusal>
    ensures { result ≡ curve_asked timepos delay values.now }
{
    let list = numbers_of(values)?;
    ask(
        is_time(timepos) & is_length(delay) & curve_ok(list),
        Refusal::OutOfRange,
    )?;
    Ok(curve_reserve(delayed(timepos, delay), list))
}

// A cycle, its length and then its values, from `timepos` and the delay on; nothing, where there is no value. Refuses 3, 4.
#[tactic(auto, using(crate::proofs::Laid::laid_rest), unfolding(crate::specs::Setting::cycle_args, crate::specs::Setting::cycle_asked))]
pub fn cycle_asked(timepos: i64, delay: i32, args: &[i32]) -> Result<Reserve, Refusal>
    ensures { result ≡ cycle_asked timepos delay args.now }
{
    let (length, values) = cycle_args(args)?;
    ask(
        is_time(timepos) & is_length(delay) & is_length(length) & numbers_ok(values),
        Refusal::OutOfRange,
    )?;
    Ok(cycle_reserve(delayed(timepos, delay), length, values))
}

// A value for each of the next notes, round and round where `repeat` is 1. Refuses 3, 4.
#[tactic(auto, using(crate::proofs::Laid::laid_list), unfolding(crate::specs::Setting::notes_asked))]
pub fn notes_asked(repeat: u32, values: &[i32]) -> Result<Reserve, Refusal>
    ensures { result ≡ notes_asked repeat values.now }
{
    let list = numbers_of(values)?;
    ask((repeat <= 1) & numbers_ok(list), Refusal::OutOfRange)?;
    Ok(note_reserve(repeat, list))
}
