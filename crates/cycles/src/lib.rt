// Cycles: a target whose values are written again and again, one at every length of time. A call makes the writes that
// are due up to a time, in table order, and takes their records on; it takes one write more than fits, so that the flag
// tells that the budget is spent, and that one is lost. A call can be told beforehand how many events it will add
// (`owed_by`, `gains`) without going through the writes. What a series of calls leaves is specs/Promise.
#![tactic(auto)]

ghost use Rattle.std.specs.Prelude.{◌≡◌, true, ◌≤◌, ◌^◌, min, length, take};
ghost use Rattle.std.specs.Int.Signed.{mag};
ghost use Rattle.laws.specs.Lists.{counted, put_first};
ghost use Rattle.numbers.specs.Limits.{places, value_bytes, cycle_writes};
ghost use Rattle.budget.specs.Budgets.{room};
ghost use Rattle.numbers.specs.Ranges.{is_time};
ghost use Rattle.events.specs.Events.{zero_event};
ghost use Rattle.eventlist.specs.Rows.{rows_of, events_of};
ghost use Rattle.cycles.specs.Due.{write_of, advanced, due_count, owed, key};
ghost use Rattle.cycles.specs.Rules.{no_cycle, ok_cycle};
ghost use Rattle.cycles.specs.Calls.{limit};
ghost use Rattle.cycles.specs.Loop.{Unstopped};
ghost use Rattle.cycles.specs.Turns.{step_of, made, ran_state, ran_of, ask_for, called_state, called_of};

use budget::Budget;
use counted::Numbers;
use events::Event;
use values::WriteOption;

// How many cycles a table has room for.
pub const PLACES: usize = 16;

// A target's cycle: its values in turn, the one at `index` next, at the time `next` and at every `length` from there.
#[repr(C)]
#[derive(Clone, Copy)]
pub struct Cycle {
    pub target: i32,
    pub length: i32,
    pub next: i64,
    pub index: usize,
    pub values: Numbers,
}

impl Cycle {
    // What an unused place of a table of cycles holds.
    pub fn none() -> Cycle
        ensures { result ≡ no_cycle }
    {
        Cycle {
            target: 0,
            length: 0,
            next: 0,
            index: 0,
            values: counted::empty(),
        }
    }
}

// What a cycle's writes are asked with: up to when, on which channel, with its target's option.
#[derive(Clone, Copy)]
pub struct Ask {
    pub until: i64,
    pub channel: i32,
    pub option: WriteOption,
}

// What one write leaves: the cycle advanced, the budget, and the event, if it fits.
#[derive(Clone, Copy)]
pub struct Stepped {
    pub cycle: Cycle,
    pub budget: Budget,
    pub event: Option<Event>,
}

// What a cycle's writes of one call leave, and how many they were, those that did not fit too.
#[derive(Clone, Copy)]
pub struct Ran {
    pub cycle: Cycle,
    pub made: u64,
    pub budget: Budget,
    pub count: usize,
}

// How many writes a call may make.
pub const CYCLE_WRITES: u64 = 10000;

// How many options there are: one for each controller, and one for both bends.
pub const OPTIONS: usize = 129;

// What a call is asked with: up to when, on which channel, and the option of each target.
#[derive(Clone, Copy)]
pub struct Round {
    pub until: i64,
    pub channel: i32,
    pub options: [WriteOption; OPTIONS],
}

// What a call leaves.
#[derive(Clone, Copy)]
pub struct Called {
    pub table: [Cycle; PLACES],
    pub budget: Budget,
    pub count: usize,
}

// What a target is told apart by: both bends are one. A code that is no target has the key 0.
pub fn key_of(target: i32) -> usize
    ensures { result ≡ key target }
{
    match target {
        0..=127 => target as usize,
        128 | 129 => 128,
        _ => 0,
    }
}

// Whether a cycle's numbers are in their ranges, its length and count at least 1, its position below its count.
pub fn cycle_ok(c: Cycle) -> bool
    ensures { result ≡ ok_cycle c }
{
    numbers::is_target(c.target)
        & (1 <= c.length)
        & numbers::is_length(c.length)
        & numbers::is_stored_time(c.next)
        & counted::numbers_ok(c.values)
        & (c.index < c.values.count)
}

// The cycle once its next write is taken: one length later, at the value after it.
pub fn advance(c: Cycle) -> Cycle
    requires { ok_cycle c ≡ true }
    ensures { result ≡ advanced c }
{
    Cycle {
        next: c.next + i64::from(c.length),
        index: (c.index + 1) % c.values.count,
        ..c
    }
}

// How many writes a cycle owes up to `until`.
pub fn due_count(c: Cycle, until: i64) -> u64
    requires { (ok_cycle c ≡ true) × (is_time until ≡ true) }
    ensures { result ≡ due_count until c }
{
    if until < c.next {
        0
    } else {
        let gap = (until - c.next) as u64; // proved not below 0, so `abs_diff` would say no more
        gap / (c.length as u64) + 1
    }
}

// The value that a cycle writes next.
fn value_of(c: Cycle) -> i32
    requires { ok_cycle c ≡ true }
    ensures { (result ≡ (write_of c).value) × (mag result ≤ 2 ^ 22) }
{
    c.values.items[c.index]
}

// One write of a cycle, and the cycle advanced, whether the write fits or not.
pub fn step(c: Cycle, ask: Ask, b: Budget) -> Stepped
    requires { ok_cycle c ≡ true }
    ensures { result ≡ step_of c ask b }
{
    let w = values::Write {
        target: c.target,
        channel: ask.channel,
        time: c.next,
        freq: 1,
        option: ask.option,
    };
    let o = values::Offer {
        step: 0,
        value: i64::from(value_of(c)),
    };
    let wrote = values::one_value(w, b, o);
    let next = advance(c);
    if wrote.fits {
        Stepped {
            cycle: next,
            budget: wrote.budget,
            event: Some(wrote.event),
        }
    } else {
        Stepped {
            cycle: next, // past the write that is lost
            budget: wrote.budget,
            event: None,
        }
    }
}

// A cycle's due writes, at most `most` of them: the events of those that fit stand behind the list. One that does not fit
// is lost, sets the flag, and the cycle has advanced past it.
pub fn run_record(c: Cycle, ask: Ask, most: u64, b: Budget, events: &mut [i64], count: usize) -> Ran
    requires { (ok_cycle c ≡ true) × (is_time ask.until ≡ true) × (count ≤ length (rows_of events.old))
        × (length (ran_state ask (made ask most c) c b (events_of events.old count)).events ≤ length (rows_of events.old)) }
    ensures { (result ≡ ran_of ask (made ask most c) c b (events_of events.old count))
        × (rows_of events.new ≡ put_first zero_event count (ran_state ask (made ask most c) c b (events_of events.old count)).events (rows_of events.old)) }
{
    let made = most.min(due_count(c, ask.until));
    let mut cycle = c;
    let mut budget = b;
    let mut n = count;
    for _ in 0..made {
        let s = step(cycle, ask, budget);
        cycle = s.cycle;
        budget = s.budget;
        if let Some(event) = s.event {
            n = eventlist::append(events, n, event);
        }
    }
    Ran {
        cycle,
        made,
        budget,
        count: n,
    }
}

// How many writes a call may make: one more than fit, and at most 10,000. So no record is asked how many it has made: at this
// limit a count of 10,000 for each of them, as the Rust keeps, would stop nothing.
pub fn write_limit(b: Budget) -> u64
    ensures { Unstopped result × (result ≡ limit b) }
{
    u64::from(budget::safe_iteration_limit(b)).min(CYCLE_WRITES)
}

// How many writes the first `used` cycles of a table owe up to `until`.
pub fn owed_by(table: [Cycle; PLACES], used: usize, until: i64) -> u64
    requires { (counted used places ok_cycle table ≡ true) × (is_time until ≡ true) }
    ensures { result ≡ owed until (take used table) }
{
    let mut sum: u64 = 0;
    for i in 0..used {
        sum += due_count(table[i], until);
    }
    sum
}

// How many events a call adds to the list that owes so many writes.
pub fn gains(b: Budget, owes: u64) -> u64
    ensures { result ≡ min (room value_bytes b) (min cycle_writes owes) }
{
    owes.min(u64::from(budget::remaining_event_capacity(b)))
        .min(CYCLE_WRITES)
}

// What the writes of a target are asked with.
pub fn ask_for(round: Round, target: i32) -> Ask
    ensures { result ≡ ask_for round target }
{
    Ask {
        until: round.until,
        channel: round.channel,
        option: round.options[key_of(target)],
    }
}

// One call: of the first `used` cycles of the table the writes that are due, in table order, up to the limit.
pub fn run_table(
    table: [Cycle; PLACES],
    used: usize,
    round: Round,
    b: Budget,
    events: &mut [i64],
    count: usize,
) -> Called
    requires { (counted used places ok_cycle table ≡ true) × (is_time round.until ≡ true) × (count ≤ length (rows_of events.old))
        × (length (called_state round (take used table) b (events_of events.old count)).events ≤ length (rows_of events.old)) }
    ensures { (result ≡ called_of round used table b (events_of events.old count))
        × (rows_of events.new ≡ put_first zero_event count (called_state round (take used table) b (events_of events.old count)).events (rows_of events.old)) }
{
    let mut cycles = table;
    let mut budget = b;
    let mut n = count;
    let mut left = write_limit(b);
    for i in 0..used {
        let ask = ask_for(round, cycles[i].target);
        let r = run_record(cycles[i], ask, left, budget, events, n);
        cycles[i] = r.cycle;
        budget = r.budget;
        n = r.count;
        left -= r.made;
    }
    Called {
        table: cycles,
        budget,
        count: n,
    }
}
