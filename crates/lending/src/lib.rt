// The cycle table as the caller lends it: sixteen records that are advanced in place. They are copied into an array for the tests
// of a call, and the loop that makes the writes that are due goes over the lent records, one by value a turn. A table that is not
// of sixteen is left alone.
#![tactic(auto)]

ghost use Rattle.std.specs.Prelude.{◌≡◌, length};
ghost use Rattle.cycling.specs.Calls.{round_of, cycled_of, cycled_list};
ghost use Rattle.lending.specs.Passing.{ran, placed};
ghost use Rattle.lending.specs.Moving.{loaded_of, saved_of};
ghost use Rattle.lending.specs.Writing.{may_go, went_of, went_list, pass_of, onward, advanced_by, begun_with, answer_of};

use budget::Budget;
use cycles::{Cycle, PLACES, Round, ask_for, cycle_ok, due_count, run_record, write_limit};
use cycling::cycle_refusal;
use eventlist::WIDTH;
use numbers::{code_of, is_time};
use state::Track;

// The lent records by value, where they are sixteen; else sixteen that are unused.
pub fn load_cycles(cycles: &[Cycle]) -> [Cycle; PLACES]
    ensures { result ≡ loaded_of cycles.now }
{
    let mut own = [Cycle::none(); PLACES];
    if cycles.len() == PLACES {
        own.copy_from_slice(cycles);
    }
    own
}

// Puts sixteen records in the place of the lent ones; where those are not sixteen, they are left as they are.
pub fn save_cycles(cycles: &mut [Cycle], table: [Cycle; PLACES])
    ensures { cycles.new ≡ saved_of table cycles.old }
{
    if cycles.len() == PLACES {
        cycles.copy_from_slice(&table);
    }
}

// A cycle call under way: its number, how many of the track's records are still to come, how many writes are left, the budget,
// and the count of the list.
#[derive(Clone, Copy)]
pub struct Going {
    pub code: u32,
    pub used: usize,
    pub left: u64,
    pub budget: Budget,
    pub count: usize,
}

// What a turn of it leaves.
#[derive(Clone, Copy)]
pub struct Went {
    pub cycle: Cycle,
    pub going: Going,
}

// What a lent cycle call answers: its number, and the count of the list afterwards.
#[repr(C)]
#[derive(Clone, Copy)]
pub struct Answer {
    pub code: u32, // a number beside what it goes with: C reads this record
    pub count: usize,
}

// Whether a record's writes are made: the call was not refused, the track counts the record, and it, the time and the room for
// its events are in order. In a call that was not refused, these always are.
fn may_go(round: Round, c: Cycle, long: usize, s: Going) -> bool
    ensures { result ≡ may_go round c long s }
{
    let rows = long / WIDTH;
    let ok = cycle_ok(c);
    let timely = is_time(round.until);
    if (s.code == 0) & (0 < s.used) & ok & timely & (long % WIDTH == 0) & (s.count <= rows) {
        let made = s.left.min(due_count(c, round.until));
        let more = u64::from(budget::remaining_event_capacity(s.budget)).min(made);
        s.count as u64 + more <= rows as u64
    } else {
        false
    }
}

// One record's writes of a call, where they are made; else record, list and state are left alone.
pub fn step_record(round: Round, c: Cycle, events: &mut [i64], s: Going) -> Went
    ensures { (result ≡ went_of round c events.old s) × (events.new ≡ went_list round c events.old s) }
{
    if !may_go(round, c, events.len(), s) {
        return Went { cycle: c, going: s };
    }
    let ask = ask_for(round, c.target);
    let r = run_record(c, ask, s.left, s.budget, events, s.count);
    Went {
        cycle: r.cycle,
        going: Going {
            code: 0,
            used: s.used - 1,
            left: s.left - r.made,
            budget: r.budget,
            count: r.count,
        },
    }
}

// How a cycle call over `size` lent records, which were loaded, begins: with the number that it answers.
pub fn begin(
    track: Track,
    size: usize,
    loaded: [Cycle; PLACES],
    until: i64,
    budget: Budget,
    long: usize,
    count: usize,
) -> Going
    ensures { result ≡ begun_with track size loaded until budget long count }
{
    Going {
        code: code_of(cycle_refusal(track, size, loaded, until, budget, long, count)),
        used: track.cycles,
        left: write_limit(budget),
        budget,
        count,
    }
}

// What a cycle call is asked with.
pub fn round_of(track: Track, until: i64) -> Round
    ensures { result ≡ round_of track until }
{
    let options = track.options; // an array goes from field to field by a variable
    Round {
        until,
        channel: track.channel,
        options,
    }
}

// The writes of the lent records, each advanced in its place.
pub fn advance_records(
    round: Round,
    cycles: &mut [Cycle],
    events: &mut [i64],
    going: Going,
) -> Going
    ensures { (result ≡ (ran (onward round) (pass_of going events.old) cycles.old).state)
        × (cycles.new ≡ placed (onward round) (advanced_by round) (pass_of going events.old) cycles.old)
        × (events.new ≡ (ran (onward round) (pass_of going events.old) cycles.old).events) }
{
    let mut s = going;
    for c in cycles.iter_mut() {
        let r = step_record(round, *c, events, s);
        *c = r.cycle;
        s = r.going;
    }
    s
}

// Makes the writes of the track's cycles that are due up to `until`, as `cycling::write_cc_on_cycle` does, over a cycle table and a
// budget that are lent: the records are advanced in place. Answers the new count. Refuses 1, 4, 7; then all that was lent is left.
pub fn write_cc_on_cycle(
    track: Track,
    cycles: &mut [Cycle],
    until: i64,
    budget: &mut Budget,
    events: &mut [i64],
    count: usize,
) -> Answer
    ensures { (result ≡ answer_of (cycled_of track (length cycles.old) cycles.old until budget.old events.old count))
        × (cycles.new ≡ (cycled_of track (length cycles.old) cycles.old until budget.old events.old count).cycles)
        × (budget.new ≡ (cycled_of track (length cycles.old) cycles.old until budget.old events.old count).budget)
        × (events.new ≡ cycled_list track (length cycles.old) cycles.old until budget.old events.old count) }
{
    let loaded = load_cycles(cycles);
    let going = begin(
        track,
        cycles.len(),
        loaded,
        until,
        *budget,
        events.len(),
        count,
    );
    let round = round_of(track, until);
    let r = advance_records(round, cycles, events, going);
    *budget = r.budget;
    Answer {
        code: r.code,
        count: r.count,
    }
}
