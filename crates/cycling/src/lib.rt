// A track's cycles, written up to a time: the call tests what it is handed in the order of document 01's table, asks by
// division how many events it will add, and only then makes the writes that are due. The track is read and not changed; a
// call that refuses hands back what it was given. What a series of such calls leaves is proofs/Demand.
#![tactic(auto)]

ghost use Rattle.std.specs.Prelude.{◌≡◌};
ghost use Rattle.numbers.specs.Refusals.{told};
ghost use Rattle.cycling.specs.Calls.{quick_refusal, cycled_of, cycled_list};

use budget::{Budget, budget_ok};
use cycles::{Cycle, PLACES, Round, gains, owed_by, run_table};
use eventlist::WIDTH;
use numbers::{Refusal, ask, code_of, is_time};
use state::{Track, cycles_of, lent_alone, track_ok};

// What a cycle call answers: its number, the count of the list, the budget and the cycle table afterwards.
#[repr(C)]
#[derive(Clone, Copy)]
pub struct Cycled {
    pub code: u32, // a number beside what it goes with: C reads this record
    pub count: usize,
    pub budget: Budget,
    pub cycles: [Cycle; PLACES],
}

// Why a cycle call over a list of `long` numbers and `size` lent records is refused, if it is. No write is made or walked for it.
pub fn cycle_refusal(
    track: Track,
    size: usize,
    cycles: [Cycle; PLACES],
    until: i64,
    budget: Budget,
    long: usize,
    count: usize,
) -> Result<(), Refusal>
    ensures { told result ≡ quick_refusal track size cycles until budget long count }
{
    let rows = long / WIDTH;
    let listed = (long % WIDTH == 0) & (count <= rows) & (size == PLACES);
    ask(listed, Refusal::NotAList)?;
    let alone = is_time(until) & track_ok(track) & budget_ok(budget);
    ask(alone, Refusal::OutOfRange)?;
    let own = cycles_of(track, cycles);
    let lent = lent_alone(track.notes, track.waves, track.sines, own);
    ask(lent, Refusal::OutOfRange)?;
    let more = gains(budget, owed_by(cycles, track.cycles, until));
    ask(count as u64 + more <= rows as u64, Refusal::NoRoom)
}

// Makes the writes of the track's cycles that are due up to `until`, in table order, at most 10,000 and one more than fit:
// their events stand behind the list. Answers the new count, the budget and the records advanced; one write that does not fit
// is lost and sets the flag. `size` is how many records were lent. Refuses 1, 4, 7.
pub fn write_cc_on_cycle(
    track: Track,
    size: usize,
    cycles: [Cycle; PLACES],
    until: i64,
    budget: Budget,
    events: &mut [i64],
    count: usize,
) -> Cycled
    ensures { (result ≡ cycled_of track size cycles until budget events.old count)
        × (events.new ≡ cycled_list track size cycles until budget events.old count) }
{
    let code = code_of(cycle_refusal(track, size, cycles, until, budget, events.len(), count));
    if code != 0 {
        return Cycled {
            code,
            count,
            budget,
            cycles,
        };
    }
    let options = track.options; // an array goes from field to field by a variable
    let round = Round {
        until,
        channel: track.channel,
        options,
    };
    let r = run_table(cycles, track.cycles, round, budget, events, count);
    let table = r.table;
    Cycled {
        code: 0,
        count: r.count,
        budget: r.budget,
        cycles: table,
    }
}
