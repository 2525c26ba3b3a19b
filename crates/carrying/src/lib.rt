// The call that each record of a tape names, and the state that the records work at. Each is a public call of the port, handed
// the record's numbers; what it answers and leaves is said by its own definition.
#![tactic(auto)]

ghost use Rattle.std.specs.Prelude.{◌≡◌, ◌≤◌, length, take};
ghost use Rattle.numbers.specs.Limits.{list_limit};
ghost use Rattle.drawing.specs.Calls.{draw_answer, draw_left, on_time};
ghost use Rattle.reserving.specs.Setting.{set_on_cycle};
ghost use Rattle.cutting.specs.Cuts.{cut_taken, cut_left, plain};
ghost use Rattle.carrying.specs.Carry.{make_track, make_budget, move_to, both_freqs, set_freqs, curve_of, drawn_to, kept_to, set_cycle, cycled_to, turn_answer, turn_list, cut_to, carried};

use budget::Budget;
use cutting::play_from;
use cycles::{Cycle, PLACES};
use cycling::write_cc_on_cycle;
use drawing::write_on_time;
use reel::{Mark, Record};
use reserving::set_on_cycle;
use state::{Track, TrackAnswer, set_cc_on_time_freq, set_pb_on_time_freq, set_timepos};
use values::widened;

// What a tape's records work at, beside the list of events: `count` of these are in use.
#[derive(Clone, Copy)]
pub struct State {
    pub track: Track,
    pub cycles: [Cycle; PLACES],
    pub budget: Budget,
    pub count: usize,
}

// TK: a new track.
fn make_track(mut state: State, r: Record) -> Result<State, u32>
    ensures { result ≡ make_track state r }
{
    let t = Track::new(r.x, r.y);
    if t.code != 0 {
        return Err(t.code);
    }
    state.track = t.track;
    Ok(state)
}

// MX: a new budget. A maximum below 0 has bits above every maximum, and is refused as one of those.
fn make_budget(mut state: State, r: Record) -> Result<State, u32>
    ensures { result ≡ make_budget state r }
{
    let maximum = text::bits_of(r.x);
    let seed = text::bits_of(r.y);
    let b = Budget::new(seed, maximum);
    if b.code != 0 {
        return Err(b.code);
    }
    state.budget = b.budget;
    Ok(state)
}

// TP: where the track stands.
fn move_to(mut state: State, r: Record) -> Result<State, u32>
    ensures { result ≡ move_to state r }
{
    let t = set_timepos(state.track, widened(r.x));
    if t.code != 0 {
        return Err(t.code);
    }
    state.track = t.track;
    Ok(state)
}

// Both frequencies, or neither.
fn both_freqs(track: Track, controllers: i32, bends: i32) -> TrackAnswer
    ensures { result ≡ both_freqs track controllers bends }
{
    let first = set_cc_on_time_freq(track, controllers);
    if first.code != 0 {
        first
    } else {
        let second = set_pb_on_time_freq(first.track, bends);
        if second.code != 0 {
            TrackAnswer { track, ..second }
        } else {
            second
        }
    }
}

// FQ: both frequencies.
fn set_freqs(mut state: State, r: Record) -> Result<State, u32>
    ensures { result ≡ set_freqs state r }
{
    let t = both_freqs(state.track, r.x, r.y);
    if t.code != 0 {
        return Err(t.code);
    }
    state.track = t.track;
    Ok(state)
}

// A curve of the first n of `items`, for a target.
fn draw_first(
    mut state: State,
    target: i32,
    items: &[i32],
    n: usize,
    events: &mut [i64],
) -> Result<State, u32>
    requires { n ≤ length items.now }
    ensures { (result ≡ drawn_to state (draw_answer (on_time state.track target (take n items.now) state.budget events.old state.count 0)))
        × (events.new ≡ draw_left (on_time state.track target (take n items.now) state.budget events.old state.count 0)) }
{
    let o = write_on_time(
        state.track,
        target,
        &items[..n],
        state.budget,
        events,
        state.count,
        b"",
    );
    if o.code != 0 {
        return Err(o.code);
    }
    state.budget = o.budget;
    state.count = o.count;
    Ok(state)
}

// OT: a curve.
fn draw(state: State, r: Record, events: &mut [i64]) -> Result<State, u32>
    requires { r.list.count ≤ list_limit }
    ensures { (result ≡ drawn_to state (draw_answer (curve_of state r events.old))) × (events.new ≡ draw_left (curve_of state r events.old)) }
{
    draw_first(state, r.x, &r.list.items, r.list.count, events)
}

// A cycle of the first n of `items`, for a target.
fn keep_first(
    mut state: State,
    target: i32,
    len: i32,
    items: &[i32],
    n: usize,
) -> Result<State, u32>
    requires { n ≤ length items.now }
    ensures { result ≡ kept_to state (set_on_cycle state.track 16 state.cycles target len (take n items.now)) }
{
    let k = set_on_cycle(state.track, PLACES, state.cycles, target, len, &items[..n]);
    // An array goes from one struct to another by a variable: the check covers no other way.
    let cycles = k.cycles;
    if k.code != 0 {
        return Err(k.code);
    }
    state.track = k.track;
    state.cycles = cycles;
    Ok(state)
}

// CY: a cycle set.
fn set_cycle(state: State, r: Record) -> Result<State, u32>
    requires { r.list.count ≤ list_limit }
    ensures { result ≡ set_cycle state r }
{
    keep_first(state, r.x, r.y, &r.list.items, r.list.count)
}

// RC: the cycles' writes up to a time.
fn turn(mut state: State, r: Record, events: &mut [i64]) -> Result<State, u32>
    ensures { (result ≡ cycled_to state (turn_answer state r events.old)) × (events.new ≡ turn_list state r events.old) }
{
    let until = widened(r.x);
    let k = write_cc_on_cycle(
        state.track,
        PLACES,
        state.cycles,
        until,
        state.budget,
        events,
        state.count,
    );
    let cycles = k.cycles;
    if k.code != 0 {
        return Err(k.code);
    }
    state.cycles = cycles;
    state.budget = k.budget;
    state.count = k.count;
    Ok(state)
}

// PF: the plain cut.
fn cut(mut state: State, r: Record, events: &mut [i64]) -> Result<State, u32>
    ensures { (result ≡ cut_to state (cut_taken 0 events.old state.count (plain r.x))) × (events.new ≡ cut_left 0 events.old state.count (plain r.x)) }
{
    let at = widened(r.x);
    let t = play_from(events, state.count, at, b"");
    if t.code != 0 {
        return Err(t.code);
    }
    state.count = t.count;
    Ok(state)
}

// Carries a record out that was read whole: the call that its mark names.
pub fn carry_out(state: State, r: Record, events: &mut [i64]) -> Result<State, u32>
    requires { r.list.count ≤ list_limit }
    ensures { (result ≡ (carried state r events.old).done) × (events.new ≡ (carried state r events.old).events) }
{
    match r.mark {
        Mark::Track => make_track(state, r),
        Mark::Budget => make_budget(state, r),
        Mark::Time => move_to(state, r),
        Mark::Freqs => set_freqs(state, r),
        Mark::Curve => draw(state, r, events),
        Mark::Cycle => set_cycle(state, r),
        Mark::Turn => turn(state, r, events),
        Mark::Cut => cut(state, r, events),
    }
}
