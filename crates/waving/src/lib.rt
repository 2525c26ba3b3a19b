// What a track's reserved waves and sines write at a note. Between two of them the list may be longer than the buffer, so a
// call goes over them in passes: a plan of the windows that are taken out and of the events that are added, with nothing
// written; the list tested, what the windows take counted with it, and the room asked; then all windows taken out at once,
// so that a kept record moves at most once, and then all events added. No target has two reservations, so this leaves what
// writing one after the other would.
#![tactic(auto)]

ghost use Rattle.std.specs.Prelude.{◌≡◌, true, cond, ◌&&◌, ◌+◌, ◌≤◌, ◌<◌, ◌^◌, length};
ghost use Rattle.laws.specs.Integers.{cut};
ghost use Rattle.budget.specs.declared.Budget.{Budget};
ghost use Rattle.budget.specs.Budgets.{ok_budget, step_budget};
ghost use Rattle.numbers.specs.Limits.{list_limit};
ghost use Rattle.numbers.specs.Ranges.{is_time};
ghost use Rattle.numbers.specs.Refusals.{told};
ghost use Rattle.counted.specs.Numbers.{shown};
ghost use Rattle.sines.specs.Table.{quarter_table};
ghost use Rattle.eventlist.specs.Rows.{rows_of};
ghost use Rattle.eventlist.specs.Sound.{is_list, ok_events};
ghost use Rattle.offers.specs.Walks.{append};
ghost use Rattle.offers.specs.Waves.{triples};
ghost use Rattle.offers.specs.Sources.{Fine};
ghost use Rattle.tables.specs.Reservations.{ok_wave, ok_sine};
ghost use Rattle.state.specs.Tests.{ok_track};
ghost use Rattle.drawing.specs.Calls.{in_order};
ghost use Rattle.writing.specs.Origins.{pieces_of};
ghost use Rattle.writing.specs.Waves.{cut_by, wave_triples};
ghost use Rattle.writing.specs.Figures.{added_to, Shaped};
ghost use Rattle.waving.specs.Drawings.{mode_of, wave_drawing, sine_drawing, drawings_of, drawing_at};
ghost use Rattle.waving.specs.Calls.{wrote_all, rows_all, note_written, note_left};
ghost use Rattle.waving.specs.Passes.{passes, Held, Drawable, Drafts, Plans, events_in, budget_of, unstored};

use budget::{Budget, budget_ok};
use counted::Numbers;
use drawing::write_of;
use eventlist::{Window, clear_windows, list_ok, survey};
use numbers::{Refusal, ask, is_time};
use offers::Mode;
use sines::SineType;
use state::{Track, track_ok};
use tables::{OnNoteSine, OnNoteWave};
use values::Write;
use writing::{Figure, Outcome};

// As many waves and sines as a track may have.
const FIGURES: usize = 32;

// What stands at a place that has no window.
const NONE: Window = Window {
    kind: 0,
    number: 0,
    start: 0,
    end: 0,
};

// A wave or a sine made ready for a note; `numbers` is the wave's list.
#[derive(Clone, Copy)]
struct Draft {
    write: Write,
    figure: Figure,
    numbers: Numbers,
}

// What a call will do: the windows that are taken out, the first `count`, and how many events are added.
#[derive(Clone, Copy)]
struct Plan {
    count: usize,
    windows: [Window; FIGURES],
    added: usize,
}

// What a wave's number says of its lengths.
fn mode_of(mode: u32) -> Mode
    ensures { result ≡ mode_of mode }
{
    match mode {
        1 => Mode::Expand,
        2 => Mode::Repeat,
        _ => Mode::Normal,
    }
}

// A stored list as a wave over a note of `n` steps.
fn list_figure(b: Budget, mode: Mode, list: Numbers, n: u64) -> Figure
    requires { (list.count ≤ list_limit) × Fine (shown list) × (b.maximum ≤ 2 ^ 26) }
    ensures { Shaped result (triples (shown list)) × (pieces_of (triples (shown list)) result.origin ≡ wave_triples b mode (triples (shown list)) n)
        × (result.cut ≡ cut_by mode n (step_budget b)) }
{
    writing::wave_figure(b, mode, &list.items[..list.count], n)
}

// A wave for a note of `n` steps.
fn wave_draft(track: Track, n: u64, b: Budget, e: OnNoteWave) -> Draft
    requires { (ok_track track ≡ true) × (ok_wave e ≡ true) × (b.maximum ≤ 2 ^ 26) }
    ensures { Drafts result (wave_drawing track n e) b }
{
    Draft {
        write: write_of(track, e.target),
        figure: list_figure(b, mode_of(e.mode), e.values, n),
        numbers: e.values,
    }
}

// A sine for a note.
fn sine_draft(track: Track, e: OnNoteSine) -> Draft
    requires { (ok_track track ≡ true) × (ok_sine e ≡ true) }
    ensures { (b : Budget) → Drafts result (sine_drawing track e) b }
{
    let stype = SineType::from_i(i64::from(e.shape));
    Draft {
        write: write_of(track, e.target),
        figure: writing::sine_figure(stype, e.low, e.high, e.length, e.times),
        numbers: counted::empty(),
    }
}

// The wave or sine at place `i`, for a note of `n` steps: waves first, then sines.
fn draft_at(track: Track, n: u64, b: Budget, i: usize) -> Draft
    requires { Held track × (i < track.waves.count + track.sines.count) × (b.maximum ≤ 2 ^ 26) }
    ensures { Drafts result (drawing_at track n i) b }
{
    // Parts of a track are locals first: read in their place, the compiled code copies the whole track.
    let waves = track.waves;
    if i < waves.count {
        wave_draft(track, n, b, waves.items[i])
    } else {
        let sines = track.sines;
        sine_draft(track, sines.items[i - waves.count])
    }
}

// The budget that a draft leaves, with nothing written.
fn foresee_draft(d: Draft, b: Budget, quarter: &[u32; 1025]) -> Budget
    requires { Drawable d × (quarter.now ≡ quarter_table) }
    ensures { result ≡ budget_of d b }
{
    writing::foresee(
        d.write,
        b,
        d.figure,
        &d.numbers.items[..d.numbers.count],
        quarter,
    )
}

// Puts a draft's events, for which there is room, behind the first `count`.
fn add_draft(
    d: Draft,
    b: Budget,
    events: &mut [i64],
    count: usize,
    quarter: &[u32; 1025],
) -> Outcome
    requires { Drawable d × (quarter.now ≡ quarter_table) × (count + length (events_in d b) ≤ length (rows_of events.old)) }
    ensures { (result ≡ added_to count (events_in d b) (budget_of d b)) × (rows_of events.new ≡ append (rows_of events.old) count (events_in d b)) }
{
    let numbers = &d.numbers.items[..d.numbers.count];
    writing::add_figure(d.write, b, d.figure, numbers, events, count, quarter)
}

// The plan of a call: goes over the waves and sines until the flag is set, with nothing written. The loop has two ends, here and in
// `add_all`: a `for` would say the second by a `break`.
fn plan_of(track: Track, n: u64, b: Budget, quarter: &[u32; 1025]) -> Plan
    requires { Held track × (b.maximum ≤ 2 ^ 26) × (quarter.now ≡ quarter_table) }
    ensures { Plans result (passes (drawings_of track n) b) }
{
    let mut windows = [NONE; FIGURES];
    let total = track.waves.count + track.sines.count;
    let mut rest = b;
    let mut i: usize = 0;
    while (i < total) & (rest.over == 0) {
        let d = draft_at(track, n, rest, i);
        windows[i] = writing::figure_window(d.write, d.figure);
        rest = foresee_draft(d, rest, quarter);
        i += 1;
    }
    Plan {
        count: i,
        windows: windows,
        added: ((rest.used - b.used) / 8) as usize,
    }
}

// Puts the events of all waves and sines, until the flag is set, behind the first `count`, where there is room for them.
fn add_all(
    track: Track,
    n: u64,
    b: Budget,
    events: &mut [i64],
    count: usize,
    quarter: &[u32; 1025],
) -> Outcome
    requires { Held track × (b.maximum ≤ 2 ^ 26) × (quarter.now ≡ quarter_table)
        × (count + length (passes (drawings_of track n) b).news ≤ length (rows_of events.old)) }
    ensures { (result ≡ added_to count (passes (drawings_of track n) b).news (passes (drawings_of track n) b).budget)
        × (rows_of events.new ≡ append (rows_of events.old) count (passes (drawings_of track n) b).news) }
{
    let all = track.waves.count + track.sines.count;
    let mut rest = b;
    let mut c = count;
    let mut i: usize = 0;
    while (i < all) & (rest.over == 0) {
        let d = draft_at(track, n, rest, i);
        let o = add_draft(d, rest, events, c, quarter);
        rest = o.budget;
        c = o.count;
        i += 1;
    }
    Outcome {
        code: 0,
        count: c,
        budget: rest,
    }
}

// Writes the waves and sines of a track that stands at a note's start, for a note of `n` steps: 4 where an event may not be
// stored beside `store` bytes, 7 where the list that this would leave has no room, and then nothing is changed.
fn write_all(
    track: Track,
    n: u64,
    b: Budget,
    events: &mut [i64],
    count: usize,
    store: usize,
) -> Outcome
    requires { Held track × (b.maximum ≤ 2 ^ 26) × (count ≤ length (rows_of events.old)) }
    ensures { (result ≡ cond (ok_events store events.old count) (wrote_all (drawings_of track n) b (rows_of events.old) count) (unstored count b))
        × (rows_of events.new ≡ cond (ok_events store events.old count) (rows_all (drawings_of track n) b (rows_of events.old) count) (rows_of events.old)) }
{
    let quarter = sines::table::quarter_table();
    let plan = plan_of(track, n, b, &quarter);
    let windows = &plan.windows[..plan.count];
    let seen = match survey(events, count, store, windows) {
        Ok(seen) => seen,
        Err(refusal) => {
            return Outcome {
                code: refusal.number(),
                count,
                budget: b,
            };
        }
    };
    let kept = count - seen.taken;
    if events.len() / 8 - kept < plan.added {
        return Outcome {
            code: Refusal::NoRoom.number(),
            count,
            budget: b,
        };
    }
    let cleared = clear_windows(events, count, windows, seen);
    add_all(track, n, b, events, cleared.left, &quarter)
}

// What a call asks before its events are looked at: the list, and then the numbers, but for the events'.
#[tactic(auto, unfolding(drawing::specs::Calls::in_order))]
fn asked(
    track: &Track,
    start: i64,
    budget: Budget,
    events: &[i64],
    count: usize,
) -> Result<(), Refusal>
    ensures { told result ≡ in_order (is_list events.now count) true true (is_time start && ok_track track.now && ok_budget budget) 0 }
{
    ask(list_ok(events, count), Refusal::NotAList)?;
    ask(
        is_time(start) & track_ok(*track) & budget_ok(budget),
        Refusal::OutOfRange,
    )
}

// Writes the waves and then the sines that are reserved for the track's notes, over a note from `start` to the track's time;
// they stop once the flag is set. Answers the count of events and the budget after them, and leaves the events in the list;
// the track stays as it is. Refuses 1, 4, 7; then list, count and budget are those that were handed in.
pub fn write_cc_on_note_wave(
    track: Track,
    start: i64,
    budget: Budget,
    events: &mut [i64],
    count: usize,
    store: &[u8],
) -> Outcome
    ensures { (result ≡ note_written (length store.now) track start budget events.old count)
        × (events.new ≡ note_left (length store.now) track start budget events.old count) }
{
    if let Err(refusal) = asked(&track, start, budget, events, count) {
        return Outcome {
            code: refusal.number(),
            count,
            budget,
        };
    }
    let n = offers::length_of(track.timepos - start);
    let mut at = track;
    at.timepos = start;
    write_all(at, n, budget, events, count, store.len())
}
