// A whole write, of a curve, a wave or a sine: its window is taken out of the list and its events are put behind what is
// left. A list without room is refused before anything changes: where the steps alone do not show that there is room, the
// run that puts the events in goes over the same offers once before, behind an empty list, and so only counts.
// Contracts are of the slice read whole as records, and of the budget by value.
#![tactic(auto)]

ghost use Rattle.std.specs.Prelude.{◌≡◌, false, List, [], ◌∷◌, ◌+◌, ◌≤◌, ◌<◌, ◌^◌, max, ltb, None, length};
ghost use Rattle.std.specs.Int.Signed.{mag};
ghost use Rattle.sines.specs.Table.{quarter_table};
ghost use Rattle.budget.specs.Budgets.{step_budget};
ghost use Rattle.eventlist.specs.Rows.{rows_of};
ghost use Rattle.eventlist.specs.Clearing.{Surveyed};
ghost use Rattle.values.specs.Value.{Ready};
ghost use Rattle.offers.specs.Rules.{rule_of, flagged};
ghost use Rattle.offers.specs.Walks.{walked, emitted, append, Wrote};
ghost use Rattle.offers.specs.Pieces.{points_of, offers, total, Mild};
ghost use Rattle.offers.specs.declared.Piece.{Piece};
ghost use Rattle.offers.specs.Waves.{triples, triples_of};
ghost use Rattle.offers.specs.Sources.{rest_of, Runs, Fine};
ghost use Rattle.writing.specs.Origins.{pieces_of, Asked};
ghost use Rattle.writing.specs.Calls.{window_of, new_events_for, outcome_for, rows_for, outcome_tested, rows_tested};
ghost use Rattle.writing.specs.Waves.{cut_by, wave_triples};
ghost use Rattle.writing.specs.Figures.{budget_for, added_to, Shaped};
ghost use Rattle.writing.specs.Sines.{sine_piece, sine_pieces};

use budget::Budget;
use eventlist::{Seen, WIDTH, Window};
use numbers::Refusal;
use offers::{Mode, Piece, Shape, Source, Walk};
use sines::SineType;
use values::Write;

// Where a write's pieces come from: a wave's source over a list of numbers, or one piece, a sine.
#[derive(Clone, Copy)]
pub enum Origin {
    Wave(Source),
    Sine(Piece),
}

// What a writing run leaves: the walk after it, and how many events there are.
#[derive(Clone, Copy)]
pub struct Written {
    pub walk: Walk,
    pub count: usize,
}

// What a write answers: 0, or 4 where an event of the list may not be stored, or 7 where the list has no room; the count of
// events and the budget after it.
#[repr(C)]
#[derive(Clone, Copy)]
pub struct Outcome {
    pub code: u32, // a number beside what it goes with: C reads this record
    pub count: usize,
    pub budget: Budget,
}

// The first `k` steps of a piece, behind the first `count` events. They are written where the list has room for all of them, and
// counted wherever: a run behind an empty list only counts.
fn run_piece(
    w: Write,
    from: Walk,
    t: Piece,
    at: u64,
    k: u64,
    events: &mut [i64],
    count: usize,
    quarter: &[u32; 1025],
) -> Written
    requires ready { Ready w × Mild t at × (k ≤ t.len) × (quarter.now ≡ quarter_table) }
    requires counted { count + length (emitted (rule_of w) from (points_of w.freq at t k)) < 2 ^ 64 }
    ensures { Wrote (rule_of w) from count (rows_of events.old) (points_of w.freq at t k) result.walk result.count (rows_of events.new) }
{
    let mut walk = from;
    let mut n = count;
    let mut j: u64 = 0;
    while j < k {
        let s = offers::take_offer(w, walk, offers::point(t, at, j, quarter));
        walk = s.walk;
        j += w.freq; // a u64, which `step_by` does not take
        if let Some(e) = s.event {
            if n < events.len() / WIDTH {
                eventlist::write_event(events, n, e);
            }
            n += 1;
        }
    }
    Written { walk, count: n }
}

// The same of a wave: the walk that its triples come to in `limit` steps.
fn run_source(
    w: Write,
    from: Walk,
    source: Source,
    numbers: &[i32],
    limit: u64,
    events: &mut [i64],
    count: usize,
    quarter: &[u32; 1025],
) -> Written
    requires ready { Ready w × Runs source (triples numbers.now) × (quarter.now ≡ quarter_table) }
    requires counted { count + length (emitted (rule_of w) from (offers w.freq (rest_of (triples numbers.now) source) limit 0)) < 2 ^ 64 }
    ensures { Wrote (rule_of w) from count (rows_of events.old) (offers w.freq (rest_of (triples numbers.now) source) limit 0) result.walk result.count (rows_of events.new) }
{
    let mut walk = from;
    let mut n = count;
    let mut s = source;
    let mut steps = limit;
    let mut at: u64 = 0;
    while let Some((t, next)) = offers::next_triple(s, numbers) {
        let k = t.len.min(steps);
        let done = run_piece(w, walk, t, at, k, events, n, quarter);
        walk = done.walk;
        n = done.count;
        steps -= k;
        at += t.len;
        s = next;
    }
    Written { walk, count: n }
}

// The same, of any origin.
fn run_origin(
    w: Write,
    from: Walk,
    origin: Origin,
    numbers: &[i32],
    limit: u64,
    events: &mut [i64],
    count: usize,
    quarter: &[u32; 1025],
) -> Written
    requires ready { Ready w × Asked (triples numbers.now) origin × (quarter.now ≡ quarter_table) }
    requires counted { count + length (emitted (rule_of w) from (offers w.freq (pieces_of (triples numbers.now) origin) limit 0)) < 2 ^ 64 }
    ensures { Wrote (rule_of w) from count (rows_of events.old) (offers w.freq (pieces_of (triples numbers.now) origin) limit 0) result.walk result.count (rows_of events.new) }
{
    match origin {
        Origin::Wave(source) => run_source(w, from, source, numbers, limit, events, count, quarter),
        Origin::Sine(t) => run_piece(w, from, t, 0, t.len.min(limit), events, count, quarter),
    }
}

// The steps of the budget's write, counted only.
fn count_run(w: Write, b: Budget, origin: Origin, numbers: &[i32], quarter: &[u32; 1025]) -> Written
    requires { Ready w × Asked (triples numbers.now) origin × (quarter.now ≡ quarter_table) }
    ensures { (result.walk ≡ walked (rule_of w) (record { last = None; budget = b }) (offers w.freq (pieces_of (triples numbers.now) origin) (step_budget b) 0))
        × (result.count ≡ length (new_events_for w b (pieces_of (triples numbers.now) origin))) }
{
    let limit = u64::from(budget::safe_iteration_limit(b));
    let from = Walk {
        last: None,
        budget: b,
    };
    let mut none: [i64; 1] = [0]; // no record fits
    run_origin(w, from, origin, numbers, limit, &mut none, 0, quarter)
}

// The stretch of the list that a write of `long` steps takes out.
fn window_of(w: Write, long: u64) -> Window
    requires { Ready w × (long ≤ 2 ^ 42) }
    ensures { result ≡ window_of w long }
{
    let start = values::start_of(w);
    Window {
        kind: values::kind_of(w.target),
        number: i64::from(w.target),
        start,
        end: start + long as i64,
    }
}

// Sets the flag where the steps did not last.
fn flag_if(b: Budget, short: bool) -> Budget
    ensures { result ≡ flagged b short }
{
    if short { Budget { over: 1, ..b } } else { b }
}

// Whether a write adds more events than `free`. A step adds one at most; only where the steps are too many for that to
// decide is it counted.
fn lacks_room(
    w: Write,
    b: Budget,
    origin: Origin,
    long: u64,
    numbers: &[i32],
    free: usize,
    quarter: &[u32; 1025],
) -> bool
    requires { Ready w × Asked (triples numbers.now) origin × (quarter.now ≡ quarter_table) × (long ≡ total (pieces_of (triples numbers.now) origin)) }
    ensures { result ≡ ltb free (length (new_events_for w b (pieces_of (triples numbers.now) origin))) }
{
    let limit = u64::from(budget::safe_iteration_limit(b));
    if long.min(limit) <= free as u64 {
        false
    } else {
        free < count_run(w, b, origin, numbers, quarter).count
    }
}

// A write of `long` steps, of any origin, into a list in which the survey has `seen` what its window takes: that is taken out
// and its events are appended; or, where the list that this would leave has no room, nothing is changed and the answer is 7.
fn write_core(
    w: Write,
    b: Budget,
    origin: Origin,
    long: u64,
    numbers: &[i32],
    events: &mut [i64],
    count: usize,
    windows: &[Window],
    seen: Seen,
    quarter: &[u32; 1025],
) -> Outcome
    requires ready { Ready w × Asked (triples numbers.now) origin × (quarter.now ≡ quarter_table) × (long ≡ total (pieces_of (triples numbers.now) origin)) × (count ≤ length (rows_of events.old)) }
    requires windows_value { (windows.now ≡ window_of w long ∷ []) × Surveyed windows.now events.old count seen }
    ensures { (result ≡ outcome_for w b (pieces_of (triples numbers.now) origin) (rows_of events.old) count)
        × (rows_of events.new ≡ rows_for w b (pieces_of (triples numbers.now) origin) (rows_of events.old) count) }
{
    let free = events.len() / 8 - (count - seen.taken);
    if lacks_room(w, b, origin, long, numbers, free, quarter) {
        return Outcome {
            code: Refusal::NoRoom.number(),
            count,
            budget: b,
        };
    }
    let kept = eventlist::clear_windows(events, count, windows, seen);
    let limit = u64::from(budget::safe_iteration_limit(b));
    let from = Walk {
        last: None,
        budget: b,
    };
    let done = run_origin(w, from, origin, numbers, limit, events, kept.left, quarter);
    Outcome {
        code: 0,
        count: done.count,
        budget: flag_if(done.walk.budget, limit < long),
    }
}

// The same, into a list that is not tested yet: one pass tests its events, beside a store of `store` bytes, and finds what
// the window takes. Where one may not be stored nothing is changed and the answer is 4.
fn write_tested(
    w: Write,
    b: Budget,
    origin: Origin,
    long: u64,
    numbers: &[i32],
    events: &mut [i64],
    count: usize,
    store: usize,
    quarter: &[u32; 1025],
) -> Outcome
    requires { Ready w × Asked (triples numbers.now) origin × (quarter.now ≡ quarter_table) × (long ≡ total (pieces_of (triples numbers.now) origin)) × (count ≤ length (rows_of events.old)) }
    ensures { (result ≡ outcome_tested store w b (pieces_of (triples numbers.now) origin) events.old count)
        × (rows_of events.new ≡ rows_tested store w b (pieces_of (triples numbers.now) origin) events.old count) }
{
    let windows = [window_of(w, long)];
    match eventlist::survey(events, count, store, &windows) {
        Ok(seen) => write_core(
            w, b, origin, long, numbers, events, count, &windows, seen, quarter,
        ),
        Err(refusal) => Outcome {
            code: refusal.number(),
            count,
            budget: b,
        },
    }
}

// A count of turns or of steps, which is never 0.
pub fn at_least_one(n: u64) -> u64
    ensures { result ≡ max n 1 }
{
    n.max(1)
}

// How many steps a list's triples last in a mode over `n` steps.
fn wave_long(mode: Mode, numbers: &[i32], n: u64) -> u64
    requires { Fine numbers.now }
    ensures { result ≡ total (triples_of mode (triples numbers.now) n) }
{
    let own = offers::total_of(numbers);
    if n == 0 || own == 0 {
        own
    } else {
        match mode {
            Mode::Normal => own,
            Mode::Expand | Mode::Repeat => n,
        }
    }
}

// A list's triples, as they become in a mode over `n` steps.
fn write_triples(
    w: Write,
    b: Budget,
    mode: Mode,
    numbers: &[i32],
    n: u64,
    events: &mut [i64],
    count: usize,
    store: usize,
) -> Outcome
    requires { Ready w × Fine numbers.now × (n ≤ 2 ^ 24) × (count ≤ length (rows_of events.old)) }
    ensures { (result ≡ outcome_tested store w b (triples_of mode (triples numbers.now) n) events.old count)
        × (rows_of events.new ≡ rows_tested store w b (triples_of mode (triples numbers.now) n) events.old count) }
{
    let quarter = sines::table::quarter_table();
    let source = offers::start_source(mode, numbers, n);
    let long = wave_long(mode, numbers, n);
    write_tested(
        w,
        b,
        Origin::Wave(source),
        long,
        numbers,
        events,
        count,
        store,
        &quarter,
    )
}

// A curve: the list's triples as they are.
pub fn write_curve(
    w: Write,
    b: Budget,
    numbers: &[i32],
    events: &mut [i64],
    count: usize,
    store: usize,
) -> Outcome
    requires { Ready w × Fine numbers.now × (count ≤ length (rows_of events.old)) }
    ensures { (result ≡ outcome_tested store w b (triples numbers.now) events.old count)
        × (rows_of events.new ≡ rows_tested store w b (triples numbers.now) events.old count) }
{
    write_triples(w, b, Mode::Normal, numbers, 0, events, count, store)
}

// Whether a mode's note length is cut to the step budget.
fn is_cut(mode: Mode, n: u64, limit: u64) -> bool
    ensures { result ≡ cut_by mode n limit }
{
    match mode {
        Mode::Normal => false,
        Mode::Expand | Mode::Repeat => limit < n,
    }
}

// A sine as one piece.
fn sine_piece(stype: SineType, low: i32, high: i32, len: i32, times: i32) -> Piece
    requires { (mag low ≤ 16383) × (mag high ≤ 16383) × (mag len ≤ 2 ^ 20) × (mag times ≤ 2 ^ 20) }
    ensures { (result ≡ sine_piece stype low high len times) × Mild result 0 }
{
    let turn = offers::length_of(i64::from(len));
    let turns = offers::length_of(i64::from(times)).max(1);
    Piece {
        low: i64::from(low),
        high: i64::from(high),
        len: turn * turns,
        shape: Shape::Turn(stype, turn.max(1)),
    }
}

// A sine from `low` to `high`, `times` turns of `len` steps: a length of 0 or less writes nothing and takes nothing out,
// times of 0 or less count once.
pub fn write_sine(
    w: Write,
    b: Budget,
    stype: SineType,
    low: i32,
    high: i32,
    len: i32,
    times: i32,
    events: &mut [i64],
    count: usize,
    store: usize,
) -> Outcome
    requires { Ready w × (mag low ≤ 16383) × (mag high ≤ 16383) × (mag len ≤ 2 ^ 20) × (mag times ≤ 2 ^ 20) × (count ≤ length (rows_of events.old)) }
    ensures { (result ≡ outcome_tested store w b (sine_pieces stype low high len times) events.old count)
        × (rows_of events.new ≡ rows_tested store w b (sine_pieces stype low high len times) events.old count) }
{
    let quarter = sines::table::quarter_table();
    let piece = sine_piece(stype, low, high, len, times);
    let none: [i32; 1] = [0];
    write_tested(
        w,
        b,
        Origin::Sine(piece),
        piece.len,
        &none,
        events,
        count,
        store,
        &quarter,
    )
}

// Something that is to be written, made ready: where its pieces come from, how many steps it lasts, and whether its note
// was cut.
#[derive(Clone, Copy)]
pub struct Figure {
    pub origin: Origin,
    pub long: u64,
    pub cut: bool,
}

// A wave over a note of `n` steps, as it is written under a budget.
pub fn wave_figure(b: Budget, mode: Mode, numbers: &[i32], n: u64) -> Figure
    requires { Fine numbers.now × (b.maximum ≤ 2 ^ 26) }
    ensures { Shaped result (triples numbers.now)
        × (pieces_of (triples numbers.now) result.origin ≡ wave_triples b mode (triples numbers.now) n)
        × (result.cut ≡ cut_by mode n (step_budget b)) }
{
    let limit = u64::from(budget::safe_iteration_limit(b));
    let steps = n.min(limit);
    Figure {
        origin: Origin::Wave(offers::start_source(mode, numbers, steps)),
        long: wave_long(mode, numbers, steps),
        cut: is_cut(mode, n, limit),
    }
}

// A sine, as it is written.
pub fn sine_figure(stype: SineType, low: i32, high: i32, len: i32, times: i32) -> Figure
    requires { (mag low ≤ 16383) × (mag high ≤ 16383) × (mag len ≤ 2 ^ 20) × (mag times ≤ 2 ^ 20) }
    ensures { ((ts : List Piece) → Shaped result ts × (pieces_of ts result.origin ≡ sine_pieces stype low high len times)) × (result.cut ≡ false) }
{
    let piece = sine_piece(stype, low, high, len, times);
    Figure {
        origin: Origin::Sine(piece),
        long: piece.len,
        cut: false,
    }
}

// The stretch of the list that a figure takes out.
pub fn figure_window(w: Write, figure: Figure) -> Window
    requires { Ready w × (figure.long ≤ 2 ^ 42) }
    ensures { result ≡ window_of w figure.long }
{
    window_of(w, figure.long)
}

// The budget that a figure leaves, with nothing written.
pub fn foresee(
    w: Write,
    b: Budget,
    figure: Figure,
    numbers: &[i32],
    quarter: &[u32; 1025],
) -> Budget
    requires { Ready w × Shaped figure (triples numbers.now) × (quarter.now ≡ quarter_table) }
    ensures { result ≡ flagged (budget_for w b (pieces_of (triples numbers.now) figure.origin)) figure.cut }
{
    let limit = u64::from(budget::safe_iteration_limit(b));
    let after = count_run(w, b, figure.origin, numbers, quarter).walk.budget;
    flag_if(flag_if(after, limit < figure.long), figure.cut)
}

// Puts a figure's events, for which there is room, behind the first `count`. Its window is not asked.
pub fn add_figure(
    w: Write,
    b: Budget,
    figure: Figure,
    numbers: &[i32],
    events: &mut [i64],
    count: usize,
    quarter: &[u32; 1025],
) -> Outcome
    requires { Ready w × Shaped figure (triples numbers.now) × (quarter.now ≡ quarter_table)
        × (count + length (new_events_for w b (pieces_of (triples numbers.now) figure.origin)) ≤ length (rows_of events.old)) }
    ensures { (result ≡ added_to count (new_events_for w b (pieces_of (triples numbers.now) figure.origin)) (flagged (budget_for w b (pieces_of (triples numbers.now) figure.origin)) figure.cut))
        × (rows_of events.new ≡ append (rows_of events.old) count (new_events_for w b (pieces_of (triples numbers.now) figure.origin))) }
{
    let limit = u64::from(budget::safe_iteration_limit(b));
    let from = Walk {
        last: None,
        budget: b,
    };
    let done = run_origin(
        w,
        from,
        figure.origin,
        numbers,
        limit,
        events,
        count,
        quarter,
    );
    let rest = flag_if(done.walk.budget, limit < figure.long);
    Outcome {
        code: 0,
        count: done.count,
        budget: flag_if(rest, figure.cut),
    }
}
