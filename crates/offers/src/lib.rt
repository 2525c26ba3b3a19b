// What a curve, a wave or a sine offers, and what comes of an offer. A write is a list of offers (a value so many
// steps after the start) and a length: the offers come from pieces, each a glide or a sine, and a wave's pieces from
// a source that gives them one after the other, in any mode, with no list built. A walk takes an offer and keeps what
// the next one is held against. Nothing here meets the event list.
#![tactic(auto)]

ghost use Rattle.std.specs.Prelude.{◌≡◌, ◌<◌, ◌^◌, length, get_or, option_to_list};
ghost use Rattle.values.specs.Value.{Ready, Near};
ghost use Rattle.offers.specs.Rules.{rule_of};
ghost use Rattle.laws.specs.Integers.{cut};
ghost use Rattle.sines.specs.Table.{quarter_table};
ghost use Rattle.offers.specs.Walks.{dropped, advance, emit};
ghost use Rattle.offers.specs.Pieces.{point_at, total, Mild};
ghost use Rattle.offers.specs.Waves.{no_piece, triples};
ghost use Rattle.offers.specs.Sources.{more_by, length_by, after_by, source_after, next_of, starting_at, Sound, Short, Fine};

use budget::Budget;
use events::Event;
use sines::SineType;
use values::{Offer, Write};

// What is offered is told apart by enums, not by closures: a piece and a source are plain values that a figure holds and copies.

// How a piece's value goes: straight from low to high over its length, or in turns of a sine, each so many steps long.
#[derive(Clone, Copy)]
pub enum Shape {
    Glide,
    Turn(SineType, u64),
}

// A stretch of a curve, `len` steps long.
#[derive(Clone, Copy)]
pub struct Piece {
    pub low: i64,
    pub high: i64,
    pub len: u64,
    pub shape: Shape,
}

// The last value offered, if there is one, and the budget.
#[derive(Clone, Copy)]
pub struct Walk {
    pub last: Option<i64>,
    pub budget: Budget,
}

// A walk after an offer, and the event that is to be written, if one is.
#[derive(Clone, Copy)]
pub struct Taken {
    pub walk: Walk,
    pub event: Option<Event>,
}

#[derive(Clone, Copy)]
pub enum Mode {
    Normal,
    Expand,
    Repeat,
}

// What gives a wave's triples: the place of the next, the steps left to fill, all steps, and the wave's own length.
#[derive(Clone, Copy)]
pub struct Source {
    pub mode: Mode,
    pub at: usize,
    pub rest: u64,
    pub whole: u64,
    pub total: u64,
}

// Whether an offer is dropped: random is off and its value is the last one's.
#[tactic(auto, unfolding(crate::specs::Rules::rule_of))]
fn is_dropped(w: Write, k: Walk, o: Offer) -> bool
    ensures { result ≡ dropped (rule_of w) k o }
{
    w.option.random <= 0 && k.last == Some(o.value)
}

// Takes an offer: it is dropped, or it becomes an event that is to be written, or one whose bytes do not fit.
pub fn take_offer(w: Write, k: Walk, o: Offer) -> Taken
    requires { Ready w × Near o }
    ensures { (result.walk ≡ advance (rule_of w) k o) × (option_to_list result.event ≡ emit (rule_of w) k o) }
{
    if is_dropped(w, k, o) {
        Taken {
            walk: k,
            event: None,
        }
    } else {
        let r = values::one_value(w, k.budget, o);
        Taken {
            walk: Walk {
                last: Some(o.value),
                budget: r.budget,
            },
            event: if r.fits { Some(r.event) } else { None },
        }
    }
}

// The point of a piece at its step `j`; the piece begins `at` steps after the start. `quarter` is the sine's table.
pub fn point(t: Piece, at: u64, j: u64, quarter: &[u32; 1025]) -> Offer
    requires { Mild t at × (j < t.len) × (quarter.now ≡ quarter_table) }
    ensures { (result ≡ point_at at t j) × Near result }
{
    Offer {
        step: at + j,
        value: match t.shape {
            Shape::Glide => shapes::curve_value(t.low, t.high, j, t.len),
            Shape::Turn(stype, turn) => sines::sine_value(
                quarter,
                stype,
                t.low,
                t.high,
                j % turn,
                turn,
            ),
        },
    }
}

// Whether a source over `count` triples gives another.
fn has_more(s: Source, count: usize) -> bool
    ensures { result ≡ more_by s.mode count s }
{
    match s.mode {
        Mode::Normal | Mode::Expand => s.at < count,
        Mode::Repeat => 0 < s.rest,
    }
}

// The steps that the next triple gets, whose own are `len`.
fn next_length(s: Source, len: u64, last: bool) -> u64
    requires { (0 < s.total) × (s.whole < 2 ^ 32) × (len < 2 ^ 32) }
    ensures { result ≡ length_by s.mode s len last }
{
    match s.mode {
        Mode::Normal => len,
        Mode::Expand => if last {
            s.rest
        } else {
            len * s.whole / s.total
        },
        Mode::Repeat => len.min(s.rest),
    }
}

// The place from which the triple after it comes.
fn place_after(mode: Mode, last: bool, next: usize) -> usize
    ensures { result ≡ after_by mode last next }
{
    match mode {
        Mode::Normal | Mode::Expand => next,
        Mode::Repeat => if last { 0 } else { next },
    }
}

// A length, of a number: none below 0.
pub fn length_of(z: i64) -> u64
    ensures { result ≡ cut z }
{
    u64::try_from(z).unwrap_or(0)
}

// The triple at place `i` of a list of numbers.
fn triple_at(numbers: &[i32], i: usize) -> Piece
    requires { i < length (triples numbers.now) }
    ensures { result ≡ get_or (triples numbers.now) i no_piece }
{
    let first = i * 3;
    Piece {
        low: i64::from(numbers[first]),
        high: i64::from(numbers[first + 1]),
        len: length_of(i64::from(numbers[first + 2])),
        shape: Shape::Glide,
    }
}

// A source when it has given a triple of `len` steps.
fn source_after(s: Source, count: usize, len: u64) -> Source
    requires { s.at < count }
    ensures { result ≡ source_after count s len }
{
    let next = s.at + 1;
    Source {
        at: place_after(s.mode, next == count, next),
        rest: s.rest.saturating_sub(len),
        ..s
    }
}

// The next triple and the source after it, if there is one.
pub fn next_triple(s: Source, numbers: &[i32]) -> Option<(Piece, Source)>
    requires { Sound (triples numbers.now) s × Short (triples numbers.now) }
    ensures { result ≡ next_of (triples numbers.now) s }
{
    let count = numbers.len() / 3;
    if has_more(s, count) {
        let t = triple_at(numbers, s.at);
        let len = next_length(s, t.len, s.at + 1 == count);
        Some((Piece { len, ..t }, source_after(s, count, len)))
    } else {
        None
    }
}

// The steps of all triples of a list.
pub fn total_of(numbers: &[i32]) -> u64
    requires { Fine numbers.now }
    ensures { result ≡ total (triples numbers.now) }
{
    let mut sum: u64 = 0;
    for i in 0..numbers.len() / 3 {
        sum += triple_at(numbers, i).len;
    }
    sum
}

// The source of a wave over `n` steps; one with nothing to fill, or nothing to fill with, gives its triples as they are.
pub fn start_source(mode: Mode, numbers: &[i32], n: u64) -> Source
    requires { Fine numbers.now }
    ensures { result ≡ starting_at mode (triples numbers.now) n }
{
    let total = total_of(numbers);
    if n == 0 || total == 0 {
        Source {
            mode: Mode::Normal,
            at: 0,
            rest: 0,
            whole: 0,
            total: 1,
        }
    } else {
        Source {
            mode,
            at: 0,
            rest: n,
            whole: n,
            total,
        }
    }
}
