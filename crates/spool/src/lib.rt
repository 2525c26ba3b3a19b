// A tape, played: its records one after the other, each read (`reel`) and then carried out (`carrying`), over a state by value and
// a lent list of events. The first record that is refused ends the tape.
#![tactic(auto)]

ghost use Rattle.std.specs.Prelude.{◌≡◌, ◌+◌, ◌≤◌, ◌<◌, length};
ghost use Rattle.reel.specs.Limits.{tape_limit};
ghost use Rattle.reel.specs.Places.{more_due};
ghost use Rattle.text.specs.Laying.{laid};
ghost use Rattle.lines.specs.Puts.{Puts};
ghost use Rattle.spool.specs.Play.{blank_state, begun, refused, past, step_of, ended, play_of, printed};

use budget::Budget;
use carrying::{State, carry_out};
use lines::{Ending, put_end};
use reel::record_at;
use state::{Track, no_cycles};
use std::io::{Print, Result, Stdout};

// How many bytes a tape may have.
pub const TAPE_LIMIT: usize = 16384;

// Room for a tape: one byte more than it may have, so that a longer one shows.
pub const TAPE_ROOM: usize = 16385;

// Room for a tape's events: 512 records of eight numbers.
pub const LIST_ROOM: usize = 4096;

// `at` is the place on the tape, `index` the number of the record that stands there, `due` how many of TK and MX were read.
// A run that was refused has its number in `code`, and its place is the tape's end.
#[derive(Clone, Copy)]
pub struct Run {
    pub code: u32,
    pub at: usize,
    pub index: usize,
    pub due: u32,
    pub state: State,
}

fn blank_state() -> State
    ensures { result ≡ blank_state }
{
    // An array goes from one struct to another by a variable: the check covers no other way.
    let table = no_cycles();
    let cycles = table.items;
    State {
        track: Track::new(0, 0).track,
        cycles,
        budget: Budget::new(0, 0).budget,
        count: 0,
    }
}

fn begin() -> Run
    ensures { result ≡ begun }
{
    Run {
        code: 0,
        at: 0,
        index: 0,
        due: 0,
        state: blank_state(),
    }
}

// The run, over.
fn refuse(run: &mut Run, code: u32, end: usize)
    ensures { run.new ≡ refused run.old code end }
{
    run.code = code;
    run.at = end;
}

fn more_due(due: u32) -> u32
    ensures { result ≡ more_due due }
{
    if due < 2 { due + 1 } else { due }
}

// The run past a record.
fn pass_on(run: &mut Run, next: usize, state: State)
    requires { run.old.index < tape_limit }
    ensures { run.new ≡ past run.old next state }
{
    run.code = 0;
    run.at = next;
    run.index += 1;
    run.due = more_due(run.due);
    run.state = state;
}

// One record.
fn step(run: &mut Run, tape: &[u8], events: &mut [i64])
    requires { (run.old.index ≤ run.old.at) × (run.old.at < length tape.now) × (length tape.now ≤ tape_limit) }
    ensures { (run.new ≡ (step_of tape.now run.old events.old).run) × (events.new ≡ (step_of tape.now run.old events.old).events) }
{
    match record_at(tape, run.at, run.due) {
        Err(refusal) => refuse(run, refusal.number(), tape.len()),
        Ok(r) => match carry_out(run.state, r, events) {
            Err(code) => refuse(run, code, tape.len()),
            Ok(state) => pass_on(run, r.next, state),
        },
    }
}

// The run at the tape's end: a TK or MX that is missing is missed here.
fn end(mut run: Run, end: usize) -> Run
    ensures { result ≡ ended end run }
{
    if (run.code == 0) & (run.due < 2) {
        refuse(&mut run, 8, end);
    }
    run
}

// Plays a whole tape on an empty list: `code` is 0, or the number that refused record `index`. A tape that is longer than
// 16,384 bytes is refused with 8 at record 0. Asks nothing of the bytes; a list without room gives 7, and one that is none 1.
pub fn play(tape: &[u8], events: &mut [i64]) -> Run
    ensures { (result ≡ ended (length tape.now) (play_of tape.now events.old).run) × (events.new ≡ (play_of tape.now events.old).events) }
{
    let n = tape.len();
    let mut run = begin();
    if TAPE_LIMIT < n {
        refuse(&mut run, 8, n);
        return end(run, n);
    }
    while run.at < n {
        step(&mut run, tape, events);
    }
    end(run, n)
}

// Plays a tape on an empty list and puts what is printed of it at the front of `page`; answers how many bytes it is.
pub fn print_tape(tape: &[u8], events: &mut [i64], page: &mut [u8]) -> usize
    ensures puts { Puts 0 (printed tape.now events.old page.old) page.old page.new result }
    ensures events_after { events.new ≡ (play_of tape.now events.old).events }
{
    let run = play(tape, events);
    let ending = Ending {
        code: run.code,
        index: run.index,
        count: run.state.count,
        budget: run.state.budget,
    };
    put_end(page, ending, events)
}

// Plays a tape on an empty list, puts what is printed of it at the front of `page`, and writes that.
pub fn write_tape(to: Stdout, tape: &[u8], events: &mut [i64], page: &mut [u8]) -> Result<()>
    ensures page_after { page.new ≡ laid 0 (printed tape.now events.old page.old) page.old }
    ensures events_after { events.new ≡ (play_of tape.now events.old).events }
{
    let long = print_tape(tape, events, page);
    match page.get(..long) {
        Some(text) => to.write_all(text),
        None => Ok(()),
    }
}
