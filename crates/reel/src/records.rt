// A record of a tape, read whole or refused.
ghost use Rattle.std.specs.Prelude.{Some, ◌≡◌, ◌+◌, ◌*◌, ◌≤◌, ◌<◌, length};
ghost use Rattle.numbers.specs.Limits.{list_limit};
ghost use Rattle.reel.specs.Records.{behind, mark_at, second_at, last_at, list_fault, mark_fault, count_at, sound, record_at};

use crate::marks::{Mark, mark_of};
use crate::numerals::{count_of, is_count, letters_at, numbers_at};
use counted::Numbers;
use numbers::{Refusal, ask};
use text::number_at;

// `x` and `y` are the first two numbers, `list` those of the list, `next` the place of the next record. What a mark does not
// have is 0.
#[derive(Clone, Copy)]
pub struct Record {
    pub mark: Mark,
    pub x: i32,
    pub y: i32,
    pub list: Numbers,
    pub next: usize,
}

// The mark at `at`, if all its numbers are there.
fn mark_at(tape: &[u8], at: usize) -> Option<Mark>
    ensures { result ≡ mark_at tape.now at }
{
    if tape.len() < 2 || tape.len() - 2 < at {
        return None;
    }
    let m = mark_of(letters_at(tape, at))?;
    if tape.len() - 2 - at < 4 * m.width() {
        None
    } else {
        Some(m)
    }
}

// The second number, where there is one.
fn second_at(tape: &[u8], at: usize, mark: Mark) -> i32
    requires { behind at mark ≤ length tape.now }
    ensures { result ≡ second_at tape.now at mark }
{
    if 1 < mark.width() {
        number_at(tape, at + 6)
    } else {
        0
    }
}

// The last number before a list.
fn last_at(tape: &[u8], at: usize, mark: Mark) -> i32
    requires { behind at mark ≤ length tape.now }
    ensures { result ≡ last_at tape.now at mark }
{
    number_at(tape, at + 2 + 4 * (mark.width() - 1))
}

// Why a list of n numbers from `at` on is refused: 2 for its target, 3 for n, 8 where it is short.
fn list_fault(tape: &[u8], at: usize, target: i32, n: i32) -> Result<(), Refusal>
    requires { at ≤ length tape.now }
    ensures { result ≡ list_fault tape.now at target n }
{
    ask(numbers::is_target(target), Refusal::NoTarget)?;
    ask(is_count(n), Refusal::TooMany)?;
    ask(4 * count_of(n) <= tape.len() - at, Refusal::TapeFault)
}

// Why the record of this mark is refused, if it is.
fn fault_at(tape: &[u8], at: usize, mark: Mark, due: u32) -> Result<(), Refusal>
    requires { Some mark ≡ mark_at tape.now at }
    ensures { result ≡ mark_fault tape.now at due mark }
{
    ask(mark.is_due(due), Refusal::TapeFault)?;
    if mark.has_list() {
        let target = number_at(tape, at + 2);
        let n = last_at(tape, at, mark);
        list_fault(tape, at + 2 + 4 * mark.width(), target, n)
    } else {
        Ok(())
    }
}

// How many numbers its list has.
fn count_at(tape: &[u8], at: usize, mark: Mark) -> usize
    requires { behind at mark ≤ length tape.now }
    ensures { result ≡ count_at tape.now at mark }
{
    if mark.has_list() {
        count_of(last_at(tape, at, mark))
    } else {
        0
    }
}

// A record of which everything is there.
fn sound_at(tape: &[u8], at: usize, mark: Mark, n: usize) -> Record
    requires { (n ≤ list_limit) × (behind at mark + 4 * n ≤ length tape.now) }
    ensures { result ≡ sound tape.now at mark n }
{
    let p = at + 2 + 4 * mark.width();
    Record {
        mark,
        x: number_at(tape, at + 2),
        y: second_at(tape, at, mark),
        list: numbers_at(tape, p, n),
        next: p + 4 * n,
    }
}

// The record at `at`, where `due` of TK and MX were read before it. Refuses 8 (an unknown mark, a number missing, a mark whose
// turn it is not), 2 (the target of a list), 3 (a list's count), 8 (a list that is short).
pub fn record_at(tape: &[u8], at: usize, due: u32) -> Result<Record, Refusal>
    ensures { result ≡ record_at tape.now at due }
{
    let Some(mark) = mark_at(tape, at) else {
        return Err(Refusal::TapeFault);
    };
    fault_at(tape, at, mark, due)?;
    Ok(sound_at(tape, at, mark, count_at(tape, at, mark)))
}
