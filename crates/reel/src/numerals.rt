// The numbers of a record.
ghost use Rattle.std.specs.Prelude.{◌≡◌, ◌+◌, ◌*◌, ◌≤◌, ◌<◌, length};
ghost use Rattle.laws.specs.Integers.{cut};
ghost use Rattle.numbers.specs.Limits.{list_limit};
ghost use Rattle.counted.specs.Numbers.{numbers};
ghost use Rattle.reel.specs.Numbers.{letters_at, numbers_at};
ghost use Rattle.reel.specs.Records.{is_count};

use counted::{LIST_LIMIT, Numbers};
use text::number_at;

// The two letters at `at`.
pub fn letters_at(tape: &[u8], at: usize) -> u32
    requires { at + 2 ≤ length tape.now }
    ensures { result ≡ letters_at tape.now at }
{
    u32::from(u16::from_le_bytes([tape[at], tape[at + 1]]))
}

// Whether a list may have n numbers.
#[tactic(auto, unfolding(crate::specs::Records::is_count_by))]
pub fn is_count(n: i32) -> bool
    ensures { result ≡ is_count n }
{
    numbers::within(0, i64::from(n), LIST_LIMIT as i64)
}

// n as a count: none below 0.
pub fn count_of(n: i32) -> usize
    ensures { result ≡ cut n }
{
    usize::try_from(n).unwrap_or(0)
}

// n numbers from `at` on.
pub fn numbers_at(tape: &[u8], at: usize, n: usize) -> Numbers
    requires { (n ≤ list_limit) × (at + 4 * n ≤ length tape.now) }
    ensures { result ≡ numbers (numbers_at tape.now at n) }
{
    let mut list = counted::empty();
    for i in 0..n {
        list.items[i] = number_at(tape, at + 4 * i);
    }
    list.count = n;
    list
}
