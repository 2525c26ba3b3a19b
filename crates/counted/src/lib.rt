// Lists of numbers that are held by value: a count, and room for as many as a list may have. What stands past the
// count is zero in every list made here, and is never read.
#![tactic(auto)]

ghost use Rattle.std.specs.Prelude.{◌≡◌, ◌≤◌};
ghost use Rattle.laws.specs.Lists.{all};
ghost use Rattle.numbers.specs.Limits.{list_limit};
ghost use Rattle.counted.specs.Numbers.{none, numbers_of, shown, ok_numbers, got_at};
ghost use Rattle.counted.specs.Curves.{triples, has_length, ok_curve};

use numbers::{Refusal, ask, is_length, is_number};

// How many numbers a list may have.
pub const LIST_LIMIT: usize = 192;

#[repr(C)]
#[derive(Clone, Copy)]
pub struct Numbers {
    pub count: usize,
    pub items: [i32; LIST_LIMIT], // an array with its count: C lends it within a track, and nothing here takes memory
}

// The empty list.
#[tactic(auto, unfolding(crate::specs::Numbers::zeros))]
pub fn empty() -> Numbers
    ensures { result ≡ none }
{
    Numbers {
        count: 0,
        items: [0; LIST_LIMIT],
    }
}

// The numbers of `args`, with zeros behind them. Refuses 3.
pub fn numbers_of(args: &[i32]) -> Result<Numbers, Refusal>
    ensures { result ≡ numbers_of args.now }
{
    let count = args.len();
    ask(count <= LIST_LIMIT, Refusal::TooMany)?;
    let mut items = [0; LIST_LIMIT];
    items[..count].copy_from_slice(args);
    Ok(Numbers { count, items })
}

// Whether `list` has at most as many numbers as a list may have, each in range.
pub fn numbers_ok(list: Numbers) -> bool
    ensures { result ≡ ok_numbers list }
{
    list.count <= LIST_LIMIT && list.items[..list.count].iter().all(|x| is_number(*x))
}

// Whether the third number of each whole triple is a length.
fn thirds_ok(list: Numbers) -> bool
    requires { list.count ≤ list_limit }
    ensures { result ≡ all has_length (triples (shown list)) }
{
    list.items[..list.count]
        .chunks_exact(3)
        .all(|triple| is_length(triple[2]))
}

// Whether `list` is one of a curve or a wave: numbers in range, and a length in each third place.
#[tactic(auto, unfolding(crate::specs::Curves::ok_curve))]
pub fn curve_ok(list: Numbers) -> bool
    ensures { result ≡ ok_curve list }
{
    numbers_ok(list) && thirds_ok(list)
}

// The number at a place of a list, if so many count.
pub fn number_at(list: Numbers, i: usize) -> Option<i32>
    requires { list.count ≤ list_limit }
    ensures { result ≡ got_at list i }
{
    list.items[..list.count].get(i).copied()
}
