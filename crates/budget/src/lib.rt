// The budget: the random seed and the bytes that events may take, in one record that every write is handed and
// hands back, advanced. A write first steps the seed, then asks for its bytes; one that does not fit sets the
// flag `over` and takes none. A new budget is tested as it is made, one that comes from outside by `budget_ok`; the rest
// here asks nothing of the record.
#![tactic(auto)]

ghost use Rattle.std.specs.Prelude.{◌≡◌, ◌<◌, ◌^◌};
ghost use Rattle.std.specs.Int.Signed.{mag};
ghost use Rattle.numbers.specs.Limits.{value_bytes};
ghost use Rattle.budget.specs.Budgets.{new_budget, ok_budget, free, room, step_budget, stepped, fits, reserved, rolled};

use numbers::Refusal;

// `used` may exceed `maximum`; `over` is 1 once a write did not fit, else 0.
#[repr(C)]
#[derive(Clone, Copy)]
pub struct Budget {
    pub seed: u32,
    pub maximum: u32,
    pub used: u32,
    pub over: u32,
}

// What `Budget::new` answers: 0 and the budget, or the refusal's number and a budget of zeros.
#[repr(C)]
#[derive(Clone, Copy)]
pub struct BudgetAnswer {
    pub code: u32, // a number beside what it goes with: C reads this record
    pub budget: Budget,
}

// What asking for bytes gives. The budget is the one to go on with either way, so `fits` stands beside it: an `Option` of the
// budget would lose the flag that was set.
#[derive(Clone, Copy)]
pub struct Reserved {
    pub budget: Budget,
    pub fits: bool,
}

// A value that random moved, and the budget after it.
#[derive(Clone, Copy)]
pub struct Rolled {
    pub value: i64,
    pub budget: Budget,
}

// How many bytes the event of a controller or a bend takes.
pub const VALUE_BYTES: u32 = 8;

impl Budget {
    // Nothing used yet, the flag clear. Refuses 4, and then hands back a budget of zeros.
    #[tactic(auto, unfolding(crate::specs::Budgets::new_budget))]
    pub fn new(seed: u32, maximum: u32) -> BudgetAnswer
        ensures { result ≡ new_budget seed maximum }
    {
        if numbers::is_bytes(maximum) {
            BudgetAnswer {
                code: 0,
                budget: Budget {
                    seed,
                    maximum,
                    used: 0,
                    over: 0,
                },
            }
        } else {
            BudgetAnswer {
                code: Refusal::OutOfRange.number(),
                budget: Budget {
                    seed: 0,
                    maximum: 0,
                    used: 0,
                    over: 0,
                },
            }
        }
    }
}

// Functions and not methods, here and below: a method of a type that `track` hands on would be a public call.

// The bytes left: maximum less used, at least 0.
pub fn free_bytes(b: Budget) -> u32
    ensures { result ≡ free b }
{
    b.maximum.saturating_sub(b.used)
}

// How many controllers' or bends' events still fit.
pub fn remaining_event_capacity(b: Budget) -> u32
    ensures { result ≡ room value_bytes b }
{
    free_bytes(b) / VALUE_BYTES
}

// The budget with its seed stepped once.
pub fn step_seed(b: Budget) -> Budget
    ensures { result ≡ stepped b }
{
    Budget {
        seed: numbers::next_rand(b.seed),
        ..b
    }
}

// Whether maximum, bytes used and flag are within their ranges.
#[tactic(auto, unfolding(crate::specs::Budgets::ok_budget))]
pub fn budget_ok(b: Budget) -> bool
    ensures { result ≡ ok_budget b }
{
    numbers::is_bytes(b.maximum) & numbers::is_bytes(b.used) & (b.over <= 1)
}

// How many steps a run of writes may take: one more than fit, so that it finds out that the budget is spent.
pub fn safe_iteration_limit(b: Budget) -> u32
    ensures { result ≡ step_budget b }
{
    remaining_event_capacity(b) + 1
}

// `value` moved by random over `width`, and the budget with its seed stepped. A width of 0 or less gives the
// value and leaves the seed.
pub fn calc_rand_value(b: Budget, value: i64, width: i64) -> Rolled
    requires { (mag value < 2 ^ 40) × (mag width < 2 ^ 40) }
    ensures { result ≡ rolled value width b }
{
    if width <= 0 {
        Rolled { value, budget: b }
    } else {
        let next = step_seed(b);
        Rolled {
            value: numbers::spread(value, width, next.seed),
            budget: next,
        }
    }
}

// Asks for `size` bytes: where they fit they are used, where not the flag is set and nothing is used.
pub fn reserve_event(b: Budget, size: u32) -> Reserved
    ensures { (result.budget ≡ reserved size b) × (result.fits ≡ fits size b) }
{
    if size <= free_bytes(b) {
        Reserved {
            budget: Budget {
                used: b.used + size,
                ..b
            },
            fits: true,
        }
    } else {
        Reserved {
            budget: Budget { over: 1, ..b },
            fits: false,
        }
    }
}
