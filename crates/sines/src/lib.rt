// The three shapes of a sine, in whole numbers: the values of a quarter wave come from a table, what lies
// between two entries from the straight line between them, and nothing is rounded but the last quotient.
// So a value is the same on every machine. The table is lent, and made once by the caller.
#![tactic(auto)]

ghost use Rattle.std.specs.Prelude.{◌≡◌, ◌+◌, ◌*◌, ◌<◌, ◌≤◌, ◌^◌, nat_abs};
ghost use Rattle.std.specs.Int.Signed.{mag};
ghost use Rattle.sines.specs.Table.{top, quarter_table, entry};
ghost use Rattle.sines.specs.Kinds.{kind_said, kind_of};
ghost use Rattle.sines.specs.Sine.{sin_of, lift_of, share_of, nearest, round_away, mix_of, sine_of};

pub mod table;

// A sine that turns once from `low` over `high` to `low`, or a quarter of one, up to `high` or down from it.
#[derive(Clone, Copy)]
pub enum SineType {
    Sine,
    UpSine,
    DownSine,
}

impl SineType {
    // The kind that a number names: 1 and 2 the quarters, any other the full turn.
    pub fn from_i(v: i64) -> SineType
        ensures { kind_said result ≡ kind_of v }
    {
        match v {
            1 => SineType::UpSine,
            2 => SineType::DownSine,
            _ => SineType::Sine,
        }
    }
}

// One entry of the table.
fn entry_at(quarter: &[u32; 1025], k: usize) -> u64
    requires { (k < 1025) × (quarter.now ≡ quarter_table) }
    ensures { (result ≡ entry k) × (result ≤ top) }
{
    u64::from(quarter[k])
}

// The sine at `q` of `len` of a quarter, times 2^20 * `len`.
fn sin_at(quarter: &[u32; 1025], q: u64, len: u64) -> u64
    requires { (0 < len) × (len ≤ 2 ^ 20) × (q ≤ len) × (quarter.now ≡ quarter_table) }
    ensures { (result ≡ sin_of q len) × (result ≤ top * len) }
{
    let x = q * 1024;
    let k = (x / len) as usize;
    let rest = x % len;
    let a = entry_at(quarter, k);
    if rest == 0 {
        a * len
    } else {
        let b = entry_at(quarter, k + 1);
        a * (len - rest) + b * rest
    }
}

// 1 less the cosine at `p` of `len` of a full turn, times 2^20 * `len`.
fn lift_at(quarter: &[u32; 1025], p: u64, len: u64) -> u64
    requires { (len ≤ 2 ^ 20) × (p < len) × (quarter.now ≡ quarter_table) }
    ensures { (result ≡ lift_of p len) × (result ≤ 2 * (top * len)) }
{
    let x = 4 * p;
    let r = x % len;
    let one = 1048576 * len;
    match x / len {
        0 => one - sin_at(quarter, len - r, len),
        1 => one + sin_at(quarter, r, len),
        2 => one + sin_at(quarter, len - r, len),
        _ => one - sin_at(quarter, r, len),
    }
}

// How much of the way from `low` to `high` is gone at `p` of `len`, times 2^21 * `len`.
fn share_at(quarter: &[u32; 1025], stype: SineType, p: u64, len: u64) -> u64
    requires { (len ≤ 2 ^ 20) × (p < len) × (quarter.now ≡ quarter_table) }
    ensures { (result ≡ share_of stype p len) × (result ≤ 2 * (top * len)) }
{
    match stype {
        SineType::Sine => lift_at(quarter, p, len),
        SineType::UpSine => 2 * sin_at(quarter, p, len),
        SineType::DownSine => 2 * sin_at(quarter, len - p, len),
    }
}

// `low` and the part `w` of `d` of the way from it to `high`, times `d`.
fn mix(low: i64, high: i64, w: u64, d: u64) -> i64
    requires { (nat_abs low ≤ 2 ^ 14) × (nat_abs high ≤ 2 ^ 14) × (w ≤ d) × (d ≤ 2 ^ 41) }
    ensures { (result ≡ mix_of low high w d) × (nat_abs result ≤ 2 ^ 14 * d) }
{
    low * (d as i64) + (high - low) * (w as i64)
}

// `n` over `d`, to the nearest whole number, and a half up.
fn nearest_of(n: u64, d: u64) -> u64
    requires { (n ≤ 2 ^ 14 * d) × (0 < d) × (d ≤ 2 ^ 41) }
    ensures { (result ≡ nearest n d) × (result ≤ 2 ^ 14) }
{
    (2 * n + d) / (2 * d)
}

// The same of a number of either sign, and a half away from zero.
fn round_away(n: i64, d: u64) -> i64
    requires { (nat_abs n ≤ 2 ^ 14 * d) × (0 < d) × (d ≤ 2 ^ 41) }
    ensures { result ≡ round_away n d }
{
    let size = nearest_of(n.unsigned_abs(), d) as i64;
    if n < 0 { -size } else { size }
}

// The value at `p` of `len` of a sine between `low` and `high`; it never leaves them. `quarter` is what
// `table::quarter_table()` gives.
pub fn sine_value(
    quarter: &[u32; 1025],
    stype: SineType,
    low: i64,
    high: i64,
    p: u64,
    len: u64,
) -> i64
    requires low_bound { (mag low ≤ 16383) × (mag high ≤ 16383) }
    requires p_lt_len { (p < len) × (len ≤ 2 ^ 20) × (quarter.now ≡ quarter_table) }
    ensures value { result ≡ sine_of stype low high p len }
    ensures result_bound { mag result ≤ 16383 }
{
    let d = 2097152 * len;
    round_away(mix(low, high, share_at(quarter, stype, p, len), d), d)
}
