// The value of a curve at a step, in f32 as the original computes it: it glides from `low` towards
// `high`, and what is behind the point is cut off toward zero on both sides, so that -63.5 gives -63.
#![tactic(auto)]

ghost use Rattle.std.specs.Prelude.{◌≡◌, ◌^◌, ◌<◌, ◌≤◌, pos};
ghost use Rattle.std.specs.Int.Signed.{mag};
ghost use Rattle.std.specs.Float.Ieee as Ieee;
ghost use Rattle.std.specs.Float.{binary32};
ghost use Rattle.laws.proofs.Floats.{Within};
ghost use Rattle.shapes.specs.Curve.{curve_of};

// `z` as an f32: the nearest, and the same number up to 2^24.
fn f32_of(z: i64) -> f32
    requires { mag z < 2 ^ 31 }
    ensures { result ≡ Ieee.of_int binary32 z }
{
    std::num::nearest_i32_to_f32(z as i32)
}

// The same of a count.
fn f32_of_count(n: u64) -> f32
    requires { n < 2 ^ 32 }
    ensures { result ≡ Ieee.of_int binary32 (pos n) }
{
    std::num::nearest_u32_to_f32(n as u32)
}

// `x` without what is behind its point, toward zero on both sides: 63.5 gives 63, and -63.5 gives -63.
fn cut(x: f32) -> i64
    requires { Within x (2 ^ 24) }
    ensures { result ≡ Ieee.to_signed 63 x }
{
    if x < 0.0 {
        -(std::num::truncating_f32_to_u64(-x) as i64)
    } else {
        std::num::truncating_f32_to_u64(x) as i64
    }
}

// The value at step `j` of a curve of length `len` from `low` to `high`.
pub fn curve_value(low: i64, high: i64, j: u64, len: u64) -> i64
    requires low_bound { (mag low ≤ 2 ^ 22) × (mag high ≤ 2 ^ 22) }
    requires j_lt_len { (j < len) × (len ≤ 2 ^ 24) }
    ensures value { result ≡ curve_of low high j len }
    ensures result_bound { mag result ≤ 2 ^ 24 }
{
    let span = f32_of(high - low);
    let part = f32_of_count(j) / f32_of_count(len);
    cut(span * part + f32_of(low))
}
