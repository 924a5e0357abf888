// An f64 rounded to an f32, as Rust's `as` does it, by way of the bit patterns.
// Kept (01): "Bit-exact f32 and f64 arithmetic with own square root, narrowing", so the rounding is computed here, though std has it.
#![tactic(auto)]

ghost use Rattle.std.specs.Prelude.{◌≡◌, ◌≤◌, ◌<◌, ◌^◌};
ghost use Rattle.std.specs.Float.{binary32};
ghost use Rattle.std.specs.Float.Ieee.Nearest.{closest};
ghost use Rattle.ieee_narrow.specs.Narrow.{narrow};
ghost use Rattle.ieee_narrow.specs.Patterns.{Narrowed};

// The whole number nearest to q / 2^n, and of two as near the even one.
fn shift_nearest(q: u64, n: u64) -> u64
    requires { (q < 2 ^ 53) × (1 ≤ n) × (n < 63) }
    ensures { result ≡ closest q (2 ^ n) }
{
    let half = 1u64 << (n - 1);
    let even = (q >> n) % 2;
    (q + (half - 1) + even) >> n
}

// b is an f64's pattern without its sign, and no NaN's. The result is an f32's.
// In units of the f32's least value, 2^-149, the f64 is digits * 2^(field - 926).
#[tactic(auto, using(crate::proofs::Narrowing::below, crate::proofs::Narrowing::middle, crate::proofs::Narrowing::upper, crate::proofs::Narrowing::over, ieee::proofs::Closest::closest_le))]
fn narrow_pattern(b: u64) -> u64
    requires { b ≤ 0x7ff0_0000_0000_0000 }
    ensures { Narrowed b result }
{
    let field = b >> 52;
    let digits = 0x10_0000_0000_0000 + b % 0x10_0000_0000_0000;
    if field < 873 {
        return 0;
    }
    if field < 897 {
        // a subnormal, or the least normal value
        return shift_nearest(digits, 926 - field);
    }
    if field < 1151 {
        // a sum that carries into the field may reach the infinity's pattern
        return (field - 897) * 0x80_0000 + shift_nearest(digits, 29);
    }
    0x7f80_0000
}

// The nearest f32, of two as near the even one; an infinity from 2^128 less half a step on.
// (std's `nearest_f64_to_f32_with_nan` gives the same too, and takes 7 instructions more.)
pub fn narrow(x: f64) -> f32
    ensures { result ≡ narrow binary32 x }
{
    if x != x {
        return 0.0 / 0.0;
    }
    let bits: u64 = f64::to_bits(x);
    let sign: u64 = bits >> 63;
    let rest: u64 = narrow_pattern(bits % 0x8000_0000_0000_0000);
    f32::from_bits((sign * 0x8000_0000 + rest) as u32)
}
