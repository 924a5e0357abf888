// Square roots, correctly rounded. One code serves both formats: p is how many digits the format
// keeps, and 2^-low is its least value.
// Kept (01): "Bit-exact f32 and f64 arithmetic with own square root, narrowing", so the root is computed here, though std has it.
#![tactic(auto)]

ghost use Rattle.std.specs.Prelude.{◌≡◌, ◌≤◌, ◌<◌, ◌^◌, cond, leb};
ghost use Rattle.std.specs.Float.{binary32, binary64};
ghost use Rattle.ieee_sqrt.specs.Sqrt.{isqrt, sqrt};
ghost use Rattle.ieee_sqrt.specs.Recurrence.{taken};
ghost use Rattle.ieee_sqrt.specs.Patterns.{Radicand, Rooted, Positive, RootOf};

// The next digit of the root: 1 if t fits into the remainder. (A number and not a branch in the loop:
// the digits of a root are as good as random, and a branch on them costs more than the rest.)
fn digit(rem: u64, t: u64) -> u64
    ensures { result ≡ cond (leb t rem) 1 0 }
{
    u64::from(t <= rem)
}

// The whole root of the leading 2n of d's 62 digits, digit by digit: each turn takes the next two
// digits of d into `rem`, and after it root * root + rem is the part of d taken in: `Recurrence` of
// specs/Recurrence.antt, the loop's invariant. (62 and not 64: at the top of the word the compiler
// joins the product and the digits that come in to one shift over two words, which is slower.)
fn root_digits(d: u64, n: u64) -> u64
    requires { (d < 2 ^ 62) × (n ≤ 54) }
    ensures { result ≡ isqrt (taken d n) }
{
    let mut left = d;
    let mut rem: u64 = 0;
    let mut root: u64 = 0;
    for i in 0..n {
        rem = rem * 4 + (left >> 60);
        left = left % 0x1000_0000_0000_0000 * 4;
        let t = root * 4 + 1;
        let one = digit(rem, t);
        rem = rem - t * one;
        root = root * 2 + one;
    }
    root
}

// The pattern of the root of q * 2^j / 4^low, for a q of p digits. The whole root r has p + 1
// digits, and the last one alone says how to round: a root that ends with 1 there is never exact.
fn root_pattern(q: u64, j: u64, p: u64) -> u64
    requires { Radicand p q j }
    ensures { Rooted p q j result }
{
    let odd = (j + p + 1) % 2;
    let r = root_digits(q << (61 - p + odd), p + 1);
    let k = (j - p + 1 - odd) / 2;
    (k << (p - 1)) + (r + 1) / 2
}

// b is the pattern of a value above zero and below the infinity. The result is that of its root.
fn root_bits(b: u64, p: u64, low: u64) -> u64
    requires { Positive p low b }
    ensures { RootOf p low b result }
{
    let lead = 1u64 << (p - 1);
    let field = b >> (p - 1);
    let frac = b & (lead - 1);
    if field == 0 {
        // a subnormal: its leading digit is moved up to where a normal value has it
        let z = u64::leading_zeros(frac) as u64 + p - 64;
        root_pattern(frac << z, low - z, p)
    } else {
        root_pattern(lead + frac, field - 1 + low, p)
    }
}

// A zero, the infinity and a NaN are their own roots. What is below zero has none.
// Kept (plain): a function for each type and no generic one. What the two share is `root_bits`; what is left names the type's
// patterns and constants in each line, and a trait that has these for both would be longer than both.
pub fn sqrt32(x: f32) -> f32
    ensures { result ≡ sqrt binary32 x }
{
    if x < 0.0 {
        return 0.0 / 0.0;
    }
    if x > 0.0 {
        let b: u32 = f32::to_bits(x);
        if b < 0x7f80_0000 {
            return f32::from_bits(root_bits(b as u64, 24, 149) as u32);
        }
    }
    x
}

// As `sqrt32`.
// Kept (plain): see there.
pub fn sqrt64(x: f64) -> f64
    ensures { result ≡ sqrt binary64 x }
{
    if x < 0.0 {
        return 0.0 / 0.0;
    }
    if x > 0.0 {
        let b: u64 = f64::to_bits(x);
        if b < 0x7ff0_0000_0000_0000 {
            return f64::from_bits(root_bits(b, 53, 1074));
        }
    }
    x
}
