// A.5: the factor of a zoom exponent, for a host that has no exponential. All but the last step is done in whole numbers,
// in units of 2^-30.
#![tactic(auto)]

ghost use Rattle.std.specs.Prelude.{◌≡◌, cond, false, ℕ, ◌+◌, ◌*◌, ◌/◌, ◌^◌, ◌≤◌, ◌<◌};
ghost use Rattle.std.specs.Float.Ieee.Exact.{HasValue};
ghost use Rattle.zoom_factor.specs.Answer.{zoom_refusal_number, Answers};
ghost use Rattle.zoom_factor.specs.Series.{below_zero};
ghost use Rattle.zoom_factor.specs.Steps.{Cut, CutPattern, Summed};

#[derive(Clone, Copy)]
pub enum ZoomRefusal {
    // 13: an exponent over 1 in size, or not a number
    ExponentOutside,
}

impl ZoomRefusal {
    // 02's number of it.
    // Kept (02): the number is that of 02's row and not the place in the enum.
    #[tactic(auto, unfolding(crate::specs::Answer::zoom_refusal_number))]
    pub fn number(self) -> u32
        ensures { result ≡ zoom_refusal_number self }
    {
        match self {
            ZoomRefusal::ExponentOutside => 13,
        }
    }
}

// 1 in units
const ONE: u64 = 0x4000_0000;

// "for k from 0 to 13"
const LAST_TERM: u64 = 13;

// An f32's pattern: 23 digits, above them the exponent's field, above that the sign.
const DIGITS: u64 = 0x80_0000;

const SIGN: u32 = 0x8000_0000;

// The field of 2^-30, below which nothing is left of a unit.
const UNIT_FIELD: u64 = 97;

// The field of a value whose last digit is 1.
const WHOLE_FIELD: u64 = 150;

// The size of the value with this pattern, which has no sign, in units, cut to a whole number.
#[tactic(auto, using(crate::proofs::Patterns::below, crate::proofs::Patterns::moved))]
fn units(pattern: u64) -> u64
    requires { pattern ≤ 0x3f80_0000 }
    ensures { CutPattern pattern result }
{
    let field = pattern / DIGITS;
    if field < UNIT_FIELD {
        return 0;
    }
    (DIGITS + pattern % DIGITS) * ONE >> (WHOLE_FIELD - field)
}

// The k-th term, where it is below 0.
#[tactic(auto, unfolding(crate::specs::Series::below_zero))]
fn minus_part(negative: bool, k: u64, term: u64) -> u64
    ensures { result ≡ cond (below_zero negative k) term 0 }
{
    if negative && k % 2 == 1 { term } else { 0 }
}

// The sum, in units, for an exponent of this size. Each term is made of the one before it, and cut.
fn series(negative: bool, size: u64) -> u64
    requires { size ≤ 2 ^ 30 }
    ensures { (a b : ℕ) → a ≤ b → 0 < b → Cut a b size → Summed negative a b result }
{
    let mut term: u64 = ONE;
    let mut plus: u64 = ONE;
    let mut minus: u64 = 0;
    for i in 0..LAST_TERM {
        let k = i + 1;
        term = term * size / ONE / k;
        let part = minus_part(negative, k, term);
        plus += term - part;
        minus += part;
    }
    plus - minus
}

// To the nearest 2^-22, which an f32 holds: 256 units.
fn nearest(sum: u64) -> f32
    requires { sum ≤ 3 * 2 ^ 30 }
    ensures { HasValue result false ((sum + 128) / 256) (2 ^ 22) }
{
    ((sum + 128) / 256) as f32 / 4194304.0
}

pub fn zoom_factor(exponent: f32) -> Result<f32, ZoomRefusal>
    ensures { Answers exponent result }
{
    if -1.0 <= exponent {
        if exponent <= 1.0 {
            let bits: u32 = f32::to_bits(exponent);
            let size = units((bits % SIGN) as u64);
            let sum = series(bits >= SIGN, size);
            return Ok(nearest(sum));
        }
    }
    Err(ZoomRefusal::ExponentOutside)
}
