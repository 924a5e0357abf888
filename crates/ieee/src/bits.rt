// Bit patterns of floats, for every pattern and every value: the language's own `from_bits` and
// `to_bits` leave out NaN. Every NaN pattern is the one NaN, and that is written as one pattern.
// Kept (plain): two for each type and no trait over the types, since each is one call of std's, and no caller is generic over
// the float types.
ghost use Rattle.std.specs.Prelude.{◌≡◌, from_bits, to_bits};
ghost use Rattle.std.specs.Float.{binary32, binary64};

use std::num::{
    f32_from_bits_with_nan, f32_to_bits_with_nan, f64_from_bits_with_nan, f64_to_bits_with_nan,
};

pub fn from_bits32(b: u32) -> f32
    ensures { result ≡ from_bits binary32 b }
{
    f32_from_bits_with_nan(b)
}

pub fn from_bits64(b: u64) -> f64
    ensures { result ≡ from_bits binary64 b }
{
    f64_from_bits_with_nan(b)
}

pub fn to_bits32(x: f32) -> u32
    ensures { result ≡ to_bits binary32 x }
{
    f32_to_bits_with_nan(x)
}

pub fn to_bits64(x: f64) -> u64
    ensures { result ≡ to_bits binary64 x }
{
    f64_to_bits_with_nan(x)
}
