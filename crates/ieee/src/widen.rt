// An f32 as an f64: every value of the one is a value of the other, and a NaN stays a NaN.
ghost use Rattle.std.specs.Prelude.{◌≡◌};

pub fn widen(x: f32) -> f64
    ensures { result ≡ x }
{
    std::num::f32_to_f64_with_nan(x)
}
