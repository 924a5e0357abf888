// IEEE 754 operations that the language lacks: widening and bit patterns that take a NaN too. An f64 narrowed to an f32 is in
// the crate `ieee_narrow`, square roots in `ieee_sqrt`, and what holds of both in `ieee_laws`.
#![tactic(auto)]

pub mod bits;
pub mod widen;
