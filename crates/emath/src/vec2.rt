ghost use Rattle.std.specs.Prelude.{◌≡◌};
ghost use Rattle.emath.specs.Vec.{vec_zero, vec_add, vec_scale, vec_div, length_sq, length_sq64, length, normalized, abs, vec_abs, larger, max_elem};

use std::ops::{Add, Div, Mul};

// A difference of two positions.
#[derive(Clone, Copy, PartialEq)]
pub struct Vec2 {
    pub x: f32,
    pub y: f32,
}

// The sign is cleared, of -0.0 too.
#[tactic(auto, using(crate::proofs::Parts::with_sign))]
pub fn abs(x: f32) -> f32
    ensures { result ≡ abs x }
{
    x.abs()
}

// The larger of two parts; the other one where one is not a number.
// Kept (01): std's `max` may give either of 0.0 and -0.0, and 01's results are bit-exact.
#[tactic(auto, unfolding(crate::specs::Vec::larger))]
fn larger(x: f32, y: f32) -> f32
    ensures { result ≡ larger x y }
{
    if x != x {
        return y;
    }
    if y != y {
        return x;
    }
    if x < y {
        return y;
    }
    x
}

impl Vec2 {
    // egui's `ZERO`.
    // A function and no constant: a constant has no clause.
    #[tactic(auto, using(crate::proofs::Parts::zero_value), unfolding(crate::specs::Vec::vec_zero))]
    pub fn zero() -> Vec2
        ensures { result ≡ vec_zero }
    {
        Vec2 { x: 0.0, y: 0.0 }
    }

    #[tactic(auto, unfolding(crate::specs::Vec::length_sq))]
    pub fn length_sq(self) -> f32
        ensures { result ≡ length_sq self }
    {
        self.x * self.x + self.y * self.y
    }

    #[tactic(auto, unfolding(crate::specs::Vec::length_sq64))]
    pub fn length_sq64(self) -> f64
        ensures { result ≡ length_sq64 self }
    {
        let x = ieee::widen::widen(self.x);
        let y = ieee::widen::widen(self.y);
        x * x + y * y
    }

    #[tactic(auto, unfolding(crate::specs::Vec::length))]
    pub fn length(self) -> f32
        ensures { result ≡ length self }
    {
        ieee_narrow::narrow(ieee_sqrt::sqrt64(self.length_sq64()))
    }

    #[tactic(auto, using(crate::proofs::Parts::zero_value), unfolding(crate::specs::Vec::normalized))]
    pub fn normalized(self) -> Vec2
        ensures { result ≡ normalized self }
    {
        let len = self.length();
        if len > 0.0 {
            return self / len;
        }
        self
    }

    #[tactic(auto, unfolding(crate::specs::Vec::vec_abs))]
    pub fn abs(self) -> Vec2
        ensures { result ≡ vec_abs self }
    {
        Vec2 {
            x: abs(self.x),
            y: abs(self.y),
        }
    }

    // The larger part; the other one where one is not a number.
    #[tactic(auto, unfolding(crate::specs::Vec::max_elem))]
    pub fn max_elem(self) -> f32
        ensures { result ≡ max_elem self }
    {
        larger(self.x, self.y)
    }
}

impl Add for Vec2 {
    type Output = Vec2;

    ghost add_gives = { λ v w r. r ≡ vec_add v w };

    #[tactic(auto, unfolding(crate::specs::Vec::vec_add))]
    fn add(self, rhs: Vec2) -> Vec2 {
        Vec2 {
            x: self.x + rhs.x,
            y: self.y + rhs.y,
        }
    }
}

impl Mul<f32> for Vec2 {
    type Output = Vec2;

    ghost mul_gives = { λ v k r. r ≡ vec_scale k v };

    #[tactic(auto, unfolding(crate::specs::Vec::vec_scale))]
    fn mul(self, factor: f32) -> Vec2 {
        Vec2 {
            x: factor * self.x,
            y: factor * self.y,
        }
    }
}

impl Div<f32> for Vec2 {
    type Output = Vec2;

    ghost div_gives = { λ v k r. r ≡ vec_div v k };

    #[tactic(auto, unfolding(crate::specs::Vec::vec_div))]
    fn div(self, factor: f32) -> Vec2 {
        Vec2 {
            x: self.x / factor,
            y: self.y / factor,
        }
    }
}
