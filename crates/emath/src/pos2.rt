ghost use Rattle.std.specs.Prelude.{◌≡◌};
ghost use Rattle.emath.specs.Vec.{pos_zero, pos_sub, distance, distance_sq};

use crate::vec2::Vec2;
use std::ops::Sub;

// A position on the screen. `repr(C)` here and in Rect, LayerId and WidgetRect: a host lends its widgets as they stand.
#[repr(C)]
#[derive(Clone, Copy)]
pub struct Pos2 {
    pub x: f32,
    pub y: f32,
}

impl Pos2 {
    // egui's `ZERO`.
    #[tactic(auto, using(crate::proofs::Parts::zero_value), unfolding(crate::specs::Vec::pos_zero))]
    pub fn zero() -> Pos2
        ensures { result ≡ pos_zero }
    {
        Pos2 { x: 0.0, y: 0.0 }
    }

    #[tactic(auto, unfolding(crate::specs::Vec::distance))]
    pub fn distance(self, other: Pos2) -> f32
        ensures { result ≡ distance self other }
    {
        (self - other).length()
    }

    #[tactic(auto, unfolding(crate::specs::Vec::distance_sq))]
    pub fn distance_sq(self, other: Pos2) -> f32
        ensures { result ≡ distance_sq self other }
    {
        (self - other).length_sq()
    }
}

impl Sub for Pos2 {
    type Output = Vec2;

    ghost sub_gives = { λ p q r. r ≡ pos_sub p q };

    #[tactic(auto, unfolding(crate::specs::Vec::pos_sub))]
    fn sub(self, other: Pos2) -> Vec2 {
        Vec2 {
            x: self.x - other.x,
            y: self.y - other.y,
        }
    }
}
