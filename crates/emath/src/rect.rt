ghost use Rattle.std.specs.Prelude.{◌≡◌};
ghost use Rattle.emath.specs.Vec.{height};

use crate::pos2::Pos2;

#[repr(C)]
#[derive(Clone, Copy)]
pub struct Rect {
    pub min: Pos2,
    pub max: Pos2,
}

impl Rect {
    #[tactic(auto, unfolding(crate::specs::Vec::height))]
    pub fn height(self) -> f32
        ensures { result ≡ height self }
    {
        self.max.y - self.min.y
    }
}
