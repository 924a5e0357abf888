// Values that are rows of words in an answer.
ghost use Rattle.std.specs.Prelude.{◌≡◌, ℕ, List, length, refl};
ghost use Rattle.trace_words.specs.Words.{Says, float_words, seconds_words, pos_words, vec_words};

use crate::words::Answer;
use emath::pos2::Pos2;
use emath::vec2::Vec2;

// A value that is a row of words in an answer: which, and by the law that each value has as many.
pub trait Said {
    ghost said: { Self → List ℕ };

    ghost WORDS: { ℕ };

    const WORDS: usize;

    fn say(self, a: &mut Answer)
        ensures { Says (said self) a.old a.new };

    ghost long: { (x : Self) → length (said x) ≡ WORDS };
}

impl Said for f32 {
    ghost said = { float_words };

    ghost WORDS = { 1 };

    ghost long = { λ x. refl };

    const WORDS: usize = 1;

    fn say(self, a: &mut Answer) {
        a.float(self);
    }
}

// Seconds.
impl Said for f64 {
    ghost said = { seconds_words };

    ghost WORDS = { 2 };

    ghost long = { λ x. refl };

    const WORDS: usize = 2;

    fn say(self, a: &mut Answer) {
        a.seconds(self);
    }
}

impl Said for Pos2 {
    ghost said = { pos_words };

    ghost WORDS = { 2 };

    ghost long = { λ x. refl };

    const WORDS: usize = 2;

    fn say(self, a: &mut Answer) {
        a.pos(self);
    }
}

impl Said for Vec2 {
    ghost said = { vec_words };

    ghost WORDS = { 2 };

    ghost long = { λ x. refl };

    const WORDS: usize = 2;

    fn say(self, a: &mut Answer) {
        a.vec(self);
    }
}
