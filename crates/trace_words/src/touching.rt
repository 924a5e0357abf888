// What is said of gestures.
ghost use Rattle.std.specs.Prelude.{◌≡◌, refl};
ghost use Rattle.trace_words.specs.Touching.{state_words, info_words};

use crate::said::Said;
use crate::words::Answer;
use data::touch::{DynGestureState, MultiTouchInfo};

impl Said for DynGestureState {
    ghost said = { state_words };

    ghost WORDS = { 8 };

    ghost long = { λ x. refl };

    const WORDS: usize = 8;

    #[tactic(auto, unfolding(crate::specs::Words::put_words))]
    fn say(self, a: &mut Answer) {
        a.float(self.avg_distance);
        a.vec(self.avg_abs_distance2);
        a.pos(self.avg_pos);
        a.float(self.avg_force);
        a.vec(self.heading);
    }
}

impl Said for MultiTouchInfo {
    ghost said = { info_words };

    ghost WORDS = { 17 };

    ghost long = { λ x. refl };

    const WORDS: usize = 17;

    #[tactic(auto, unfolding(crate::specs::Words::put_words))]
    fn say(self, a: &mut Answer) {
        a.seconds(self.start_time);
        a.pos(self.start_pos);
        a.pos(self.center_pos);
        a.count(self.num_touches);
        a.float(self.zoom_delta);
        a.vec(self.zoom_delta_2d);
        a.vec(self.previous_heading);
        a.vec(self.heading);
        a.vec(self.translation_delta);
        a.float(self.force);
    }
}
