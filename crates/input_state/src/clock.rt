// Times in seconds. The pointer's own time differs from the panel's only before the first pass.
ghost use Rattle.std.specs.Prelude.{◌≡◌, List, ℕ};
ghost use Rattle.model.specs.Pass.{fresh, clock_pass};
ghost use Rattle.input_state.specs.View.{clock, input};

use crate::input::PassInput;

#[derive(Clone, Copy)]
pub struct Clock {
    pub time: f64,
    pub pointer_time: f64,
    pub unstable_dt: f32,
    pub stable_dt: f32,
    pub predicted_dt: f32,
}

pub fn fresh_clock() -> Clock
    ensures { clock result ≡ fresh.clock }
{
    Clock {
        time: 0.0,
        pointer_time: -1.0 / 0.0,
        unstable_dt: 1.0 / 60.0,
        stable_dt: 1.0 / 60.0,
        predicted_dt: 1.0 / 60.0,
    }
}

pub fn clock_pass(c: Clock, i: PassInput, time: f64) -> Clock
    ensures { (ws : List ℕ) → clock result ≡ clock_pass (input ws i) time (clock c) }
{
    let dt = ieee_narrow::narrow(time - c.time);
    if i.requested_repaint {
        return Clock {
            time,
            pointer_time: time,
            unstable_dt: dt,
            stable_dt: dt,
            predicted_dt: i.predicted_dt,
        };
    }
    Clock {
        time,
        pointer_time: time,
        unstable_dt: dt,
        stable_dt: i.predicted_dt,
        predicted_dt: i.predicted_dt,
    }
}
