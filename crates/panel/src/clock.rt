// Times and the screen.
ghost use Rattle.model.specs.Questions.{settled, bool, number, rectangle};
ghost use Rattle.model.specs.Questions as ask;
ghost use Rattle.panel.specs.Answers.{OfClock, OfScreen};

use emath::rect::Rect;
use input_state::clock::Clock;
use input_state::screen::Screen;

pub fn time(clock: Clock) -> f64
    ensures { OfClock (settled ask.time) clock (number result) }
{
    clock.time
}

pub fn unstable_dt(clock: Clock) -> f32
    ensures { OfClock (settled ask.unstable_dt) clock (number result) }
{
    clock.unstable_dt
}

pub fn predicted_dt(clock: Clock) -> f32
    ensures { OfClock (settled ask.predicted_dt) clock (number result) }
{
    clock.predicted_dt
}

pub fn stable_dt(clock: Clock) -> f32
    ensures { OfClock (settled ask.stable_dt) clock (number result) }
{
    clock.stable_dt
}

pub fn focused(screen: Screen) -> bool
    ensures { OfScreen (settled ask.focused) screen (bool result) }
{
    screen.focused
}

pub fn viewport_rect(screen: Screen) -> Rect
    ensures { OfScreen (settled ask.viewport_rect) screen (rectangle result) }
{
    screen.viewport_rect
}

pub fn pixels_per_point(screen: Screen) -> f32
    ensures { OfScreen (settled ask.pixels_per_point) screen (number result) }
{
    screen.pixels_per_point
}

// In points.
pub fn physical_pixel_size(screen: Screen) -> f32
    ensures { OfScreen (settled ask.physical_pixel_size) screen (number result) }
{
    input_questions::screen::physical_pixel_size(screen.pixels_per_point)
}

// How imprecise the pointer is taken to be, in points.
pub fn aim_radius(screen: Screen) -> f32
    ensures { OfScreen (settled ask.aim_radius) screen (number result) }
{
    input_questions::screen::aim_radius(screen.pixels_per_point)
}
