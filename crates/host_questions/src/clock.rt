// Times and the screen.
// Kept (C): C calls each question by its own name and lends the arrays one by one: questions alike in their steps stand apart.
ghost use Rattle.host_input.specs.Held.{clock_of, screen_of};
ghost use Rattle.model.specs.Questions as ask;
ghost use Rattle.model.specs.Questions.{bool, number, rectangle, settled};
ghost use Rattle.panel.specs.Answers.{OfClock, OfScreen};

use emath::rect::Rect;
use host_input::places::{FLAGS, FLOATS, SECONDS};

#[unsafe(no_mangle)]
pub extern "C" fn fivvarul_time(seconds: &[f64; SECONDS], floats: &[f32; FLOATS]) -> f64
    ensures { OfClock (settled ask.time) (clock_of seconds.now floats.now) (number result) }
{
    let clock = host_input::read::clock(seconds, floats);
    panel::clock::time(clock)
}

#[unsafe(no_mangle)]
pub extern "C" fn fivvarul_unstable_dt(seconds: &[f64; SECONDS], floats: &[f32; FLOATS]) -> f32
    ensures { OfClock (settled ask.unstable_dt) (clock_of seconds.now floats.now) (number result) }
{
    let clock = host_input::read::clock(seconds, floats);
    panel::clock::unstable_dt(clock)
}

#[unsafe(no_mangle)]
pub extern "C" fn fivvarul_predicted_dt(seconds: &[f64; SECONDS], floats: &[f32; FLOATS]) -> f32
    ensures { OfClock (settled ask.predicted_dt) (clock_of seconds.now floats.now) (number result) }
{
    let clock = host_input::read::clock(seconds, floats);
    panel::clock::predicted_dt(clock)
}

#[unsafe(no_mangle)]
pub extern "C" fn fivvarul_stable_dt(seconds: &[f64; SECONDS], floats: &[f32; FLOATS]) -> f32
    ensures { OfClock (settled ask.stable_dt) (clock_of seconds.now floats.now) (number result) }
{
    let clock = host_input::read::clock(seconds, floats);
    panel::clock::stable_dt(clock)
}

#[unsafe(no_mangle)]
pub extern "C" fn fivvarul_focused(
    seconds: &[f64; SECONDS],
    floats: &[f32; FLOATS],
    flags: &[bool; FLAGS],
) -> bool
    ensures { OfScreen (settled ask.focused) (screen_of seconds.now floats.now flags.now) (bool result) }
{
    let screen = host_input::read::screen(seconds, floats, flags);
    panel::clock::focused(screen)
}

#[unsafe(no_mangle)]
pub extern "C" fn fivvarul_viewport_rect(
    seconds: &[f64; SECONDS],
    floats: &[f32; FLOATS],
    flags: &[bool; FLAGS],
) -> Rect
    ensures { OfScreen (settled ask.viewport_rect) (screen_of seconds.now floats.now flags.now) (rectangle result) }
{
    let screen = host_input::read::screen(seconds, floats, flags);
    panel::clock::viewport_rect(screen)
}

#[unsafe(no_mangle)]
pub extern "C" fn fivvarul_pixels_per_point(
    seconds: &[f64; SECONDS],
    floats: &[f32; FLOATS],
    flags: &[bool; FLAGS],
) -> f32
    ensures { OfScreen (settled ask.pixels_per_point) (screen_of seconds.now floats.now flags.now) (number result) }
{
    let screen = host_input::read::screen(seconds, floats, flags);
    panel::clock::pixels_per_point(screen)
}

#[unsafe(no_mangle)]
pub extern "C" fn fivvarul_physical_pixel_size(
    seconds: &[f64; SECONDS],
    floats: &[f32; FLOATS],
    flags: &[bool; FLAGS],
) -> f32
    ensures { OfScreen (settled ask.physical_pixel_size) (screen_of seconds.now floats.now flags.now) (number result) }
{
    let screen = host_input::read::screen(seconds, floats, flags);
    panel::clock::physical_pixel_size(screen)
}

#[unsafe(no_mangle)]
pub extern "C" fn fivvarul_aim_radius(
    seconds: &[f64; SECONDS],
    floats: &[f32; FLOATS],
    flags: &[bool; FLAGS],
) -> f32
    ensures { OfScreen (settled ask.aim_radius) (screen_of seconds.now floats.now flags.now) (number result) }
{
    let screen = host_input::read::screen(seconds, floats, flags);
    panel::clock::aim_radius(screen)
}
