// Buttons, presses, clicks. `button` is its number in the feed; over 4 it is Extra2.
// Kept (C): C calls each question by its own name and lends the arrays one by one: questions alike in their steps stand apart.
ghost use Rattle.feed.specs.Shape.{button_of};
ghost use Rattle.host_answers.specs.Answers.{position_of, seconds_of};
ghost use Rattle.host_input.specs.Held.{clock_of, pointer_of, press_of, screen_of};
ghost use Rattle.model.specs.Questions as ask;
ghost use Rattle.model.specs.Questions.{bool, maybe_position, maybe_seconds, number, settled};
ghost use Rattle.panel.specs.Answers.{OfClickPast, OfEvents, OfLongPress, OfPress, OfPressing};

use feed::fields::button_of;
use host_answers::{HostPosition, HostSeconds};
use host_input::places::{COUNTS, FLAGS, FLOATS, SECONDS};
use pointer_events::CODES;

#[unsafe(no_mangle)]
pub extern "C" fn fivvarul_press_origin(
    seconds: &[f64; SECONDS],
    floats: &[f32; FLOATS],
    counts: &[usize; COUNTS],
    flags: &[bool; FLAGS],
) -> HostPosition
    ensures { OfPress (settled ask.press_origin) (press_of seconds.now floats.now counts.now flags.now) (maybe_position (position_of result)) }
{
    let press = host_input::read::press(seconds, floats, counts, flags);
    panel::buttons::press_origin(press).into()
}

#[unsafe(no_mangle)]
pub extern "C" fn fivvarul_press_start_time(
    seconds: &[f64; SECONDS],
    floats: &[f32; FLOATS],
    counts: &[usize; COUNTS],
    flags: &[bool; FLAGS],
) -> HostSeconds
    ensures { OfPress (settled ask.press_start_time) (press_of seconds.now floats.now counts.now flags.now) (maybe_seconds (seconds_of result)) }
{
    let press = host_input::read::press(seconds, floats, counts, flags);
    panel::buttons::press_start_time(press).into()
}

#[unsafe(no_mangle)]
pub extern "C" fn fivvarul_any_down(
    seconds: &[f64; SECONDS],
    floats: &[f32; FLOATS],
    counts: &[usize; COUNTS],
    flags: &[bool; FLAGS],
) -> bool
    ensures { OfPress (settled ask.any_down) (press_of seconds.now floats.now counts.now flags.now) (bool result) }
{
    let press = host_input::read::press(seconds, floats, counts, flags);
    panel::buttons::any_down(press)
}

#[unsafe(no_mangle)]
pub extern "C" fn fivvarul_button_down(
    seconds: &[f64; SECONDS],
    floats: &[f32; FLOATS],
    counts: &[usize; COUNTS],
    flags: &[bool; FLAGS],
    button: u32,
) -> bool
    ensures { OfPress (settled (ask.button_down (button_of button))) (press_of seconds.now floats.now counts.now flags.now) (bool result) }
{
    let press = host_input::read::press(seconds, floats, counts, flags);
    let b = button_of(button);
    panel::buttons::button_down(press, b)
}

#[unsafe(no_mangle)]
pub extern "C" fn fivvarul_any_pressed(
    seconds: &[f64; SECONDS],
    floats: &[f32; FLOATS],
    counts: &[usize; COUNTS],
    flags: &[bool; FLAGS],
    codes: &[u32; CODES],
) -> bool
    ensures { OfEvents (settled ask.any_pressed) (press_of seconds.now floats.now counts.now flags.now) codes.now (bool result) }
{
    let press = host_input::read::press(seconds, floats, counts, flags);
    panel::buttons::any_pressed(press, codes)
}

#[unsafe(no_mangle)]
pub extern "C" fn fivvarul_any_released(
    seconds: &[f64; SECONDS],
    floats: &[f32; FLOATS],
    counts: &[usize; COUNTS],
    flags: &[bool; FLAGS],
    codes: &[u32; CODES],
) -> bool
    ensures { OfEvents (settled ask.any_released) (press_of seconds.now floats.now counts.now flags.now) codes.now (bool result) }
{
    let press = host_input::read::press(seconds, floats, counts, flags);
    panel::buttons::any_released(press, codes)
}

#[unsafe(no_mangle)]
pub extern "C" fn fivvarul_any_click(
    seconds: &[f64; SECONDS],
    floats: &[f32; FLOATS],
    counts: &[usize; COUNTS],
    flags: &[bool; FLAGS],
    codes: &[u32; CODES],
) -> bool
    ensures { OfEvents (settled ask.any_click) (press_of seconds.now floats.now counts.now flags.now) codes.now (bool result) }
{
    let press = host_input::read::press(seconds, floats, counts, flags);
    panel::buttons::any_click(press, codes)
}

#[unsafe(no_mangle)]
pub extern "C" fn fivvarul_button_pressed(
    seconds: &[f64; SECONDS],
    floats: &[f32; FLOATS],
    counts: &[usize; COUNTS],
    flags: &[bool; FLAGS],
    codes: &[u32; CODES],
    button: u32,
) -> bool
    ensures { OfEvents (settled (ask.button_pressed (button_of button))) (press_of seconds.now floats.now counts.now flags.now) codes.now (bool result) }
{
    let press = host_input::read::press(seconds, floats, counts, flags);
    let b = button_of(button);
    panel::buttons::button_pressed(press, codes, b)
}

#[unsafe(no_mangle)]
pub extern "C" fn fivvarul_button_released(
    seconds: &[f64; SECONDS],
    floats: &[f32; FLOATS],
    counts: &[usize; COUNTS],
    flags: &[bool; FLAGS],
    codes: &[u32; CODES],
    button: u32,
) -> bool
    ensures { OfEvents (settled (ask.button_released (button_of button))) (press_of seconds.now floats.now counts.now flags.now) codes.now (bool result) }
{
    let press = host_input::read::press(seconds, floats, counts, flags);
    let b = button_of(button);
    panel::buttons::button_released(press, codes, b)
}

#[unsafe(no_mangle)]
pub extern "C" fn fivvarul_button_clicked(
    seconds: &[f64; SECONDS],
    floats: &[f32; FLOATS],
    counts: &[usize; COUNTS],
    flags: &[bool; FLAGS],
    codes: &[u32; CODES],
    button: u32,
) -> bool
    ensures { OfEvents (settled (ask.button_clicked (button_of button))) (press_of seconds.now floats.now counts.now flags.now) codes.now (bool result) }
{
    let press = host_input::read::press(seconds, floats, counts, flags);
    let b = button_of(button);
    panel::buttons::button_clicked(press, codes, b)
}

#[unsafe(no_mangle)]
pub extern "C" fn fivvarul_button_double_clicked(
    seconds: &[f64; SECONDS],
    floats: &[f32; FLOATS],
    counts: &[usize; COUNTS],
    flags: &[bool; FLAGS],
    codes: &[u32; CODES],
    button: u32,
) -> bool
    ensures { OfEvents (settled (ask.button_double_clicked (button_of button))) (press_of seconds.now floats.now counts.now flags.now) codes.now (bool result) }
{
    let press = host_input::read::press(seconds, floats, counts, flags);
    let b = button_of(button);
    panel::buttons::button_double_clicked(press, codes, b)
}

#[unsafe(no_mangle)]
pub extern "C" fn fivvarul_button_triple_clicked(
    seconds: &[f64; SECONDS],
    floats: &[f32; FLOATS],
    counts: &[usize; COUNTS],
    flags: &[bool; FLAGS],
    codes: &[u32; CODES],
    button: u32,
) -> bool
    ensures { OfEvents (settled (ask.button_triple_clicked (button_of button))) (press_of seconds.now floats.now counts.now flags.now) codes.now (bool result) }
{
    let press = host_input::read::press(seconds, floats, counts, flags);
    let b = button_of(button);
    panel::buttons::button_triple_clicked(press, codes, b)
}

#[unsafe(no_mangle)]
pub extern "C" fn fivvarul_time_since_last_click(
    seconds: &[f64; SECONDS],
    floats: &[f32; FLOATS],
    counts: &[usize; COUNTS],
    flags: &[bool; FLAGS],
) -> f32
    ensures { OfClickPast (ask.time_since_last_click) (press_of seconds.now floats.now counts.now flags.now) (clock_of seconds.now floats.now) (number result) }
{
    let press = host_input::read::press(seconds, floats, counts, flags);
    let clock = host_input::read::clock(seconds, floats);
    panel::buttons::time_since_last_click(press, clock)
}

#[unsafe(no_mangle)]
pub extern "C" fn fivvarul_could_any_button_be_click(
    seconds: &[f64; SECONDS],
    floats: &[f32; FLOATS],
    counts: &[usize; COUNTS],
    flags: &[bool; FLAGS],
    codes: &[u32; CODES],
) -> bool
    ensures { OfPressing (settled ask.could_any_button_be_click) (clock_of seconds.now floats.now) (screen_of seconds.now floats.now flags.now) (press_of seconds.now floats.now counts.now flags.now) codes.now (bool result) }
{
    let clock = host_input::read::clock(seconds, floats);
    let screen = host_input::read::screen(seconds, floats, flags);
    let press = host_input::read::press(seconds, floats, counts, flags);
    panel::buttons::could_any_button_be_click(clock, screen, press, codes)
}

#[unsafe(no_mangle)]
pub extern "C" fn fivvarul_is_decidedly_dragging(
    seconds: &[f64; SECONDS],
    floats: &[f32; FLOATS],
    counts: &[usize; COUNTS],
    flags: &[bool; FLAGS],
    codes: &[u32; CODES],
) -> bool
    ensures { OfPressing (settled ask.is_decidedly_dragging) (clock_of seconds.now floats.now) (screen_of seconds.now floats.now flags.now) (press_of seconds.now floats.now counts.now flags.now) codes.now (bool result) }
{
    let clock = host_input::read::clock(seconds, floats);
    let screen = host_input::read::screen(seconds, floats, flags);
    let press = host_input::read::press(seconds, floats, counts, flags);
    panel::buttons::is_decidedly_dragging(clock, screen, press, codes)
}

#[unsafe(no_mangle)]
pub extern "C" fn fivvarul_is_long_press(
    seconds: &[f64; SECONDS],
    floats: &[f32; FLOATS],
    counts: &[usize; COUNTS],
    flags: &[bool; FLAGS],
) -> bool
    ensures { OfLongPress (settled ask.is_long_press) (clock_of seconds.now floats.now) (screen_of seconds.now floats.now flags.now) (pointer_of seconds.now floats.now counts.now flags.now) (bool result) }
{
    let clock = host_input::read::clock(seconds, floats);
    let screen = host_input::read::screen(seconds, floats, flags);
    let pointer = host_input::read::pointer(seconds, floats, counts, flags);
    panel::buttons::is_long_press(clock, screen, pointer)
}
