// The wheel.
// Kept (C): C calls each question by its own name and lends the arrays one by one: questions alike in their steps stand apart.
ghost use Rattle.host_answers.specs.Answers.{source_of, vector_of};
ghost use Rattle.host_input.specs.Held.{clock_of, sums_of, wheel_of};
ghost use Rattle.model.specs.Questions as ask;
ghost use Rattle.model.specs.Questions.{bool, number, settled, source, vector};
ghost use Rattle.panel.specs.Answers.{OfSums, OfWheel, OfWheelAt};

use host_answers::{HostSource, HostVector};
use host_input::places::{FLAGS, FLOATS, SECONDS};

#[unsafe(no_mangle)]
pub extern "C" fn fivvarul_smooth_scroll_delta(floats: &[f32; FLOATS]) -> HostVector
    ensures { OfSums (settled ask.smooth_scroll_delta) (sums_of floats.now) (vector (vector_of result)) }
{
    let sums = host_input::read::sums(floats);
    panel::scrolling::smooth_scroll_delta(sums).into()
}

#[unsafe(no_mangle)]
pub extern "C" fn fivvarul_is_scrolling(
    seconds: &[f64; SECONDS],
    floats: &[f32; FLOATS],
    flags: &[bool; FLAGS],
) -> bool
    ensures { OfWheel (settled ask.is_scrolling) (wheel_of seconds.now floats.now flags.now) (bool result) }
{
    let wheel = host_input::read::wheel(seconds, floats, flags);
    panel::scrolling::is_scrolling(wheel)
}

#[unsafe(no_mangle)]
pub extern "C" fn fivvarul_scroll_source(
    seconds: &[f64; SECONDS],
    floats: &[f32; FLOATS],
    flags: &[bool; FLAGS],
) -> HostSource
    ensures { OfWheel (settled ask.scroll_source) (wheel_of seconds.now floats.now flags.now) (source (source_of result)) }
{
    let wheel = host_input::read::wheel(seconds, floats, flags);
    panel::scrolling::scroll_source(wheel).into()
}

#[unsafe(no_mangle)]
pub extern "C" fn fivvarul_time_since_last_scroll(
    seconds: &[f64; SECONDS],
    floats: &[f32; FLOATS],
    flags: &[bool; FLAGS],
) -> f32
    ensures { OfWheelAt (settled ask.time_since_last_scroll) (wheel_of seconds.now floats.now flags.now) (clock_of seconds.now floats.now) (number result) }
{
    let wheel = host_input::read::wheel(seconds, floats, flags);
    let clock = host_input::read::clock(seconds, floats);
    panel::scrolling::time_since_last_scroll(wheel, clock)
}
