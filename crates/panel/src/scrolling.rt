// The wheel.
// Calls handed on: the clauses are what this door adds.
ghost use Rattle.model.specs.Questions.{settled, bool, number, vector, source};
ghost use Rattle.model.specs.Questions as ask;
ghost use Rattle.panel.specs.Answers.{OfSums, OfWheel, OfWheelAt, NumberedSource};

use data::mouse_wheel::{MouseWheelSource, WheelState};
use emath::vec2::Vec2;
use input_state::clock::Clock;
use input_state::sums::Sums;

pub fn smooth_scroll_delta(sums: Sums) -> Vec2
    ensures { OfSums (settled ask.smooth_scroll_delta) sums (vector result) }
{
    sums.smooth_scroll_delta
}

pub fn is_scrolling(wheel: WheelState) -> bool
    ensures { OfWheel (settled ask.is_scrolling) wheel (bool result) }
{
    wheel_state::is_scrolling(wheel)
}

// What drives the scrolling, if there is one.
pub fn scroll_source(wheel: WheelState) -> Option<MouseWheelSource>
    ensures of_wheel { OfWheel (settled ask.scroll_source) wheel (source result) }
    ensures numbered { NumberedSource wheel result }
{
    scroll_questions::scrolling::scroll_source(wheel)
}

pub fn time_since_last_scroll(wheel: WheelState, clock: Clock) -> f32
    ensures { OfWheelAt (settled ask.time_since_last_scroll) wheel clock (number result) }
{
    scroll_questions::scrolling::time_since_last_scroll(wheel, clock.time)
}
