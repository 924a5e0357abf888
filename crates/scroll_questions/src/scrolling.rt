// The wheel.
ghost use Rattle.model.specs.Questions.{number, source};
ghost use Rattle.model.specs.Questions as ask;
ghost use Rattle.scroll_questions.specs.Answers.{OfWheel, OfWheelAt};

use data::mouse_wheel::{MouseWheelSource, WheelState};

// What drives the scrolling, if there is one.
#[tactic(auto, unfolding(model::specs::Questions::reply, model::specs::Questions::shown, model::specs::Questions::source_if))]
pub fn scroll_source(w: WheelState) -> Option<MouseWheelSource>
    ensures { OfWheel ask.scroll_source w (source result) }
{
    wheel_state::is_scrolling(w).then_some(w.source)
}

pub fn time_since_last_scroll(w: WheelState, time: f64) -> f32
    ensures { OfWheelAt ask.time_since_last_scroll w time (number result) }
{
    ieee_narrow::narrow(time - w.last_wheel_event)
}
