// Touches together with the pointer.
ghost use Rattle.model.specs.Questions.{bool};
ghost use Rattle.model.specs.Questions as ask;
ghost use Rattle.scroll_questions.specs.Answers.{OfTouchAndPress};

use data::options::InputOptions;
use pointer_questions::buttons::is_long_press;
use pointer_state::press::Press;
use touch_questions::any_touches;
use touch_state::devices::Devices;

// A long press by touch; `started` is started_decidedly_dragging, `time` the pointer's.
pub fn is_long_touch(ds: Devices, s: Press, options: InputOptions, time: f64, started: bool) -> bool
    ensures { OfTouchAndPress ask.is_long_touch ds s options time started (bool result) }
{
    is_long_press(s, options, time, started) && any_touches(ds)
}
