// How long to wait for a repaint.
ghost use Rattle.model.specs.Questions.{settled, maybe_seconds};
ghost use Rattle.model.specs.Questions as ask;
ghost use Rattle.panel.specs.Answers.{OfWaiting};

use data::mouse_wheel::WheelState;
use input_state::clock::Clock;
use input_state::pointer::Pointer;
use input_state::screen::Screen;
use key_state::keys::Keys;
use pointer_events::CODES;
use touch_state::devices::Devices;

// In f64 seconds.
pub fn wants_repaint_after(
    clock: Clock,
    screen: Screen,
    pointer: Pointer,
    codes: &[u32; CODES],
    wheel: WheelState,
    keys: Keys,
    devices: Devices,
) -> Option<f64>
    ensures { OfWaiting (settled ask.wants_repaint_after) clock screen pointer codes.now wheel keys devices (maybe_seconds result) }
{
    input_questions::repaint::wants_repaint_after(
        pointer.place,
        pointer.press,
        codes,
        wheel,
        keys.feed_empty,
        devices,
        screen.options,
        clock.time,
        clock.pointer_time,
    )
}
