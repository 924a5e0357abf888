// Touches and gestures.
// Kept (plain): calls handed on, each with a clause of its own: the clauses are what this door adds.
ghost use Rattle.model.specs.Questions.{settled, bool, gesture};
ghost use Rattle.model.specs.Questions as ask;
ghost use Rattle.panel.specs.Answers.{OfDevices, OfLongTouch};

use data::touch::MultiTouchInfo;
use input_state::clock::Clock;
use input_state::pointer::Pointer;
use input_state::screen::Screen;
use touch_state::devices::Devices;

pub fn any_touches(devices: Devices) -> bool
    ensures { OfDevices (settled ask.any_touches) devices (bool result) }
{
    touch_questions::any_touches(devices)
}

// Is any device known?
pub fn has_touch_screen(devices: Devices) -> bool
    ensures { OfDevices ask.has_touch_screen devices (bool result) }
{
    touch_questions::has_touch_screen(devices)
}

// The gesture of the first device by id that has one.
pub fn multi_touch(devices: Devices) -> Option<MultiTouchInfo>
    ensures { OfDevices (settled ask.multi_touch) devices (gesture result) }
{
    touch_questions::multi_touch(devices)
}

// TouchState::info; an unknown device has none.
pub fn info(devices: Devices, device_id: u64) -> Option<MultiTouchInfo>
    ensures { OfDevices (settled (ask.info_of_device device_id)) devices (gesture result) }
{
    touch_questions::info(devices, device_id)
}

// TouchState::any_touches
pub fn any_touches_of(devices: Devices, device_id: u64) -> bool
    ensures { OfDevices (settled (ask.any_touches_of_device device_id)) devices (bool result) }
{
    touch_questions::any_touches_of(devices, device_id)
}

// A long press by touch.
pub fn is_long_touch(clock: Clock, screen: Screen, pointer: Pointer, devices: Devices) -> bool
    ensures { OfLongTouch (settled ask.is_long_touch) clock screen pointer devices (bool result) }
{
    let started = pointer.started_decidedly_dragging;
    scroll_questions::touching::is_long_touch(
        devices,
        pointer.press,
        screen.options,
        clock.pointer_time,
        started,
    )
}
