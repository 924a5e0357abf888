// The wheel is lent for one event and updated there.
ghost use Rattle.std.specs.Prelude.{◌≡◌};
ghost use Rattle.model.specs.Wheel.{on_wheel_event};

use crate::{Measures, WheelEvent};
use data::mouse_wheel::WheelState;

pub fn on_wheel_event(w: &mut WheelState, by: Measures, e: WheelEvent)
    ensures { w.new ≡ on_wheel_event by.viewport_rect by.options by.time e.unit e.delta e.phase e.source e.modifiers w.old }
{
    *w = crate::on_wheel_event(*w, by, e);
}

// From a wheel by value to one that is lent for the event, and back: its callers hold no reference.
pub fn stepped(w: WheelState, by: Measures, e: WheelEvent) -> WheelState
    ensures { result ≡ on_wheel_event by.viewport_rect by.options by.time e.unit e.delta e.phase e.source e.modifiers w }
{
    let mut v = w;
    on_wheel_event(&mut v, by, e);
    v
}
