// A touch device: egui's TouchState.
#![tactic(auto)]

ghost use Rattle.std.specs.Prelude.{◌≡◌, Some};
ghost use Rattle.model.specs.Touch.{new_device, is_start, adds_or_removes, no_place, end_device, any_touches_at};
ghost use Rattle.touch_device.specs.View.{device_view, fits_device};

use data::limits::MAX_TOUCHES;
use data::touch::{ActiveTouch, GestureState, TouchPhase};
use emath::pos2::Pos2;
use gesture::{calc_dynamic_state, classify, forget_previous_if, update_gesture};
use touches::Touches;
use touches::sorted::HasId;

pub mod info;

#[derive(Clone, Copy)]
pub struct Device {
    pub id: u64,
    pub touches: Touches,
    pub gesture_state: Option<GestureState>,
}

impl HasId for Device {
    ghost id_of = { λ d. d.id };

    fn id(&self) -> u64 {
        self.id
    }
}

#[tactic(auto, unfolding(model::specs::Touch::new_device))]
pub fn new(id: u64) -> Device
    ensures { device_view result ≡ new_device id }
{
    Device {
        id,
        touches: touches::none(),
        gesture_state: None,
    }
}

#[tactic(auto, unfolding(model::specs::Touch::is_start))]
pub fn is_start(phase: TouchPhase) -> bool
    ensures { result ≡ is_start phase }
{
    matches!(phase, TouchPhase::Start)
}

#[tactic(auto, unfolding(model::specs::Touch::adds_or_removes))]
pub fn adds_or_removes(phase: TouchPhase) -> bool
    ensures { result ≡ adds_or_removes phase }
{
    !matches!(phase, TouchPhase::Move)
}

// A touch event of this device.
#[tactic(auto, unfolding(crate::specs::View::fits_device))]
pub fn on_touch(d: Device, phase: TouchPhase, t: ActiveTouch) -> Device
    ensures { device_view result ≡ fits_device phase t (device_view d) }
{
    Device {
        touches: touches::on_touch(d.touches, phase, t),
        ..d
    }
}

// A device that its first touch event makes known. So `on_touch` has one caller, and the compiler puts it in place there.
#[tactic(auto, unfolding(crate::specs::View::fits_device, model::specs::Touch::new_device))]
pub fn first(id: u64, phase: TouchPhase, t: ActiveTouch) -> Device
    ensures { device_view result ≡ fits_device phase t (new_device id) }
{
    Device {
        id,
        touches: touches::first(phase, t),
        gesture_state: None,
    }
}

// Is it the Start of a touch too many?
pub fn is_full(d: Device, phase: TouchPhase, id: u64) -> bool
    ensures { result ≡ no_place phase id 0 (Some (device_view d)) }
{
    if d.touches.count < MAX_TOUCHES {
        return false;
    }
    is_start(phase) && !touches::holds(d.touches, id)
}

// The end of a pass, with the pointer's interact position of the pass before: were touches added or removed in it?
#[tactic(auto, unfolding(model::specs::Touch::end_device))]
pub fn end_pass(d: Device, time: f64, pointer_pos: Option<Pos2>, added_or_removed: bool) -> Device
    ensures { device_view result ≡ end_device time pointer_pos added_or_removed (device_view d) }
{
    let averages = calc_dynamic_state(d.touches);
    let pinch_type = classify(d.touches);
    let updated = update_gesture(time, pinch_type, averages, pointer_pos, d.gesture_state);
    Device {
        gesture_state: forget_previous_if(added_or_removed, updated),
        ..d
    }
}

#[tactic(auto, using(touches::proofs::Upsert::some_length), unfolding(model::specs::Touch::any_touches_at))]
pub fn any_touches(d: Device) -> bool
    ensures { result ≡ any_touches_at (Some (device_view d)) }
{
    touches::len(d.touches) > 0
}
