// An event of the feed, as egui's Event.
use crate::modifiers::Modifiers;
use crate::mouse_wheel::{MouseWheelSource, MouseWheelUnit};
use crate::pointer::PointerButton;
use crate::touch::TouchPhase;
use emath::pos2::Pos2;
use emath::vec2::Vec2;

#[derive(Clone, Copy)]
pub enum Event {
    // place in egui's Key (0 to 144), pressed
    Key(u32, bool),
    ModifiersChanged(Modifiers),
    PointerMoved(Pos2),
    MouseMoved(Vec2),
    // pos, button, pressed, modifiers
    PointerButton(Pos2, PointerButton, bool, Modifiers),
    PointerGone,
    Zoom(f32),
    Rotate(f32),
    // device_id, id, phase, pos, force
    Touch(u64, u64, TouchPhase, Pos2, Option<f32>),
    // unit, delta, phase, source, modifiers
    MouseWheel(MouseWheelUnit, Vec2, TouchPhase, MouseWheelSource, Modifiers),
    WindowFocused(bool),
    Other,
}
