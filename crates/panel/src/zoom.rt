// Zoom, rotation and translation: those of the first device by id that has a gesture, or else the sums of the pass.
// Calls handed on: the clauses are what this door adds.
use data::touch::Rotation;
use emath::vec2::Vec2;
use input_state::screen::Screen;
use input_state::sums::Sums;
use key_state::keys::Keys;
use scroll_questions::zoom::{Zoom, Zoom2d};
use touch_state::devices::Devices;
// Of an exponent of size at most 1; a greater one is the host's to split: e^(a + b) = e^a · e^b.
ghost use Rattle.model.specs.Questions.{settled, vector, rotation};
ghost use Rattle.model.specs.Questions as ask;
ghost use Rattle.scroll_questions.specs.Answers.{zoom_answer, zoom_2d_answer};
ghost use Rattle.panel.specs.Answers.{OfGesture, OfGestureByAxis, NumberedRotation};

pub use zoom_factor::zoom_factor;

pub fn zoom_delta(devices: Devices, sums: Sums) -> Zoom
    ensures { OfGesture (settled ask.zoom_delta) devices sums (zoom_answer result) }
{
    scroll_questions::zoom::zoom_delta(devices, sums.zoom_factor, sums.zoom_exponent)
}

// With one of the two scroll modifiers held, only its axis zooms.
pub fn zoom_delta_2d(devices: Devices, sums: Sums, keys: Keys, screen: Screen) -> Zoom2d
    ensures { OfGestureByAxis (settled ask.zoom_delta_2d) devices sums keys screen (zoom_2d_answer result) }
{
    scroll_questions::zoom::zoom_delta_2d(
        devices,
        sums.zoom_factor,
        sums.zoom_exponent,
        keys.modifiers,
        screen.options,
    )
}

pub fn rotation_delta(devices: Devices, sums: Sums) -> Rotation
    ensures of_gesture { OfGesture (settled ask.rotation_delta) devices sums (rotation result) }
    ensures numbered { NumberedRotation devices sums result }
{
    scroll_questions::zoom::rotation_delta(devices, sums.rotation_radians)
}

pub fn translation_delta(devices: Devices, sums: Sums) -> Vec2
    ensures { OfGesture (settled ask.translation_delta) devices sums (vector result) }
{
    scroll_questions::zoom::translation_delta(devices, sums.smooth_scroll_delta)
}
