// Zoom, rotation and translation: a gesture's, or else the sums of the pass.
ghost use Rattle.std.specs.Prelude.{◌≡◌};
ghost use Rattle.model.specs.Questions.{vector, rotation, zoom_by_axis};
ghost use Rattle.model.specs.Questions as ask;
ghost use Rattle.scroll_questions.specs.Answers.{zoom_answer, zoom_2d_answer, OfZoom, OfZoom2d, OfRotation, OfTranslation};

use data::modifiers::Modifiers;
use data::options::InputOptions;
use data::touch::{MultiTouchInfo, Rotation};
use emath::vec2::Vec2;
use touch_questions::multi_touch;
use touch_state::devices::Devices;

// The host multiplies the factor by the exponential of the exponent.
#[derive(Clone, Copy)]
pub struct Zoom {
    pub factor: f32,
    pub exponent: f32,
}

// The same by axis.
#[derive(Clone, Copy)]
pub struct Zoom2d {
    pub factor: Vec2,
    pub exponent: Vec2,
}

#[tactic(auto, unfolding(model::specs::Questions::reply, model::specs::Questions::shown, model::specs::Questions::zoom_reply, model::specs::Numbers::one))]
pub fn zoom_delta(ds: Devices, factor: f32, exponent: f32) -> Zoom
    ensures { OfZoom ask.zoom_delta ds factor exponent (zoom_answer result) }
{
    match multi_touch(ds) {
        None => Zoom { factor, exponent },
        Some(g) => Zoom {
            factor: g.zoom_delta,
            exponent: 0.0,
        },
    }
}

// With one of the two scroll modifiers held, only its axis zooms.
#[tactic(auto, unfolding(model::specs::Questions::zoom_by_axis, model::specs::Numbers::one))]
fn zoom_by_axis(is_horizontal: bool, is_vertical: bool, factor: f32, exponent: f32) -> Zoom2d
    ensures { zoom_2d_answer result ≡ zoom_by_axis is_horizontal is_vertical factor exponent }
{
    let mut f = Vec2 {
        x: factor,
        y: factor,
    };
    let mut e = Vec2 {
        x: exponent,
        y: exponent,
    };
    match (is_horizontal, is_vertical) {
        (true, false) => {
            f.y = 1.0;
            e.y = 0.0;
        }
        (false, true) => {
            f.x = 1.0;
            e.x = 0.0;
        }
        _ => {}
    }
    Zoom2d {
        factor: f,
        exponent: e,
    }
}

#[tactic(auto, unfolding(model::specs::Questions::reply, model::specs::Questions::shown, model::specs::Questions::zoom_2d_reply))]
pub fn zoom_delta_2d(
    ds: Devices,
    factor: f32,
    exponent: f32,
    modifiers: Modifiers,
    options: InputOptions,
) -> Zoom2d
    ensures { OfZoom2d ask.zoom_delta_2d ds factor exponent modifiers options (zoom_2d_answer result) }
{
    match multi_touch(ds) {
        None => {
            let is_horizontal = modifiers.matches_any(options.horizontal_scroll_modifier);
            let is_vertical = modifiers.matches_any(options.vertical_scroll_modifier);
            zoom_by_axis(is_horizontal, is_vertical, factor, exponent)
        }
        Some(g) => Zoom2d {
            factor: g.zoom_delta_2d,
            exponent: Vec2::zero(),
        },
    }
}

// `radians` is the sum of the pass's Rotate events.
#[tactic(auto, unfolding(model::specs::Questions::reply, model::specs::Questions::shown))]
pub fn rotation_delta(ds: Devices, radians: f32) -> Rotation
    ensures { OfRotation ask.rotation_delta ds radians (rotation result) }
{
    touch_device::info::rotation(multi_touch(ds), radians)
}

#[tactic(auto, unfolding(model::specs::Questions::reply, model::specs::Questions::shown, model::specs::Questions::translation_reply))]
pub fn translation_delta(ds: Devices, smooth_scroll_delta: Vec2) -> Vec2
    ensures { OfTranslation ask.translation_delta ds smooth_scroll_delta (vector result) }
{
    multi_touch(ds).map_or(smooth_scroll_delta, |g| g.translation_delta)
}
