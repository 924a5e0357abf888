// The fields of an event's words. A number past an enum's last case is that case.
// Kept (plain): no From<u32>: only in a feed does a number past the last case mean the last case, and are two words an id or a position.
ghost use Rattle.std.specs.Prelude.{◌≡◌};
ghost use Rattle.feed.specs.Shape.{button_of, phase_of, unit_of, source_of, float_of, pos_of, vec_of, id_of};

use data::mouse_wheel::{MouseWheelSource, MouseWheelUnit};
use data::pointer::PointerButton;
use data::touch::TouchPhase;
use emath::pos2::Pos2;
use emath::vec2::Vec2;
use std::num::f32_from_bits_with_nan;

#[tactic(auto, unfolding(crate::specs::Shape::button_of))]
pub fn button_of(n: u32) -> PointerButton
    ensures { result ≡ button_of n }
{
    match n {
        0 => PointerButton::Primary,
        1 => PointerButton::Secondary,
        2 => PointerButton::Middle,
        3 => PointerButton::Extra1,
        _ => PointerButton::Extra2,
    }
}

#[tactic(auto, unfolding(crate::specs::Shape::phase_of))]
pub fn phase_of(n: u32) -> TouchPhase
    ensures { result ≡ phase_of n }
{
    match n {
        0 => TouchPhase::Start,
        1 => TouchPhase::Move,
        2 => TouchPhase::End,
        _ => TouchPhase::Cancel,
    }
}

#[tactic(auto, unfolding(crate::specs::Shape::unit_of))]
pub fn unit_of(n: u32) -> MouseWheelUnit
    ensures { result ≡ unit_of n }
{
    match n {
        0 => MouseWheelUnit::Point,
        1 => MouseWheelUnit::Line,
        _ => MouseWheelUnit::Page,
    }
}

#[tactic(auto, unfolding(crate::specs::Shape::source_of))]
pub fn source_of(n: u32) -> MouseWheelSource
    ensures { result ≡ source_of n }
{
    match n {
        0 => MouseWheelSource::Unknown,
        1 => MouseWheelSource::Wheel,
        2 => MouseWheelSource::Trackpad,
        _ => MouseWheelSource::Momentum,
    }
}

// The float of f32 bits, a NaN's pattern too.
#[tactic(auto, unfolding(crate::specs::Shape::float_of))]
pub fn float_of(w: u32) -> f32
    ensures { result ≡ float_of w }
{
    f32_from_bits_with_nan(w)
}

#[tactic(auto, unfolding(crate::specs::Shape::pos_of))]
pub fn pos_of(x: u32, y: u32) -> Pos2
    ensures { result ≡ pos_of x y }
{
    Pos2 {
        x: float_of(x),
        y: float_of(y),
    }
}

#[tactic(auto, unfolding(crate::specs::Shape::vec_of))]
pub fn vec_of(x: u32, y: u32) -> Vec2
    ensures { result ≡ vec_of x y }
{
    Vec2 {
        x: float_of(x),
        y: float_of(y),
    }
}

// An id of its low and high word.
#[tactic(auto, unfolding(crate::specs::Shape::id_of))]
pub fn id_of(low: u32, high: u32) -> u64
    ensures { result ≡ id_of low high }
{
    (high as u64) * 0x1_0000_0000 + (low as u64)
}
