// 01's domain: whether a number given is in it. No NaN is.
#![tactic(auto)]

mod limits;

ghost use Rattle.std.specs.Prelude.{◌≡◌};
ghost use Rattle.data.specs.Limits.{within32, within64, coordinate_ok, pos_ok, vec_ok, rect_ok, zoom_ok, radians_ok};
ghost use Rattle.data.specs.Limits.{unit_interval_ok, force_ok, maybe_force_ok, length_ok, scale_ok, time_ok, duration_ok, options_ok, event_ok};

use crate::limits::{
    MAX_COORDINATE, MAX_DURATION, MAX_RADIANS, MAX_SCALE, MAX_TIME, MAX_ZOOM, MIN_COORDINATE,
    MIN_RADIANS,
};
use data::event::Event;
use data::options::InputOptions;
use emath::pos2::Pos2;
use emath::rect::Rect;
use emath::vec2::Vec2;

// Both ends are in the range.
// Kept (plain): one for each type of floats, a line each. Their definitions name the format, so a generic one would need a
// trait that has the format as its law.
#[tactic(auto, unfolding(data::specs::Limits::within32))]
fn within32(lo: f32, hi: f32, x: f32) -> bool
    ensures { result ≡ within32 lo hi x }
{
    lo <= x && x <= hi
}

// Kept (plain): as `within32`.
#[tactic(auto, unfolding(data::specs::Limits::within64))]
fn within64(lo: f64, hi: f64, x: f64) -> bool
    ensures { result ≡ within64 lo hi x }
{
    lo <= x && x <= hi
}

#[tactic(auto, unfolding(data::specs::Limits::coordinate_ok, data::specs::Limits::min_coordinate, data::specs::Limits::max_coordinate))]
pub fn coordinate_ok(x: f32) -> bool
    ensures { result ≡ coordinate_ok x }
{
    within32(MIN_COORDINATE, MAX_COORDINATE, x)
}

#[tactic(auto, unfolding(data::specs::Limits::pos_ok))]
pub fn pos_ok(p: Pos2) -> bool
    ensures { result ≡ pos_ok p }
{
    coordinate_ok(p.x) && coordinate_ok(p.y)
}

#[tactic(auto, unfolding(data::specs::Limits::vec_ok))]
pub fn vec_ok(v: Vec2) -> bool
    ensures { result ≡ vec_ok v }
{
    coordinate_ok(v.x) && coordinate_ok(v.y)
}

#[tactic(auto, unfolding(data::specs::Limits::rect_ok))]
pub fn rect_ok(r: Rect) -> bool
    ensures { result ≡ rect_ok r }
{
    pos_ok(r.min) && pos_ok(r.max)
}

#[tactic(auto, unfolding(data::specs::Limits::zoom_ok, data::specs::Limits::zero32, data::specs::Limits::max_zoom))]
pub fn zoom_ok(x: f32) -> bool
    ensures { result ≡ zoom_ok x }
{
    0.0 < x && x <= MAX_ZOOM
}

#[tactic(auto, unfolding(data::specs::Limits::radians_ok, data::specs::Limits::min_radians, data::specs::Limits::max_radians))]
pub fn radians_ok(x: f32) -> bool
    ensures { result ≡ radians_ok x }
{
    within32(MIN_RADIANS, MAX_RADIANS, x)
}

// Predicted dt, smoothing factor, zoom speed.
#[tactic(auto, unfolding(data::specs::Limits::unit_interval_ok, data::specs::Limits::zero32, data::specs::Limits::one32))]
pub fn unit_interval_ok(x: f32) -> bool
    ensures { result ≡ unit_interval_ok x }
{
    within32(0.0, 1.0, x)
}

#[tactic(auto, unfolding(data::specs::Limits::force_ok, data::specs::Limits::zero32, data::specs::Limits::one32))]
pub fn force_ok(x: f32) -> bool
    ensures { result ≡ force_ok x }
{
    within32(0.0, 1.0, x)
}

#[tactic(auto, unfolding(data::specs::Limits::maybe_force_ok))]
pub fn maybe_force_ok(f: Option<f32>) -> bool
    ensures { result ≡ maybe_force_ok f }
{
    f.is_none_or(|x| force_ok(x))
}

// Line speed, click distance.
#[tactic(auto, unfolding(data::specs::Limits::length_ok, data::specs::Limits::zero32, data::specs::Limits::max_coordinate))]
pub fn length_ok(x: f32) -> bool
    ensures { result ≡ length_ok x }
{
    within32(0.0, MAX_COORDINATE, x)
}

#[tactic(auto, unfolding(data::specs::Limits::scale_ok, data::specs::Limits::zero32, data::specs::Limits::max_scale))]
pub fn scale_ok(x: f32) -> bool
    ensures { result ≡ scale_ok x }
{
    within32(0.0, MAX_SCALE, x)
}

#[tactic(auto, unfolding(data::specs::Limits::time_ok, data::specs::Limits::zero64, data::specs::Limits::max_time))]
pub fn time_ok(t: f64) -> bool
    ensures { result ≡ time_ok t }
{
    within64(0.0, MAX_TIME, t)
}

#[tactic(auto, unfolding(data::specs::Limits::duration_ok, data::specs::Limits::zero64, data::specs::Limits::max_duration))]
pub fn duration_ok(t: f64) -> bool
    ensures { result ≡ duration_ok t }
{
    within64(0.0, MAX_DURATION, t)
}

#[tactic(auto, unfolding(data::specs::Limits::options_ok))]
pub fn options_ok(o: InputOptions) -> bool
    ensures { result ≡ options_ok o }
{
    length_ok(o.line_scroll_speed)
        && unit_interval_ok(o.scroll_zoom_speed)
        && length_ok(o.max_click_dist)
        && duration_ok(o.max_click_duration)
        && duration_ok(o.max_double_click_delay)
}

// Every float of the event.
#[tactic(auto, unfolding(data::specs::Limits::event_ok))]
pub fn event_ok(e: Event) -> bool
    ensures { result ≡ event_ok e }
{
    match e {
        Event::PointerMoved(pos) | Event::PointerButton(pos, _, _, _) => pos_ok(pos),
        Event::MouseMoved(delta) | Event::MouseWheel(_, delta, _, _, _) => vec_ok(delta),
        Event::Zoom(factor) => zoom_ok(factor),
        Event::Rotate(radians) => radians_ok(radians),
        Event::Touch(_, _, _, pos, force) => pos_ok(pos) && maybe_force_ok(force),
        Event::Key(_, _)
        | Event::ModifiersChanged(_)
        | Event::PointerGone
        | Event::WindowFocused(_)
        | Event::Other => true,
    }
}
