// egui's input_state/wheel_state.rs: one wheel event, by value; `lent` has the wheel behind a `&mut`.
#![tactic(auto)]

pub mod lent;

ghost use Rattle.std.specs.Prelude.{◌≡◌};
ghost use Rattle.std.specs.Float.Ieee.{lt};
ghost use Rattle.emath.specs.Vec.{length};
ghost use Rattle.model.specs.Numbers.{eight};
ghost use Rattle.model.specs.Wheel.{move_status, move_modifiers, in_points, swapped, axes, small, add_delta, on_move, stopped_wheel, on_phase, on_wheel_event};

use data::modifiers::Modifiers;
use data::mouse_wheel::{MouseWheelSource, MouseWheelUnit, Status, WheelState};
use data::options::InputOptions;
use data::touch::TouchPhase;
use emath::rect::Rect;
use emath::vec2::Vec2;
use wheel_state::{end_if_over, is_in_touch};

// What a pass measures its wheel events by.
#[derive(Clone, Copy)]
pub struct Measures {
    pub viewport_rect: Rect,
    pub options: InputOptions,
    pub time: f64,
}

// A wheel event of the feed.
#[derive(Clone, Copy)]
pub struct WheelEvent {
    pub unit: MouseWheelUnit,
    pub delta: Vec2,
    pub phase: TouchPhase,
    pub source: MouseWheelSource,
    pub modifiers: Modifiers,
}

#[tactic(auto, unfolding(model::specs::Wheel::move_status))]
fn move_status(status: Status) -> Status
    ensures { result ≡ move_status status }
{
    match status {
        Status::Static => Status::Smoothing,
        _ => status,
    }
}

// In touch a modifier that was let go stays, and a new one is heeded.
#[tactic(auto, unfolding(model::specs::Wheel::move_modifiers))]
fn move_modifiers(status: Status, old: Modifiers, latest: Modifiers) -> Modifiers
    ensures { result ≡ move_modifiers status old latest }
{
    match status {
        Status::Static | Status::Smoothing => latest,
        Status::InTouch => old.bitor(latest),
    }
}

#[tactic(auto, unfolding(model::specs::Wheel::in_points))]
fn in_points(by: Measures, unit: MouseWheelUnit, delta: Vec2) -> Vec2
    ensures { result ≡ in_points by.viewport_rect by.options unit delta }
{
    match unit {
        MouseWheelUnit::Point => delta,
        MouseWheelUnit::Line => delta * by.options.line_scroll_speed,
        MouseWheelUnit::Page => delta * by.viewport_rect.height(),
    }
}

// With one of the two scroll modifiers held, all scrolling is along its axis.
#[tactic(auto, unfolding(model::specs::Wheel::swapped))]
fn swapped(is_horizontal: bool, is_vertical: bool, delta: Vec2) -> Vec2
    ensures { result ≡ swapped is_horizontal is_vertical delta }
{
    match (is_horizontal, is_vertical) {
        (true, false) => Vec2 {
            x: delta.x + delta.y,
            y: 0.0,
        },
        (false, true) => Vec2 {
            x: 0.0,
            y: delta.x + delta.y,
        },
        _ => delta,
    }
}

#[tactic(auto, unfolding(model::specs::Wheel::axes))]
fn axes(options: InputOptions, modifiers: Modifiers, delta: Vec2) -> Vec2
    ensures { result ≡ axes options modifiers delta }
{
    swapped(
        modifiers.matches_any(options.horizontal_scroll_modifier),
        modifiers.matches_any(options.vertical_scroll_modifier),
        delta,
    )
}

// What a square is of a delta that is 8 long, and of one that is surely shorter.
const SQUARE_OF_8: f64 = 64.0;

const SHORTER_SQUARE: f64 = 63.75;

// Is it shorter than 8? But for a delta of nearly 8 the square tells, without a root: roots never fall.
fn is_short(delta: Vec2) -> bool
    ensures { result ≡ lt (length delta) eight }
{
    let square = delta.length_sq64();
    if SQUARE_OF_8 <= square {
        return false;
    }
    if square <= SHORTER_SQUARE {
        return true;
    }
    delta.length() < 8.0
}

#[tactic(auto, unfolding(model::specs::Wheel::small))]
fn small(unit: MouseWheelUnit, delta: Vec2) -> bool
    ensures { result ≡ small unit delta }
{
    match unit {
        MouseWheelUnit::Point => is_short(delta),
        MouseWheelUnit::Line | MouseWheelUnit::Page => false,
    }
}

#[tactic(auto, unfolding(model::specs::Wheel::add_delta))]
fn add_delta(is_smooth: bool, delta: Vec2, w: WheelState) -> WheelState
    ensures { result ≡ add_delta is_smooth delta w }
{
    if is_smooth {
        return WheelState {
            smooth_wheel_delta: w.smooth_wheel_delta + delta,
            ..w
        };
    }
    WheelState {
        unprocessed_wheel_delta: w.unprocessed_wheel_delta + delta,
        ..w
    }
}

// The scroll of a Move, once the wheel has its new status and modifiers.
#[tactic(auto, unfolding(model::specs::Wheel::on_move, model::specs::Wheel::scroll))]
fn on_move(by: Measures, e: WheelEvent, w: WheelState) -> WheelState
    ensures { result ≡ on_move by.viewport_rect by.options e.unit e.delta w }
{
    let points = in_points(by, e.unit, e.delta);
    let along = axes(by.options, w.modifiers, points);
    let is_smooth = is_in_touch(w.status) | small(e.unit, along);
    add_delta(is_smooth, along, w)
}

#[tactic(auto, unfolding(model::specs::Wheel::stopped_wheel))]
fn stopped(time: f64, source: MouseWheelSource) -> WheelState
    ensures { result ≡ stopped_wheel time source }
{
    WheelState {
        status: Status::Static,
        source,
        modifiers: Modifiers::none(),
        last_wheel_event: time,
        unprocessed_wheel_delta: Vec2::zero(),
        smooth_wheel_delta: Vec2::zero(),
    }
}

// One wheel event, of a wheel whose scroll action is ended if it was over.
#[tactic(auto, unfolding(model::specs::Wheel::on_phase))]
fn on_phase(w: WheelState, by: Measures, e: WheelEvent) -> WheelState
    ensures { result ≡ on_phase by.viewport_rect by.options by.time e.unit e.delta e.phase e.source e.modifiers w }
{
    match e.phase {
        TouchPhase::Start => WheelState {
            status: Status::InTouch,
            source: e.source,
            modifiers: e.modifiers,
            last_wheel_event: by.time,
            ..w
        },
        TouchPhase::Move => {
            let v = WheelState {
                status: move_status(w.status),
                source: e.source,
                modifiers: move_modifiers(w.status, w.modifiers, e.modifiers),
                last_wheel_event: by.time,
                ..w
            };
            on_move(by, e, v)
        }
        TouchPhase::End | TouchPhase::Cancel => stopped(by.time, e.source),
    }
}

#[tactic(auto, unfolding(model::specs::Wheel::on_wheel_event))]
pub fn on_wheel_event(w: WheelState, by: Measures, e: WheelEvent) -> WheelState
    ensures { result ≡ on_wheel_event by.viewport_rect by.options by.time e.unit e.delta e.phase e.source e.modifiers w }
{
    on_phase(end_if_over(w, by.time), by, e)
}
