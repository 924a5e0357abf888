// egui's input_state/wheel_state.rs, by value: its questions and what a pass does after the events. `wheel_event` has one event.
#![tactic(auto)]

ghost use Rattle.std.specs.Prelude.{◌≡◌, true};
ghost use Rattle.model.specs.Wheel.{wheel_default, is_static, is_in_touch, is_trackpad, is_scrolling, timeout, is_scroll_action_over, end_scroll_action_if};
ghost use Rattle.model.specs.Wheel.{applied, unapplied, smoothed, end_if_still, after_events, clear_smooth};

use data::modifiers::Modifiers;
use data::mouse_wheel::{MouseWheelSource, Status, WheelState};
use emath::vec2::Vec2;

// If there has been no scroll event for this many seconds, the scroll action is over.
const SCROLL_ACTION_TIMEOUT: f64 = 0.150;

// The same for fingers resting on a trackpad.
const RESTING_FINGER_TIMEOUT: f64 = 1.0;

pub fn default() -> WheelState
    ensures { result ≡ wheel_default }
{
    let zero = Vec2::zero();
    WheelState {
        status: Status::Static,
        source: MouseWheelSource::Unknown,
        modifiers: Modifiers::none(),
        last_wheel_event: -1.0 / 0.0,
        unprocessed_wheel_delta: zero,
        smooth_wheel_delta: zero,
    }
}

#[tactic(auto, unfolding(model::specs::Wheel::is_static))]
fn is_static(status: Status) -> bool
    ensures { result ≡ is_static status }
{
    matches!(status, Status::Static)
}

#[tactic(auto, unfolding(model::specs::Wheel::is_in_touch))]
pub fn is_in_touch(status: Status) -> bool
    ensures { result ≡ is_in_touch status }
{
    matches!(status, Status::InTouch)
}

#[tactic(auto, unfolding(model::specs::Wheel::is_trackpad))]
fn is_trackpad(source: MouseWheelSource) -> bool
    ensures { result ≡ is_trackpad source }
{
    matches!(source, MouseWheelSource::Trackpad)
}

#[tactic(auto, unfolding(model::specs::Wheel::is_scrolling))]
pub fn is_scrolling(w: WheelState) -> bool
    ensures { result ≡ is_scrolling w }
{
    !is_static(w.status)
}

fn timeout(w: WheelState) -> f64
    ensures { result ≡ timeout w }
{
    if is_in_touch(w.status) & is_trackpad(w.source) {
        return RESTING_FINGER_TIMEOUT;
    }
    SCROLL_ACTION_TIMEOUT
}

// Has it been so long since the last scroll event that the scroll action must be over?
#[tactic(auto, unfolding(model::specs::Wheel::is_scroll_action_over))]
pub fn is_scroll_action_over(w: WheelState, time: f64) -> bool
    ensures { result ≡ is_scroll_action_over time w }
{
    is_scrolling(w) & (timeout(w) < time - w.last_wheel_event)
}

#[tactic(auto, unfolding(model::specs::Wheel::end_scroll_action_if))]
pub fn end_scroll_action(w: WheelState) -> WheelState
    ensures { result ≡ end_scroll_action_if true w }
{
    WheelState {
        status: Status::Static,
        modifiers: Modifiers::none(),
        ..w
    }
}

#[tactic(auto, unfolding(model::specs::Wheel::end_scroll_action_if))]
pub fn end_if_over(w: WheelState, time: f64) -> WheelState
    ensures { result ≡ end_scroll_action_if (is_scroll_action_over time w) w }
{
    if is_scroll_action_over(w, time) {
        return end_scroll_action(w);
    }
    w
}

// What a part x of the unprocessed delta gives to the smooth one.
fn applied(t: f32, x: f32) -> f32
    ensures { result ≡ applied t x }
{
    if emath::vec2::abs(x) < 1.0 {
        return x;
    }
    t * x
}

// What is left of it.
fn unapplied(t: f32, x: f32) -> f32
    ensures { result ≡ unapplied t x }
{
    if emath::vec2::abs(x) < 1.0 {
        return 0.0;
    }
    x - t * x
}

fn smoothed(t: f32, w: WheelState) -> WheelState
    ensures { result ≡ smoothed t w }
{
    let old = w.unprocessed_wheel_delta;
    if old != Vec2::zero() {
        let step = Vec2 {
            x: applied(t, old.x),
            y: applied(t, old.y),
        };
        let rest = Vec2 {
            x: unapplied(t, old.x),
            y: unapplied(t, old.y),
        };
        return WheelState {
            unprocessed_wheel_delta: rest,
            smooth_wheel_delta: w.smooth_wheel_delta + step,
            ..w
        };
    }
    w
}

fn end_if_still(time: f64, w: WheelState) -> WheelState
    ensures { result ≡ end_if_still time w }
{
    if w.smooth_wheel_delta != Vec2::zero() {
        return w;
    }
    end_if_over(w, time)
}

// `t` is the smoothing factor of the pass.
#[tactic(auto, unfolding(model::specs::Wheel::after_events))]
pub fn after_events(w: WheelState, time: f64, t: f32) -> WheelState
    ensures { result ≡ after_events time t w }
{
    let v = smoothed(t, w);
    end_if_still(time, v)
}

// The smooth delta is a pass's own.
#[tactic(auto, unfolding(model::specs::Wheel::clear_smooth))]
pub fn clear_smooth(w: WheelState) -> WheelState
    ensures { result ≡ clear_smooth w }
{
    WheelState {
        smooth_wheel_delta: Vec2::zero(),
        ..w
    }
}
