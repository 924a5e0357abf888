// The averages of the touches, and the gesture that is made of them.
#![tactic(auto)]

ghost use Rattle.std.specs.Prelude.{◌≡◌, ◌≤◌, None, Some};
ghost use Rattle.data.specs.Limits.{max_touches};
ghost use Rattle.model.specs.Touch.{force_or_zero, recip, calc_dynamic_state, classify, classify_by, update_gesture, forget_previous_if};
ghost use Rattle.touches.specs.Touches.{list};
ghost use Rattle.gesture.specs.Sums.{sums_of, spreads_of, gone_on, forgotten};

use data::touch::{DynGestureState, GestureState, PinchType};
use emath::pos2::Pos2;
use emath::vec2::Vec2;
use touches::Touches;

// Kept (plain): the definition has this name, and the sum's law cites the clause at each touch.
#[tactic(auto, unfolding(model::specs::Touch::force_or_zero))]
fn force_or_zero(force: Option<f32>) -> f32
    ensures { result ≡ force_or_zero force }
{
    force.unwrap_or(0.0)
}

// The sums of the forces and of the positions.
#[derive(Clone, Copy)]
pub struct Sums {
    pub force: f32,
    pub pos: Pos2,
}

// The sums of the distances from a position, whole and along each axis.
#[derive(Clone, Copy)]
pub struct Spreads {
    pub distance: f32,
    pub abs_distance2: Vec2,
}

fn sum(ts: Touches) -> Sums
    ensures { result ≡ sums_of (list ts) }
{
    let n = touches::len(ts);
    let mut force: f32 = 0.0;
    let mut pos = Pos2::zero();
    for t in &ts.places[..n] {
        force = force + force_or_zero(t.force);
        pos = Pos2 {
            x: pos.x + t.pos.x,
            y: pos.y + t.pos.y,
        };
    }
    Sums { force, pos }
}

fn spread(ts: Touches, center: Pos2) -> Spreads
    ensures { result ≡ spreads_of center (list ts) }
{
    let n = touches::len(ts);
    let mut distance: f32 = 0.0;
    let mut abs_distance2 = Vec2::zero();
    for t in &ts.places[..n] {
        distance = distance + center.distance(t.pos);
        let away = (center - t.pos).abs();
        abs_distance2 = abs_distance2 + away;
    }
    Spreads {
        distance,
        abs_distance2,
    }
}

// 1 / n, rounded
#[tactic(auto, unfolding(model::specs::Touch::recip, model::specs::Numbers::one))]
fn recip(n: usize) -> f32
    requires { n ≤ max_touches }
    ensures { result ≡ recip n }
{
    1.0 / (n as u16 as f32)
}

// None if less than two fingers.
pub fn calc_dynamic_state(ts: Touches) -> Option<DynGestureState>
    ensures { result ≡ calc_dynamic_state (list ts) }
{
    let n = touches::len(ts);
    if n < 2 {
        return None;
    }
    let r = recip(n);
    let total = sum(ts);
    let center = Pos2 {
        x: total.pos.x * r,
        y: total.pos.y * r,
    };
    let away = spread(ts, center);
    let start = ts.places[0].pos;
    let heading = center - start;
    Some(DynGestureState {
        avg_distance: away.distance * r,
        avg_abs_distance2: Vec2 {
            x: away.abs_distance2.x * r,
            y: away.abs_distance2.y * r,
        },
        avg_pos: center,
        avg_force: total.force * r,
        heading,
    })
}

#[tactic(auto, unfolding(model::specs::Touch::classify_by, model::specs::Numbers::three))]
fn classify_by(dx: f32, dy: f32) -> PinchType
    ensures { result ≡ classify_by dx dy }
{
    if dx > 3.0 * dy {
        return PinchType::Horizontal;
    }
    if dy > 3.0 * dx {
        return PinchType::Vertical;
    }
    PinchType::Proportional
}

// Two fingers side by side or one above the other zoom along one axis.
pub fn classify(ts: Touches) -> PinchType
    ensures { result ≡ classify (list ts) }
{
    let n = touches::len(ts);
    if n == 2 {
        let t0 = ts.places[0].pos;
        let t1 = ts.places[1].pos;
        let dx = emath::vec2::abs(t0.x - t1.x);
        let dy = emath::vec2::abs(t0.y - t1.y);
        return classify_by(dx, dy);
    }
    PinchType::Proportional
}

#[tactic(auto, unfolding(model::specs::Touch::update_gesture))]
fn start_gesture(
    time: f64,
    pinch_type: PinchType,
    current: DynGestureState,
    pointer_pos: Option<Pos2>,
) -> Option<GestureState>
    ensures { result ≡ update_gesture time pinch_type (Some current) pointer_pos None }
{
    let pos = pointer_pos?;
    Some(GestureState {
        start_time: time,
        start_pointer_pos: pos,
        pinch_type,
        previous: None,
        current,
    })
}

#[tactic(auto, unfolding(crate::specs::Sums::gone_on))]
fn go_on(gesture: GestureState, averages: DynGestureState) -> GestureState
    ensures { result ≡ gone_on gesture averages }
{
    GestureState {
        previous: Some(gesture.current),
        current: averages,
        ..gesture
    }
}

// A gesture goes on, starts where the pointer has a position, or ends with less than two fingers.
#[tactic(auto, unfolding(model::specs::Touch::update_gesture, crate::specs::Sums::gone_on))]
pub fn update_gesture(
    time: f64,
    pinch_type: PinchType,
    averages: Option<DynGestureState>,
    pointer_pos: Option<Pos2>,
    gesture: Option<GestureState>,
) -> Option<GestureState>
    ensures { result ≡ update_gesture time pinch_type averages pointer_pos gesture }
{
    let current = averages?;
    match gesture {
        None => start_gesture(time, pinch_type, current, pointer_pos),
        Some(g) => Some(go_on(g, current)),
    }
}

#[tactic(auto, unfolding(crate::specs::Sums::forgotten))]
fn forget_previous(gesture: GestureState) -> GestureState
    ensures { result ≡ forgotten gesture }
{
    GestureState {
        previous: None,
        ..gesture
    }
}

// Adding or removing fingers makes the averages jump: there is no change to tell of then.
#[tactic(auto, unfolding(model::specs::Touch::forget_previous_if, crate::specs::Sums::forgotten))]
pub fn forget_previous_if(forget: bool, gesture: Option<GestureState>) -> Option<GestureState>
    ensures { result ≡ forget_previous_if forget gesture }
{
    match gesture {
        Some(g) if forget => Some(forget_previous(g)),
        _ => gesture,
    }
}
