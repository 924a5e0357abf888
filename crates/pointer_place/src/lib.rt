// Where the pointer is and how it moves. The caller lends the places of the history.
#![tactic(auto)]

ghost use Rattle.std.specs.Prelude.{◌≡◌, cond, List, [], Float};
ghost use Rattle.emath.specs.Vec.{normalized};
ghost use Rattle.emath.specs.History.{velocity};
ghost use Rattle.emath_history.specs.Ring.{view};
ghost use Rattle.model.specs.Types.{PointerButton, Modifiers, PointerMoved, MouseMoved, Button, PointerGone};
ghost use Rattle.model.specs.Pointer.{unwrap_or_default, zero_motion, add_motion, place_event, start_place, delta_of, velocity_of};
ghost use Rattle.model.specs.Pass.{fresh_place};
ghost use Rattle.pointer_place.specs.View.{place, Placed, Sampled, Ended};

use emath::pos2::Pos2;
use emath::vec2::Vec2;
use emath_history::history::{History, MAX_LEN, PARTS};

#[derive(Clone, Copy)]
pub struct Place {
    pub latest_pos: Option<Pos2>,
    pub interact_pos: Option<Pos2>,
    pub delta: Vec2,
    pub motion: Option<Vec2>,
    pub velocity: Vec2,
    pub direction: Vec2,
    pub history: History,
}

impl Place {
    // Default for PointerState
    #[tactic(auto, unfolding(model::specs::Pass::fresh_place))]
    pub fn fresh() -> Place
        ensures { (times positions : List Float) → place times positions result ≡ fresh_place }
    {
        let zero = Vec2::zero();
        Place {
            latest_pos: None,
            interact_pos: None,
            delta: zero,
            motion: None,
            velocity: zero,
            direction: zero,
            history: History::new(),
        }
    }
}

#[tactic(auto, unfolding(model::specs::Pointer::unwrap_or_default))]
fn unwrap_or_default(v: Option<Vec2>) -> Vec2
    ensures { result ≡ unwrap_or_default v }
{
    v.unwrap_or(Vec2::zero())
}

#[tactic(auto, unfolding(model::specs::Pointer::zero_motion))]
fn zero_motion(motion: Option<Vec2>) -> Option<Vec2>
    ensures { result ≡ zero_motion motion }
{
    motion.map(|_| Vec2::zero())
}

#[tactic(auto, unfolding(model::specs::Pointer::add_motion))]
fn add_motion(motion: Option<Vec2>, v: Vec2) -> Option<Vec2>
    ensures { result ≡ add_motion v motion }
{
    Some(motion.unwrap_or(Vec2::zero()) + v)
}

// Before the events: the interact position is the latest one, and a known motion is zero.
#[tactic(auto, unfolding(model::specs::Pointer::start_place, model::specs::Pointer::with_place))]
pub fn start_place(p: Place) -> Place
    ensures { Placed start_place p result }
{
    Place {
        interact_pos: p.latest_pos,
        motion: zero_motion(p.motion),
        ..p
    }
}

// An event's effect on it: the pointer moved.
#[tactic(auto, unfolding(model::specs::Pointer::place_event, model::specs::Pointer::with_place))]
pub fn moved_place(p: Place, pos: Pos2) -> Place
    ensures { Placed (place_event (PointerMoved pos)) p result }
{
    Place {
        latest_pos: Some(pos),
        interact_pos: Some(pos),
        ..p
    }
}

// The mouse moved by `delta`.
#[tactic(auto, unfolding(model::specs::Pointer::place_event, model::specs::Pointer::with_place))]
pub fn motion_place(p: Place, delta: Vec2) -> Place
    ensures { Placed (place_event (MouseMoved delta)) p result }
{
    Place {
        motion: add_motion(p.motion, delta),
        ..p
    }
}

// A press clears the history.
#[tactic(auto, unfolding(model::specs::Pointer::place_event, model::specs::Pointer::with_place))]
pub fn button_place(p: Place, pos: Pos2, pressed: bool) -> Place
    ensures { (b : PointerButton) (m : Modifiers) → Placed (place_event (Button pos b pressed m)) p result }
{
    if pressed {
        return Place {
            latest_pos: Some(pos),
            interact_pos: Some(pos),
            history: p.history.clear(),
            ..p
        };
    }
    moved_place(p, pos)
}

// A pointer that is gone keeps its interact position.
#[tactic(auto, unfolding(model::specs::Pointer::place_event, model::specs::Pointer::with_place))]
pub fn gone_place(p: Place) -> Place
    ensures { Placed (place_event PointerGone) p result }
{
    Place {
        latest_pos: None,
        interact_pos: p.interact_pos,
        ..p
    }
}

#[tactic(auto, unfolding(model::specs::Pointer::delta_of))]
fn delta_of(old: Option<Pos2>, new: Option<Pos2>) -> Vec2
    ensures { result ≡ delta_of old new }
{
    if let (Some(a), Some(b)) = (old, new) {
        return b - a;
    }
    Vec2::zero()
}

// Of at least 3 samples over more than 0.01 s.
// Kept (plain): History's own questions take the two arrays; a struct would be taken apart at each call.
#[tactic(auto, unfolding(model::specs::Pointer::velocity_of, model::specs::Numbers::hundredth))]
fn velocity_of(h: History, times: &[f64; MAX_LEN], positions: &[f32; PARTS]) -> Vec2
    ensures { result ≡ velocity_of (view times.now positions.now h) }
{
    if h.len() < 3 {
        return Vec2::zero();
    }
    if h.duration(times) > 0.01 {
        return unwrap_or_default(h.velocity(times, positions));
    }
    Vec2::zero()
}

// Kept (plain): as `velocity_of`.
fn direction_of(h: History, times: &[f64; MAX_LEN], positions: &[f32; PARTS]) -> Vec2
    ensures { result ≡ normalized (unwrap_or_default (velocity (view times.now positions.now h))) }
{
    let v = unwrap_or_default(h.velocity(times, positions));
    v.normalized()
}

// The history with the latest position, if there is one.
// Kept (plain): lent one by one: of a struct that holds a `&mut` each clause would have to say what stands behind it afterwards.
fn sampled(
    h: History,
    times: &mut [f64; MAX_LEN],
    positions: &mut [f32; PARTS],
    time: f64,
    latest: Option<Pos2>,
) -> History
    ensures { Sampled time latest times.old positions.old h times.new positions.new result }
{
    match latest {
        None => h.flush(times, time),
        Some(pos) => {
            let g = h.add(times, positions, time, pos);
            g.flush(times, time)
        }
    }
}

fn cleared(h: History, gone: bool) -> History
    ensures { (times positions : List Float) → view times positions result ≡ cond gone [] (view times positions h) }
{
    if gone {
        return h.clear();
    }
    h
}

// The end of a pass that began with the pointer at `old`: delta, history, velocity, direction.
// Kept (plain): lent one by one: of a struct that holds a `&mut` each clause would have to say what stands behind it afterwards.
#[tactic(auto, unfolding(model::specs::Pointer::end_place, model::specs::Pointer::finish_place))]
pub fn end_place(
    p: Place,
    times: &mut [f64; MAX_LEN],
    positions: &mut [f32; PARTS],
    time: f64,
    old: Option<Pos2>,
    gone: bool,
) -> Place
    ensures { Ended time old gone times.old positions.old p times.new positions.new result }
{
    let new = p.latest_pos;
    let delta = delta_of(old, new);
    let h = sampled(p.history, times, positions, time, new);
    let velocity = velocity_of(h, times, positions);
    let history = cleared(h, gone);
    let direction = direction_of(history, times, positions);
    Place {
        delta,
        velocity,
        direction,
        history,
        ..p
    }
}
