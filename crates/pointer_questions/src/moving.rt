// Where the pointer is and how it moves.
ghost use Rattle.std.specs.Prelude.{◌≡◌};
ghost use Rattle.model.specs.Questions.{bool, vector, maybe_vector, maybe_position, maybe_number};
ghost use Rattle.model.specs.Questions as ask;
ghost use Rattle.pointer_questions.specs.Answers.{OfPlace, OfBoth, OfLastMove};

use emath::pos2::Pos2;
use emath::vec2::Vec2;
use pointer_clicks::Held;
use pointer_place::Place;

#[tactic(auto, unfolding(model::specs::Questions::reply))]
pub fn delta(p: Place) -> Vec2
    ensures { OfPlace ask.delta p (vector result) }
{
    p.delta
}

#[tactic(auto, unfolding(model::specs::Questions::reply))]
pub fn motion(p: Place) -> Option<Vec2>
    ensures { OfPlace ask.motion p (maybe_vector result) }
{
    p.motion
}

#[tactic(auto, unfolding(model::specs::Questions::reply))]
pub fn velocity(p: Place) -> Vec2
    ensures { OfPlace ask.velocity p (vector result) }
{
    p.velocity
}

#[tactic(auto, unfolding(model::specs::Questions::reply))]
pub fn direction(p: Place) -> Vec2
    ensures { OfPlace ask.direction p (vector result) }
{
    p.direction
}

#[tactic(auto, unfolding(model::specs::Questions::reply))]
pub fn latest_pos(p: Place) -> Option<Pos2>
    ensures { OfPlace ask.latest_pos p (maybe_position result) }
{
    p.latest_pos
}

#[tactic(auto, unfolding(model::specs::Questions::reply))]
pub fn hover_pos(p: Place) -> Option<Pos2>
    ensures { OfPlace ask.hover_pos p (maybe_position result) }
{
    p.latest_pos
}

#[tactic(auto, unfolding(model::specs::Questions::reply))]
pub fn interact_pos(p: Place) -> Option<Pos2>
    ensures { OfPlace ask.interact_pos p (maybe_position result) }
{
    p.interact_pos
}

#[tactic(auto, unfolding(model::specs::Questions::reply, model::specs::Interact::has_pos))]
pub fn has_pointer(p: Place) -> bool
    ensures { OfPlace ask.has_pointer p (bool result) }
{
    p.latest_pos.is_some()
}

#[tactic(auto, using(emath::proofs::Parts::not_equal), unfolding(model::specs::Questions::reply))]
pub fn is_still(p: Place) -> bool
    ensures { OfPlace ask.is_still p (bool result) }
{
    p.velocity == Vec2::zero()
}

#[tactic(auto, using(emath::proofs::Parts::not_equal), unfolding(model::specs::Questions::reply))]
pub fn is_moving(p: Place) -> bool
    ensures { OfPlace ask.is_moving p (bool result) }
{
    p.velocity != Vec2::zero()
}

// In seconds, or none before any; `time` is that of the pointer's last pass.
#[tactic(auto, unfolding(model::specs::Questions::ask, model::specs::Questions::since))]
pub fn time_since_last_movement(last: Option<f64>, time: f64) -> Option<f32>
    ensures { OfLastMove ask.time_since_last_movement time last (maybe_number result) }
{
    Some(ieee_narrow::narrow(time - last?))
}

// How far the pointer moved since the press, if there is one.
#[tactic(auto, unfolding(model::specs::Questions::reply, model::specs::Questions::drag_delta))]
pub fn total_drag_delta(p: Place, h: Held) -> Option<Vec2>
    ensures { OfBoth ask.total_drag_delta p h (maybe_vector result) }
{
    Some(p.latest_pos? - h.press_origin?)
}
