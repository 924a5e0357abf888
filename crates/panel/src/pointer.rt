// Where the pointer is and how it moves.
// Calls handed on: the clauses are what this door adds.
ghost use Rattle.model.specs.Questions.{settled, bool, vector, maybe_vector, maybe_position, maybe_number};
ghost use Rattle.model.specs.Questions as ask;
ghost use Rattle.panel.specs.Answers.{OfPlace, OfPlaceAndPress, OfLastMove};

use emath::pos2::Pos2;
use emath::vec2::Vec2;
use input_state::clock::Clock;
use input_state::pointer::Pointer;
use pointer_place::Place;

pub fn delta(place: Place) -> Vec2
    ensures { OfPlace (settled ask.delta) place (vector result) }
{
    pointer_questions::moving::delta(place)
}

pub fn motion(place: Place) -> Option<Vec2>
    ensures { OfPlace (settled ask.motion) place (maybe_vector result) }
{
    pointer_questions::moving::motion(place)
}

pub fn velocity(place: Place) -> Vec2
    ensures { OfPlace (settled ask.velocity) place (vector result) }
{
    pointer_questions::moving::velocity(place)
}

pub fn direction(place: Place) -> Vec2
    ensures { OfPlace (settled ask.direction) place (vector result) }
{
    pointer_questions::moving::direction(place)
}

pub fn latest_pos(place: Place) -> Option<Pos2>
    ensures { OfPlace (settled ask.latest_pos) place (maybe_position result) }
{
    pointer_questions::moving::latest_pos(place)
}

pub fn hover_pos(place: Place) -> Option<Pos2>
    ensures { OfPlace (settled ask.hover_pos) place (maybe_position result) }
{
    pointer_questions::moving::hover_pos(place)
}

pub fn interact_pos(place: Place) -> Option<Pos2>
    ensures { OfPlace (settled ask.interact_pos) place (maybe_position result) }
{
    pointer_questions::moving::interact_pos(place)
}

pub fn has_pointer(place: Place) -> bool
    ensures { OfPlace (settled ask.has_pointer) place (bool result) }
{
    pointer_questions::moving::has_pointer(place)
}

pub fn is_still(place: Place) -> bool
    ensures { OfPlace (settled ask.is_still) place (bool result) }
{
    pointer_questions::moving::is_still(place)
}

pub fn is_moving(place: Place) -> bool
    ensures { OfPlace (settled ask.is_moving) place (bool result) }
{
    pointer_questions::moving::is_moving(place)
}

// In seconds, or none before any.
pub fn time_since_last_movement(pointer: Pointer, clock: Clock) -> Option<f32>
    ensures { OfLastMove ask.time_since_last_movement pointer clock (maybe_number result) }
{
    pointer_questions::moving::time_since_last_movement(pointer.last_move_time, clock.pointer_time)
}

// How far the pointer moved since the press, if there is one.
pub fn total_drag_delta(pointer: Pointer) -> Option<Vec2>
    ensures { OfPlaceAndPress (settled ask.total_drag_delta) pointer (maybe_vector result) }
{
    pointer_questions::moving::total_drag_delta(pointer.place, pointer.press.held)
}
