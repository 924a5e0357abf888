// Where the pointer is and how it moves.
// Kept (C): C calls each question by its own name and lends the arrays one by one: questions alike in their steps stand apart.
ghost use Rattle.host_answers.specs.Answers.{maybe_vector_of, number_of, position_of, vector_of};
ghost use Rattle.host_input.specs.Held.{clock_of, place_of, pointer_of};
ghost use Rattle.model.specs.Questions as ask;
ghost use Rattle.model.specs.Questions.{bool, maybe_number, maybe_position, maybe_vector, settled, vector};
ghost use Rattle.panel.specs.Answers.{OfLastMove, OfPlace, OfPlaceAndPress};

use host_answers::{HostMaybeVector, HostNumber, HostPosition, HostVector};
use host_input::places::{COUNTS, FLAGS, FLOATS, SECONDS};

#[unsafe(no_mangle)]
pub extern "C" fn fivvarul_delta(
    floats: &[f32; FLOATS],
    counts: &[usize; COUNTS],
    flags: &[bool; FLAGS],
) -> HostVector
    ensures { OfPlace (settled ask.delta) (place_of floats.now counts.now flags.now) (vector (vector_of result)) }
{
    let place = host_input::read::place(floats, counts, flags);
    panel::pointer::delta(place).into()
}

#[unsafe(no_mangle)]
pub extern "C" fn fivvarul_motion(
    floats: &[f32; FLOATS],
    counts: &[usize; COUNTS],
    flags: &[bool; FLAGS],
) -> HostMaybeVector
    ensures { OfPlace (settled ask.motion) (place_of floats.now counts.now flags.now) (maybe_vector (maybe_vector_of result)) }
{
    let place = host_input::read::place(floats, counts, flags);
    panel::pointer::motion(place).into()
}

#[unsafe(no_mangle)]
pub extern "C" fn fivvarul_velocity(
    floats: &[f32; FLOATS],
    counts: &[usize; COUNTS],
    flags: &[bool; FLAGS],
) -> HostVector
    ensures { OfPlace (settled ask.velocity) (place_of floats.now counts.now flags.now) (vector (vector_of result)) }
{
    let place = host_input::read::place(floats, counts, flags);
    panel::pointer::velocity(place).into()
}

#[unsafe(no_mangle)]
pub extern "C" fn fivvarul_direction(
    floats: &[f32; FLOATS],
    counts: &[usize; COUNTS],
    flags: &[bool; FLAGS],
) -> HostVector
    ensures { OfPlace (settled ask.direction) (place_of floats.now counts.now flags.now) (vector (vector_of result)) }
{
    let place = host_input::read::place(floats, counts, flags);
    panel::pointer::direction(place).into()
}

#[unsafe(no_mangle)]
pub extern "C" fn fivvarul_latest_pos(
    floats: &[f32; FLOATS],
    counts: &[usize; COUNTS],
    flags: &[bool; FLAGS],
) -> HostPosition
    ensures { OfPlace (settled ask.latest_pos) (place_of floats.now counts.now flags.now) (maybe_position (position_of result)) }
{
    let place = host_input::read::place(floats, counts, flags);
    panel::pointer::latest_pos(place).into()
}

#[unsafe(no_mangle)]
pub extern "C" fn fivvarul_hover_pos(
    floats: &[f32; FLOATS],
    counts: &[usize; COUNTS],
    flags: &[bool; FLAGS],
) -> HostPosition
    ensures { OfPlace (settled ask.hover_pos) (place_of floats.now counts.now flags.now) (maybe_position (position_of result)) }
{
    let place = host_input::read::place(floats, counts, flags);
    panel::pointer::hover_pos(place).into()
}

#[unsafe(no_mangle)]
pub extern "C" fn fivvarul_interact_pos(
    floats: &[f32; FLOATS],
    counts: &[usize; COUNTS],
    flags: &[bool; FLAGS],
) -> HostPosition
    ensures { OfPlace (settled ask.interact_pos) (place_of floats.now counts.now flags.now) (maybe_position (position_of result)) }
{
    let place = host_input::read::place(floats, counts, flags);
    panel::pointer::interact_pos(place).into()
}

#[unsafe(no_mangle)]
pub extern "C" fn fivvarul_has_pointer(
    floats: &[f32; FLOATS],
    counts: &[usize; COUNTS],
    flags: &[bool; FLAGS],
) -> bool
    ensures { OfPlace (settled ask.has_pointer) (place_of floats.now counts.now flags.now) (bool result) }
{
    let place = host_input::read::place(floats, counts, flags);
    panel::pointer::has_pointer(place)
}

#[unsafe(no_mangle)]
pub extern "C" fn fivvarul_is_still(
    floats: &[f32; FLOATS],
    counts: &[usize; COUNTS],
    flags: &[bool; FLAGS],
) -> bool
    ensures { OfPlace (settled ask.is_still) (place_of floats.now counts.now flags.now) (bool result) }
{
    let place = host_input::read::place(floats, counts, flags);
    panel::pointer::is_still(place)
}

#[unsafe(no_mangle)]
pub extern "C" fn fivvarul_is_moving(
    floats: &[f32; FLOATS],
    counts: &[usize; COUNTS],
    flags: &[bool; FLAGS],
) -> bool
    ensures { OfPlace (settled ask.is_moving) (place_of floats.now counts.now flags.now) (bool result) }
{
    let place = host_input::read::place(floats, counts, flags);
    panel::pointer::is_moving(place)
}

#[unsafe(no_mangle)]
pub extern "C" fn fivvarul_time_since_last_movement(
    seconds: &[f64; SECONDS],
    floats: &[f32; FLOATS],
    counts: &[usize; COUNTS],
    flags: &[bool; FLAGS],
) -> HostNumber
    ensures { OfLastMove (ask.time_since_last_movement) (pointer_of seconds.now floats.now counts.now flags.now) (clock_of seconds.now floats.now) (maybe_number (number_of result)) }
{
    let pointer = host_input::read::pointer(seconds, floats, counts, flags);
    let clock = host_input::read::clock(seconds, floats);
    panel::pointer::time_since_last_movement(pointer, clock).into()
}

#[unsafe(no_mangle)]
pub extern "C" fn fivvarul_total_drag_delta(
    seconds: &[f64; SECONDS],
    floats: &[f32; FLOATS],
    counts: &[usize; COUNTS],
    flags: &[bool; FLAGS],
) -> HostMaybeVector
    ensures { OfPlaceAndPress (settled ask.total_drag_delta) (pointer_of seconds.now floats.now counts.now flags.now) (maybe_vector (maybe_vector_of result)) }
{
    let pointer = host_input::read::pointer(seconds, floats, counts, flags);
    panel::pointer::total_drag_delta(pointer).into()
}
