// The values of kernel records.
#![tactic(auto)]

ghost use Rattle.std.specs.Prelude.{◌≡◌};
ghost use Rattle.std.specs.Float.Ieee.{of_int};
ghost use Rattle.std.specs.Float.{binary32};
ghost use Rattle.kernel_values.specs.Value.{slot_ok, position_ok, tracking_id_ok, is_finger};

use std::num::nearest_i32_to_f32;

// Slots 0 to 9.
pub const MAX_SLOTS: usize = 10;

// The greatest size of a position.
pub const MAX_POSITION: u32 = 65536;

#[tactic(auto, unfolding(crate::specs::Value::slot_ok))]
pub fn slot_ok(v: i32) -> bool
    ensures { result ≡ slot_ok v }
{
    let slot = v.unsigned_abs() as usize;
    v >= 0 && slot < MAX_SLOTS
}

#[tactic(auto, unfolding(crate::specs::Value::position_ok))]
pub fn position_ok(v: i32) -> bool
    ensures { result ≡ position_ok v }
{
    v.unsigned_abs() <= MAX_POSITION
}

#[tactic(auto, unfolding(crate::specs::Value::tracking_id_ok))]
pub fn tracking_id_ok(v: i32) -> bool
    ensures { result ≡ tracking_id_ok v }
{
    v >= -1
}

#[tactic(auto, unfolding(crate::specs::Value::is_finger))]
pub fn is_finger(id: i32) -> bool
    ensures { result ≡ is_finger id }
{
    id >= 0
}

// A position as a float: exact, and the domain's, where it is a good one.
pub fn coordinate(v: i32) -> f32
    ensures { result ≡ of_int binary32 v }
{
    nearest_i32_to_f32(v)
}
