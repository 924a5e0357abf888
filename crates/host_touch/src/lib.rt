// A touch device as the host's memory holds it: three arrays of plain numbers, and the time at which its gesture started, which stands beside.
// Any contents mean some device.
#![tactic(auto)]

ghost use Rattle.std.specs.Prelude.{◌≡◌, ◌+◌, ◌<◌};
ghost use Rattle.data.specs.Limits.{max_touches};
ghost use Rattle.host_touch.specs.Device.{float_count, touch_at, touches_of, state_at, gesture_of, device_of};

use data::limits::MAX_TOUCHES;
use data::touch::{ActiveTouch, DynGestureState, GestureState};
use emath::pos2::Pos2;
use emath::vec2::Vec2;
use host_values::pinch;
use touch_device::Device;
use touches::Touches;

pub mod all;
pub mod kept;

// ---- `ids`: the device's id, the count of its touches, the id of each
const ID: usize = 0;

const TOUCH_COUNT: usize = 1;

const TOUCH_IDS: usize = 2;

pub const IDS: usize = TOUCH_IDS + MAX_TOUCHES;

// ---- `floats`: x, y and force of each touch; where the gesture started; its current and its previous state, of eight places each
const TOUCH_FLOATS: usize = 3;

const START: usize = TOUCH_FLOATS * MAX_TOUCHES;

const START_Y: usize = START + 1;

const CURRENT: usize = START + 2;

const PREVIOUS: usize = CURRENT + 8;

pub const FLOATS: usize = PREVIOUS + 8;

// ---- `flags`: whether each touch has a force; whether there is a gesture, and a previous state of it; its pinch
const HAS_GESTURE: usize = MAX_TOUCHES;

const HAS_PREVIOUS: usize = HAS_GESTURE + 1;

const IS_HORIZONTAL: usize = HAS_PREVIOUS + 1;

const IS_VERTICAL: usize = IS_HORIZONTAL + 1;

pub const FLAGS: usize = IS_VERTICAL + 1;

// ---- read

// Touch `i`.
fn touch_at(
    ids: &[u64; IDS],
    floats: &[f32; FLOATS],
    flags: &[bool; FLAGS],
    i: usize,
) -> ActiveTouch
    requires { i < max_touches }
    ensures { result ≡ touch_at ids.now floats.now flags.now i }
{
    let at = TOUCH_FLOATS * i;
    ActiveTouch {
        id: ids[TOUCH_IDS + i],
        pos: Pos2 {
            x: floats[at],
            y: floats[at + 1],
        },
        force: flags[i].then_some(floats[at + 2]),
    }
}

fn touches_held(ids: &[u64; IDS], floats: &[f32; FLOATS], flags: &[bool; FLAGS]) -> Touches
    ensures { result ≡ touches_of ids.now floats.now flags.now }
{
    let first = touch_at(ids, floats, flags, 0);
    let mut places = [first; MAX_TOUCHES];
    for i in 1..MAX_TOUCHES {
        places[i] = touch_at(ids, floats, flags, i);
    }
    Touches {
        count: ids[TOUCH_COUNT] as usize,
        places,
    }
}

// A gesture's state, from place `at` on.
fn state_at(floats: &[f32; FLOATS], at: usize) -> DynGestureState
    requires { at + 7 < float_count }
    ensures { result ≡ state_at floats.now at }
{
    DynGestureState {
        avg_distance: floats[at],
        avg_abs_distance2: Vec2 {
            x: floats[at + 1],
            y: floats[at + 2],
        },
        avg_pos: Pos2 {
            x: floats[at + 3],
            y: floats[at + 4],
        },
        avg_force: floats[at + 5],
        heading: Vec2 {
            x: floats[at + 6],
            y: floats[at + 7],
        },
    }
}

fn gesture(floats: &[f32; FLOATS], flags: &[bool; FLAGS], start_time: f64) -> Option<GestureState>
    ensures { result ≡ gesture_of floats.now flags.now start_time }
{
    let g = GestureState {
        start_time,
        start_pointer_pos: Pos2 {
            x: floats[START],
            y: floats[START_Y],
        },
        pinch_type: pinch(flags[IS_HORIZONTAL], flags[IS_VERTICAL]),
        previous: flags[HAS_PREVIOUS].then_some(state_at(floats, PREVIOUS)),
        current: state_at(floats, CURRENT),
    };
    flags[HAS_GESTURE].then_some(g)
}

pub fn device(
    ids: &[u64; IDS],
    floats: &[f32; FLOATS],
    flags: &[bool; FLAGS],
    start_time: f64,
) -> Device
    ensures { result ≡ device_of ids.now floats.now flags.now start_time }
{
    Device {
        id: ids[ID],
        touches: touches_held(ids, floats, flags),
        gesture_state: gesture(floats, flags, start_time),
    }
}
