// egui's data/input/touch.rs, and the parts of the state of input_state/touch_state.rs.
ghost use Rattle.std.specs.Prelude.{◌≡◌, ◌≤◌};
ghost use Rattle.data.specs.Numbers.{phase_number, pinch_number, rotation_number};

use emath::pos2::Pos2;
use emath::vec2::Vec2;

#[derive(Clone, Copy, PartialEq, Eq)]
pub enum TouchPhase {
    Start,
    Move,
    End,
    Cancel,
}

impl TouchPhase {
    // Its number in the feed.
    // Kept (plain): a method and no bare `as`, so that 01's number and its bound are a contract that callers have; a From's law would say no bound.
    pub fn number(self) -> u32
        ensures { (result ≡ phase_number self) × (result ≤ 3) }
    {
        self as u32
    }
}

// A touch that is held, with its id, which egui keeps as the key of a map.
#[derive(Clone, Copy)]
pub struct ActiveTouch {
    pub id: u64,
    pub pos: Pos2,
    pub force: Option<f32>,
}

#[derive(Clone, Copy, PartialEq, Eq)]
pub enum PinchType {
    Horizontal,
    Vertical,
    Proportional,
}

impl PinchType {
    // Its place in the enum.
    // Kept (plain): a method and no bare `as`, so that the number, which images and traces have, and its bound are a contract that callers have; a From's law would say no bound.
    pub fn number(self) -> u32
        ensures { (result ≡ pinch_number self) × (result ≤ 2) }
    {
        self as u32
    }
}

// The averages of a gesture. `heading` is the average position less that of the first touch: no angle is taken.
#[derive(Clone, Copy)]
pub struct DynGestureState {
    pub avg_distance: f32,
    pub avg_abs_distance2: Vec2,
    pub avg_pos: Pos2,
    pub avg_force: f32,
    pub heading: Vec2,
}

#[derive(Clone, Copy)]
pub struct GestureState {
    pub start_time: f64,
    pub start_pointer_pos: Pos2,
    pub pinch_type: PinchType,
    pub previous: Option<DynGestureState>,
    pub current: DynGestureState,
}

// The rotation of a pass: the sum of the feed's radians, or the previous and the current heading of a gesture.
#[derive(Clone, Copy)]
pub enum Rotation {
    Radians(f32),
    Headings(Vec2, Vec2),
}

impl Rotation {
    // Its place in the enum.
    // Kept (plain): a match, since `as` takes no enum whose cases hold values.
    pub fn number(self) -> u32
        ensures { (result ≡ rotation_number self) × (result ≤ 1) }
    {
        match self {
            Rotation::Radians(_) => 0,
            Rotation::Headings(_, _) => 1,
        }
    }
}

// `previous_heading` and `heading` stand for egui's `rotation_delta`.
#[derive(Clone, Copy)]
pub struct MultiTouchInfo {
    pub start_time: f64,
    pub start_pos: Pos2,
    pub center_pos: Pos2,
    pub num_touches: usize,
    pub zoom_delta: f32,
    pub zoom_delta_2d: Vec2,
    pub previous_heading: Vec2,
    pub heading: Vec2,
    pub translation_delta: Vec2,
    pub force: f32,
}
