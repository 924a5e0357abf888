// egui's data/input/mouse_wheel_unit.rs and mouse_wheel_source.rs, and the state of input_state/wheel_state.rs.
// Kept (plain): `number` is a method and no bare `as`, so that the number, which feeds, images and traces have, and its bound are a contract that
// callers have; a From's law would say no bound, and a trait over these enums would repeat both at each.
ghost use Rattle.std.specs.Prelude.{◌≡◌, ◌≤◌};
ghost use Rattle.data.specs.Numbers.{unit_number, source_number, status_number};

use crate::modifiers::Modifiers;
use emath::vec2::Vec2;

#[derive(Clone, Copy, PartialEq, Eq)]
pub enum MouseWheelUnit {
    Point,
    Line,
    Page,
}

impl MouseWheelUnit {
    // Its number in the feed.
    pub fn number(self) -> u32
        ensures { (result ≡ unit_number self) × (result ≤ 2) }
    {
        self as u32
    }
}

#[derive(Clone, Copy, PartialEq, Eq)]
pub enum MouseWheelSource {
    Unknown,
    Wheel,
    Trackpad,
    Momentum,
}

impl MouseWheelSource {
    // Its number in the feed.
    pub fn number(self) -> u32
        ensures { (result ≡ source_number self) × (result ≤ 3) }
    {
        self as u32
    }
}

#[derive(Clone, Copy, PartialEq, Eq)]
pub enum Status {
    Static,
    Smoothing,
    InTouch,
}

impl Status {
    // Its place in the enum.
    pub fn number(self) -> u32
        ensures { (result ≡ status_number self) × (result ≤ 2) }
    {
        self as u32
    }
}

#[derive(Clone, Copy)]
pub struct WheelState {
    pub status: Status,
    pub source: MouseWheelSource,
    pub modifiers: Modifiers,
    pub last_wheel_event: f64,
    pub unprocessed_wheel_delta: Vec2,
    pub smooth_wheel_delta: Vec2,
}
