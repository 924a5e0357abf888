// egui's data/input/pointer_button.rs, and the pointer's events of input_state/mod.rs.
ghost use Rattle.std.specs.Prelude.{◌≡◌, ◌≤◌};
ghost use Rattle.data.specs.Numbers.{button_number, pointer_event_number};

use crate::modifiers::Modifiers;
use emath::pos2::Pos2;

#[derive(Clone, Copy, PartialEq, Eq)]
pub enum PointerButton {
    Primary,
    Secondary,
    Middle,
    Extra1,
    Extra2,
}

impl PointerButton {
    // Its number in the feed.
    // Kept (plain): a method and no bare `as`, so that 01's number and its bound are a contract that callers have; a From's law would say no bound.
    pub fn number(self) -> u32
        ensures { (result ≡ button_number self) × (result ≤ 4) }
    {
        self as u32
    }
}

// Which buttons are down, and how many.
// Kept (02): A.7 asks for the number of buttons down beside the flags, so that no question counts them.
#[derive(Clone, Copy)]
pub struct ButtonsDown {
    pub primary: bool,
    pub secondary: bool,
    pub middle: bool,
    pub extra1: bool,
    pub extra2: bool,
    pub count: u8,
}

// `count` is 1, 2 (double click) or 3 (triple click): no length of an array.
#[derive(Clone, Copy)]
pub struct Click {
    pub pos: Pos2,
    pub count: u32,
    pub modifiers: Modifiers,
}

#[derive(Clone, Copy)]
pub enum PointerEvent {
    Moved(Pos2),
    Pressed(Pos2, PointerButton),
    Released(Option<Click>, PointerButton),
}

impl PointerEvent {
    // Its place in the enum.
    // Kept (plain): a match, since `as` takes no enum whose cases hold values.
    pub fn number(self) -> u32
        ensures { (result ≡ pointer_event_number self) × (result ≤ 2) }
    {
        match self {
            PointerEvent::Moved(_) => 0,
            PointerEvent::Pressed(_, _) => 1,
            PointerEvent::Released(_, _) => 2,
        }
    }
}
