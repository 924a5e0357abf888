// egui's data/input/modifiers.rs.
ghost use Rattle.std.specs.Prelude.{◌≡◌, ◌<◌};
ghost use Rattle.data.specs.Modifiers.{no_modifiers, modifiers_or, matches_any, modifiers_number, modifiers_of};

use crate::bits::bit_number;

// State of the modifier keys.
#[derive(Clone, Copy, PartialEq, Eq)]
pub struct Modifiers {
    pub alt: bool,
    pub ctrl: bool,
    pub shift: bool,
    pub mac_cmd: bool,
    pub command: bool,
}

impl Modifiers {
    // egui's Modifiers::NONE.
    // A function and no constant: a constant has no clause.
    #[tactic(auto, unfolding(crate::specs::Modifiers::no_modifiers))]
    pub fn none() -> Modifiers
        ensures { result ≡ no_modifiers }
    {
        Modifiers {
            alt: false,
            ctrl: false,
            shift: false,
            mac_cmd: false,
            command: false,
        }
    }

    #[tactic(auto, unfolding(crate::specs::Modifiers::modifiers_or))]
    pub fn bitor(self, rhs: Modifiers) -> Modifiers
        ensures { result ≡ modifiers_or self rhs }
    {
        Modifiers {
            alt: self.alt | rhs.alt,
            ctrl: self.ctrl | rhs.ctrl,
            shift: self.shift | rhs.shift,
            mac_cmd: self.mac_cmd | rhs.mac_cmd,
            command: self.command | rhs.command,
        }
    }

    #[tactic(auto, unfolding(crate::specs::Modifiers::matches_any))]
    pub fn matches_any(self, pattern: Modifiers) -> bool
        ensures { result ≡ matches_any self pattern }
    {
        let command = (self.mac_cmd | (self.command | self.ctrl)) & pattern.command;
        let mac_cmd = self.mac_cmd & pattern.mac_cmd;
        let ctrl = self.ctrl & pattern.ctrl;
        let shift = self.shift & pattern.shift;
        let alt = self.alt & pattern.alt;
        alt | (shift | (ctrl | (mac_cmd | command)))
    }

    // 01's flags: bit 0 alt, 1 ctrl, 2 shift, 3 mac_cmd, 4 command.
    // Kept (plain): no From, since a u32 made of it says nothing of 01's bits, and `of` takes five bits of a word that holds more.
    #[tactic(auto, unfolding(crate::specs::Modifiers::modifiers_number))]
    pub fn number(self) -> u32
        ensures { (result ≡ modifiers_number self) × (result < 32) }
    {
        let alt = bit_number(self.alt);
        let ctrl = bit_number(self.ctrl);
        let shift = bit_number(self.shift);
        let mac_cmd = bit_number(self.mac_cmd);
        let command = bit_number(self.command);
        alt + 2 * ctrl + 4 * shift + 8 * mac_cmd + 16 * command
    }

    // The flags in the low five bits of `w`.
    // Kept (plain): no From, since the other bits of the word are another field's and not looked at.
    #[tactic(auto, unfolding(crate::specs::Modifiers::modifiers_of))]
    pub fn of(w: u32) -> Modifiers
        ensures { result ≡ modifiers_of w }
    {
        Modifiers {
            alt: w / 1 % 2 == 1,
            ctrl: w / 2 % 2 == 1,
            shift: w / 4 % 2 == 1,
            mac_cmd: w / 8 % 2 == 1,
            command: w / 16 % 2 == 1,
        }
    }
}
