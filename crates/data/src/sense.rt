// egui's sense.rs, on the number of its bits.
// Kept (01): functions of a number, since a bit that sense.rs doesn't name can be given, and is refused.
ghost use Rattle.std.specs.Prelude.{◌≡◌};
ghost use Rattle.data.specs.Sense.{sense_ok, senses_click, senses_drag, is_focusable, interactive, sense_or};

use crate::bits::bit_number;

pub const HOVER: u32 = 0;

pub const CLICK: u32 = 1;

pub const DRAG: u32 = 2;

pub const FOCUSABLE: u32 = 4;

// No bit but the three named ones.
#[tactic(auto, unfolding(crate::specs::Sense::sense_ok))]
pub fn sense_ok(s: u32) -> bool
    ensures { result ≡ sense_ok s }
{
    s < 8
}

#[tactic(auto, unfolding(crate::specs::Sense::senses_click))]
pub fn senses_click(s: u32) -> bool
    ensures { result ≡ senses_click s }
{
    s / CLICK % 2 == 1
}

#[tactic(auto, unfolding(crate::specs::Sense::senses_drag))]
pub fn senses_drag(s: u32) -> bool
    ensures { result ≡ senses_drag s }
{
    s / DRAG % 2 == 1
}

#[tactic(auto, unfolding(crate::specs::Sense::is_focusable))]
pub fn is_focusable(s: u32) -> bool
    ensures { result ≡ is_focusable s }
{
    s / FOCUSABLE % 2 == 1
}

#[tactic(auto, unfolding(crate::specs::Sense::interactive))]
pub fn interactive(s: u32) -> bool
    ensures { result ≡ interactive s }
{
    senses_click(s) | senses_drag(s)
}

// The union of the named bits.
#[tactic(auto, unfolding(crate::specs::Sense::sense_or))]
pub fn bitor(s: u32, t: u32) -> u32
    ensures { result ≡ sense_or s t }
{
    let click = senses_click(s) | senses_click(t);
    let drag = senses_drag(s) | senses_drag(t);
    let focusable = is_focusable(s) | is_focusable(t);
    bit_number(click) + DRAG * bit_number(drag) + FOCUSABLE * bit_number(focusable)
}
