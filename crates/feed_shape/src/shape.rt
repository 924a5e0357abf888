// The event that an event's words say, or none: kind, fields and stray bits, whatever the floats are.
// `low` is the first word's low 28 bits.
ghost use Rattle.std.specs.Prelude.{◌≡◌, suc, ◌+◌, ◌/◌, ◌%◌, ◌<◌, length, drop, Some};
ghost use Rattle.feed.specs.Shape.{clean, key_shape, modifiers_shape, moved_shape, motion_shape, button_shape, zoom_shape, rotate_shape, touch_shape, wheel_shape, focus_shape};

use data::event::Event;
use data::limits::{BUTTON_COUNT, KEY_COUNT, UNIT_COUNT};
use data::modifiers::Modifiers;
use feed::fields::{button_of, float_of, id_of, phase_of, pos_of, source_of, unit_of, vec_of};

// An event with no field: no bit is set.
#[tactic(auto, using(crate::proofs::Kept::kept), unfolding(feed::specs::Shape::clean))]
pub fn bare(low: u32, e: Event) -> Option<Event>
    ensures { result ≡ clean 1 low (Some e) }
{
    (low < 1).then_some(e)
}

#[tactic(auto, using(crate::proofs::Kept::kept), unfolding(feed::specs::Shape::key_shape, feed::specs::Shape::clean, feed::specs::Shape::field_below))]
pub fn key_shape(low: u32) -> Option<Event>
    ensures { result ≡ key_shape low }
{
    let place = low % 256;
    if low >= 512 {
        return None;
    }
    (place < KEY_COUNT).then_some(Event::Key(place, low / 256 % 2 == 1))
}

#[tactic(auto, using(crate::proofs::Kept::kept), unfolding(feed::specs::Shape::modifiers_shape, feed::specs::Shape::clean))]
pub fn modifiers_shape(low: u32) -> Option<Event>
    ensures { result ≡ modifiers_shape low }
{
    (low < 32).then_some(Event::ModifiersChanged(Modifiers::of(low)))
}

#[tactic(auto, unfolding(feed::specs::Shape::moved_shape))]
pub fn moved_shape(low: u32, x: u32, y: u32) -> Option<Event>
    ensures { result ≡ moved_shape low x y }
{
    bare(low, Event::PointerMoved(pos_of(x, y)))
}

#[tactic(auto, unfolding(feed::specs::Shape::motion_shape))]
pub fn motion_shape(low: u32, x: u32, y: u32) -> Option<Event>
    ensures { result ≡ motion_shape low x y }
{
    bare(low, Event::MouseMoved(vec_of(x, y)))
}

// Kept (plain): what it shares with `wheel_shape` is the test of two limits, no more.
#[tactic(auto, unfolding(feed::specs::Shape::button_shape, feed::specs::Shape::clean, feed::specs::Shape::field_below))]
pub fn button_shape(low: u32, x: u32, y: u32) -> Option<Event>
    ensures { result ≡ button_shape low x y }
{
    let number = low / 32 % 8;
    if low >= 512 || number >= BUTTON_COUNT {
        return None;
    }
    let pressed = low / 256 % 2 == 1;
    Some(Event::PointerButton(pos_of(x, y), button_of(number), pressed, Modifiers::of(low)))
}

#[tactic(auto, unfolding(feed::specs::Shape::zoom_shape))]
pub fn zoom_shape(low: u32, x: u32) -> Option<Event>
    ensures { result ≡ zoom_shape low x }
{
    bare(low, Event::Zoom(float_of(x)))
}

#[tactic(auto, unfolding(feed::specs::Shape::rotate_shape))]
pub fn rotate_shape(low: u32, x: u32) -> Option<Event>
    ensures { result ≡ rotate_shape low x }
{
    bare(low, Event::Rotate(float_of(x)))
}

// The words after the first are those after `at`; there is one more with force.
#[tactic(auto, using(feed::proofs::Words::word_after), unfolding(feed::specs::Shape::touch_shape, feed::specs::Shape::clean, feed::specs::Shape::force_of))]
pub fn touch_shape(feed: &[u32], at: usize, low: u32) -> Option<Event>
    requires { at + 6 + low / 4 % 2 < length feed.now }
    ensures { result ≡ touch_shape low (drop (suc at) feed.now) }
{
    if low >= 8 {
        return None;
    }
    let device = id_of(feed[at + 1], feed[at + 2]);
    let id = id_of(feed[at + 3], feed[at + 4]);
    let phase = phase_of(low % 4);
    let pos = pos_of(feed[at + 5], feed[at + 6]);
    if low / 4 % 2 == 1 {
        let force = float_of(feed[at + 7]);
        return Some(Event::Touch(device, id, phase, pos, Some(force)));
    }
    Some(Event::Touch(device, id, phase, pos, None))
}

// Kept (plain): as `button_shape`.
#[tactic(auto, unfolding(feed::specs::Shape::wheel_shape, feed::specs::Shape::clean, feed::specs::Shape::field_below))]
pub fn wheel_shape(low: u32, x: u32, y: u32) -> Option<Event>
    ensures { result ≡ wheel_shape low x y }
{
    let number = low / 32 % 4;
    if low >= 2048 || number >= UNIT_COUNT {
        return None;
    }
    let unit = unit_of(number);
    let delta = vec_of(x, y);
    let phase = phase_of(low / 128 % 4);
    let source = source_of(low / 512 % 4);
    let modifiers = Modifiers::of(low);
    Some(Event::MouseWheel(unit, delta, phase, source, modifiers))
}

#[tactic(auto, using(crate::proofs::Kept::kept), unfolding(feed::specs::Shape::focus_shape, feed::specs::Shape::clean))]
pub fn focus_shape(low: u32) -> Option<Event>
    ensures { result ≡ focus_shape low }
{
    (low < 2).then_some(Event::WindowFocused(low / 1 % 2 == 1))
}
