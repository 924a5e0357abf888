// An event's words, by their kind.
// Kept (01): "The decoder matches the kind number over 0 to 15".
ghost use Rattle.std.specs.Prelude.{◌≡◌, suc, ◌+◌, ◌<◌, get_or, length, drop};
ghost use Rattle.feed.specs.Split.{kind, low_bits, following};
ghost use Rattle.feed.specs.Shape.{shape_by_kind};

use data::event::Event;
use data::kinds::{
    BUTTON_KIND, FOCUS_KIND, GONE_KIND, KEY_KIND, KIND_UNIT, MODIFIERS_KIND, MOTION_KIND,
    MOVED_KIND, OTHER_KIND, ROTATE_KIND, TOUCH_KIND, WHEEL_KIND, ZOOM_KIND,
};
use feed_shape::shape::{
    bare, button_shape, focus_shape, key_shape, modifiers_shape, motion_shape, moved_shape,
    rotate_shape, touch_shape, wheel_shape, zoom_shape,
};

// The event at `at`, whose words are all there.
#[tactic(auto, using(crate::proofs::ByKind::as_0, crate::proofs::ByKind::as_1, crate::proofs::ByKind::as_2, crate::proofs::ByKind::as_3, crate::proofs::ByKind::as_4, crate::proofs::ByKind::as_5, crate::proofs::ByKind::as_6, crate::proofs::ByKind::as_7, crate::proofs::ByKind::as_8, crate::proofs::ByKind::as_9, crate::proofs::ByKind::as_10, crate::proofs::ByKind::as_11, crate::proofs::ByKind::as_12, crate::proofs::ByKind::unknown, feed::proofs::Lengths::length_least, feed::proofs::Lengths::touch_following))]
pub fn shape_at(feed: &[u32], at: usize) -> Option<Event>
    requires { at + following (get_or feed.now at 0) < length feed.now }
    ensures { result ≡ shape_by_kind (kind (get_or feed.now at 0)) (low_bits (get_or feed.now at 0)) (drop (suc at) feed.now) }
{
    let head = feed[at];
    let low = head % KIND_UNIT;
    match head / KIND_UNIT {
        0 => None,
        KEY_KIND => key_shape(low),
        MODIFIERS_KIND => modifiers_shape(low),
        MOVED_KIND => moved_shape(low, feed[at + 1], feed[at + 2]),
        MOTION_KIND => motion_shape(low, feed[at + 1], feed[at + 2]),
        BUTTON_KIND => button_shape(low, feed[at + 1], feed[at + 2]),
        GONE_KIND => bare(low, Event::PointerGone),
        ZOOM_KIND => zoom_shape(low, feed[at + 1]),
        ROTATE_KIND => rotate_shape(low, feed[at + 1]),
        TOUCH_KIND => touch_shape(feed, at, low),
        WHEEL_KIND => wheel_shape(low, feed[at + 1], feed[at + 2]),
        FOCUS_KIND => focus_shape(low),
        OTHER_KIND => bare(low, Event::Other),
        13..=15 => None,
        // four bits: there is no more
        _ => None,
    }
}
