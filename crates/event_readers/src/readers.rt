// The event at a place whose kind the caller has found, without a choice among all kinds.
// Kept (plain): a reader is one line, how many words follow the first and the shape that they have; each promises it of its own kind alone.
ghost use Rattle.std.specs.Prelude.{◌≡◌, ◌+◌, ◌<◌, ◌≤◌, length, get_or, MatchOption};
ghost use Rattle.data.specs.Kinds.{key_kind, modifiers_kind, moved_kind, motion_kind, button_kind, gone_kind, zoom_kind, rotate_kind, touch_kind, wheel_kind, focus_kind};
ghost use Rattle.feed.specs.Split.{kind, low_bits};
ghost use Rattle.event_loop.specs.Shaped.{shaped_at};

use data::event::Event;
use data::kinds::KIND_UNIT;
use feed_shape::shape::{
    bare, button_shape, focus_shape, key_shape, modifiers_shape, motion_shape, moved_shape,
    rotate_shape, touch_shape, wheel_shape, zoom_shape,
};

// The low bits of the event at `at`, if `more` words stand after its first.
fn low_bits(feed: &[u32], at: usize, more: usize) -> Option<u32>
    ensures { MatchOption result (length feed.now ≤ at + more) (λ low. (at + more < length feed.now) × (low ≡ low_bits (get_or feed.now at 0))) }
{
    if at < feed.len() && more < feed.len() - at {
        return Some(feed[at] % KIND_UNIT);
    }
    None
}

pub fn key_at(feed: &[u32], at: usize) -> Event
    requires { kind (get_or feed.now at 0) ≡ key_kind }
    ensures { result ≡ shaped_at feed.now at }
{
    low_bits(feed, at, 0)
        .and_then(key_shape)
        .unwrap_or(Event::Other)
}

pub fn modifiers_at(feed: &[u32], at: usize) -> Event
    requires { kind (get_or feed.now at 0) ≡ modifiers_kind }
    ensures { result ≡ shaped_at feed.now at }
{
    low_bits(feed, at, 0)
        .and_then(modifiers_shape)
        .unwrap_or(Event::Other)
}

pub fn moved_at(feed: &[u32], at: usize) -> Event
    requires { kind (get_or feed.now at 0) ≡ moved_kind }
    ensures { result ≡ shaped_at feed.now at }
{
    low_bits(feed, at, 2)
        .and_then(|low| moved_shape(low, feed[at + 1], feed[at + 2]))
        .unwrap_or(Event::Other)
}

pub fn motion_at(feed: &[u32], at: usize) -> Event
    requires { kind (get_or feed.now at 0) ≡ motion_kind }
    ensures { result ≡ shaped_at feed.now at }
{
    low_bits(feed, at, 2)
        .and_then(|low| motion_shape(low, feed[at + 1], feed[at + 2]))
        .unwrap_or(Event::Other)
}

pub fn button_at(feed: &[u32], at: usize) -> Event
    requires { kind (get_or feed.now at 0) ≡ button_kind }
    ensures { result ≡ shaped_at feed.now at }
{
    low_bits(feed, at, 2)
        .and_then(|low| button_shape(low, feed[at + 1], feed[at + 2]))
        .unwrap_or(Event::Other)
}

pub fn gone_at(feed: &[u32], at: usize) -> Event
    requires { kind (get_or feed.now at 0) ≡ gone_kind }
    ensures { result ≡ shaped_at feed.now at }
{
    low_bits(feed, at, 0)
        .and_then(|low| bare(low, Event::PointerGone))
        .unwrap_or(Event::Other)
}

pub fn zoom_at(feed: &[u32], at: usize) -> Event
    requires { kind (get_or feed.now at 0) ≡ zoom_kind }
    ensures { result ≡ shaped_at feed.now at }
{
    low_bits(feed, at, 1)
        .and_then(|low| zoom_shape(low, feed[at + 1]))
        .unwrap_or(Event::Other)
}

pub fn rotate_at(feed: &[u32], at: usize) -> Event
    requires { kind (get_or feed.now at 0) ≡ rotate_kind }
    ensures { result ≡ shaped_at feed.now at }
{
    low_bits(feed, at, 1)
        .and_then(|low| rotate_shape(low, feed[at + 1]))
        .unwrap_or(Event::Other)
}

// Its first word says whether a force is there, and so how many words it has.
pub fn touch_at(feed: &[u32], at: usize) -> Event
    requires { kind (get_or feed.now at 0) ≡ touch_kind }
    ensures { result ≡ shaped_at feed.now at }
{
    if at < feed.len() {
        let n = 6 + (feed[at] / 4 % 2) as usize;
        if n < feed.len() - at {
            return touch_shape(feed, at, feed[at] % KIND_UNIT).unwrap_or(Event::Other);
        }
    }
    Event::Other
}

pub fn wheel_at(feed: &[u32], at: usize) -> Event
    requires { kind (get_or feed.now at 0) ≡ wheel_kind }
    ensures { result ≡ shaped_at feed.now at }
{
    low_bits(feed, at, 2)
        .and_then(|low| wheel_shape(low, feed[at + 1], feed[at + 2]))
        .unwrap_or(Event::Other)
}

pub fn focus_at(feed: &[u32], at: usize) -> Event
    requires { kind (get_or feed.now at 0) ≡ focus_kind }
    ensures { result ≡ shaped_at feed.now at }
{
    low_bits(feed, at, 0)
        .and_then(focus_shape)
        .unwrap_or(Event::Other)
}
