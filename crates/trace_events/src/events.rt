// The events of a feed, each in a line of its own.
ghost use Rattle.std.specs.Prelude.{◌<◌, length};

use crate::fields::{Flags, Float, Held, PHASES, SOURCES, UNITS, pressed, two_floats};
use data::kinds::{
    BUTTON_KIND, FOCUS_KIND, GONE_KIND, KEY_KIND, KIND_UNIT, MODIFIERS_KIND, MOTION_KIND,
    MOVED_KIND, ROTATE_KIND, TOUCH_KIND, WHEEL_KIND, ZOOM_KIND,
};
use feed::split::following;
use std::fmt;
use std::fmt::Write;
use trace_output::output::Output;
use trace_words::request::{at, bit, id};

fn key(out: &mut Output, low: u32) -> fmt::Result {
    write!(out, "key {} {}", low % 256, pressed(bit(low, 256)))
}

fn modifiers(out: &mut Output, low: u32) -> fmt::Result {
    if low % 32 == 0 {
        return out.write_str("modifiers none");
    }
    write!(out, "modifiers{}", Flags(low))
}

fn button(out: &mut Output, low: u32, e: &[u32]) -> fmt::Result {
    let number = low / 32 % 8;
    let pressed = pressed(bit(low, 256));
    write!(
        out,
        "button {number} {pressed} at {}{}",
        two_floats(e, 1),
        Held(low)
    )
}

// Device, touch id, position and, where it is present, force.
fn touch(out: &mut Output, low: u32, e: &[u32]) -> fmt::Result {
    let phase = PHASES[(low % 4) as usize];
    let device = id(e, 1, 2);
    let touch = id(e, 3, 4);
    write!(
        out,
        "touch {phase}, device {device} touch {touch} at {}",
        two_floats(e, 5)
    )?;
    if bit(low, 4) {
        write!(out, ", force {}", Float(at(e, 7)))?;
    }
    Ok(())
}

fn wheel(out: &mut Output, low: u32, e: &[u32]) -> fmt::Result {
    let phase = PHASES[(low / 128 % 4) as usize];
    let unit = UNITS[(low / 32 % 4) as usize];
    let source = SOURCES[(low / 512 % 4) as usize];
    write!(
        out,
        "wheel {phase} by {} {unit}, source {source}{}",
        two_floats(e, 1),
        Held(low)
    )
}

fn focus(out: &mut Output, low: u32) -> fmt::Result {
    if bit(low, 1) {
        return out.write_str("focus gained");
    }
    out.write_str("focus lost")
}

// The event whose words `e` starts with.
// Kept (plain): refused feeds are read here too, and of those the decoder gives no Event.
fn event(out: &mut Output, e: &[u32]) -> fmt::Result {
    let head = at(e, 0);
    let low = head % KIND_UNIT;
    match head / KIND_UNIT {
        KEY_KIND => key(out, low),
        MODIFIERS_KIND => modifiers(out, low),
        MOVED_KIND => write!(out, "pointer moved to {}", two_floats(e, 1)),
        MOTION_KIND => write!(out, "motion by {}", two_floats(e, 1)),
        BUTTON_KIND => button(out, low, e),
        GONE_KIND => out.write_str("pointer gone"),
        ZOOM_KIND => write!(out, "zoom by {}", Float(at(e, 1))),
        ROTATE_KIND => write!(out, "rotate by {}", Float(at(e, 1))),
        TOUCH_KIND => touch(out, low, e),
        WHEEL_KIND => wheel(out, low, e),
        FOCUS_KIND => focus(out, low),
        _ => out.write_str("another event"),
    }
}

// The place after the event at `from`; the end, where it is cut short.
fn next_place(feed: &[u32], from: usize) -> usize
    requires { from < length feed.now }
    ensures { from < result }
{
    let n = following(feed[from]);
    if n < feed.len() - from {
        return from + (n + 1);
    }
    feed.len()
}

// What `step` makes of one event after the other; it is given the words from the event's first on.
// Kept (plain): a loop: how long an event is stands in its first word, so the feed is no row of equal chunks.
pub(crate) fn fold_events<T: Drop, F: FnMut(T, &[u32]) -> T>(
    feed: &[u32],
    start: T,
    mut step: F,
) -> T
    requires { F.IsAlwaysCallable step }
{
    let mut value = start;
    let mut from: usize = 0;
    while from < feed.len() {
        value = step(value, &feed[from..]);
        from = next_place(feed, from);
    }
    value
}

// How many events the feed has.
pub fn event_count(feed: &[u32]) -> u64 {
    fold_events(feed, 0u64, |events, _| events.wrapping_add(1))
}

fn event_line(out: &mut Output, e: &[u32]) -> fmt::Result {
    out.write_str("\n                          ")?;
    event(out, e)
}

// A line below for each event.
pub fn events(out: &mut Output, feed: &[u32]) -> fmt::Result {
    fold_events(feed, Ok(()), |done, e| {
        done?;
        event_line(out, e)
    })
}
