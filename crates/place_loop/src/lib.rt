// Where the pointer is after a pass's events: its loop along the feed.
#![tactic(auto)]

ghost use Rattle.std.specs.Prelude.{◌≡◌, [], ◌∷◌};
ghost use Rattle.model.specs.Pointer.{place_event, place_events, clear_history_after};
ghost use Rattle.event_loop.specs.Shaped.{shaped_at};
ghost use Rattle.event_loop.specs.Lists.{listed_events};
ghost use Rattle.pointer_place.specs.View.{Placed};
ghost use Rattle.place_loop.specs.Passed.{PlacePassed};

use data::event::Event;
use data::kinds::{BUTTON_KIND, GONE_KIND, MOTION_KIND, MOVED_KIND};
use emath_history::history::{MAX_LEN, PARTS};
use event_loop::kind_at;
use event_readers::readers::{button_at, motion_at, moved_at};
use pointer_place::{
    Place, button_place, end_place, gone_place, motion_place, moved_place, start_place,
};

// Moves, motion, buttons and the pointer gone are read, and each goes straight to its step.
fn place_at(p: Place, feed: &[u32], at: usize) -> Place
    ensures { Placed (place_event (shaped_at feed.now at)) p result }
{
    match kind_at(feed, at) {
        MOVED_KIND => {
            let Event::PointerMoved(pos) = moved_at(feed, at) else {
                return p;
            };
            moved_place(p, pos)
        }
        MOTION_KIND => {
            let Event::MouseMoved(delta) = motion_at(feed, at) else {
                return p;
            };
            motion_place(p, delta)
        }
        BUTTON_KIND => {
            let Event::PointerButton(pos, _, pressed, _) = button_at(feed, at) else {
                return p;
            };
            button_place(p, pos, pressed)
        }
        GONE_KIND => {
            let Event::PointerGone = event_readers::readers::gone_at(feed, at) else {
                return p;
            };
            gone_place(p)
        }
        _ => p,
    }
}

fn place_events(p: Place, feed: &[u32], places: &[u16]) -> Place
    ensures { Placed (place_events (listed_events feed.now places.now)) p result }
{
    let mut s = p;
    for at in places {
        s = place_at(s, feed, *at as usize);
    }
    s
}

// Is the pointer gone at this place?
fn gone_at(feed: &[u32], at: usize) -> bool
    ensures { result ≡ clear_history_after (shaped_at feed.now at ∷ []) }
{
    if kind_at(feed, at) == GONE_KIND {
        let Event::PointerGone = event_readers::readers::gone_at(feed, at) else {
            return false;
        };
        return true;
    }
    false
}

fn gone(feed: &[u32], places: &[u16]) -> bool
    ensures { result ≡ clear_history_after (listed_events feed.now places.now) }
{
    for at in places {
        if gone_at(feed, *at as usize) {
            return true;
        }
    }
    false
}

// The pointer's place after a pass, of the events at some places.
// Kept (plain): lent one by one: of a struct that holds a `&mut` each clause would have to say what stands behind it afterwards.
pub fn place_pass(
    p: Place,
    times: &mut [f64; MAX_LEN],
    positions: &mut [f32; PARTS],
    time: f64,
    feed: &[u32],
    places: &[u16],
) -> Place
    ensures { PlacePassed
        time (listed_events feed.now places.now)
        times.old positions.old p times.new positions.new result }
{
    let started = start_place(p);
    let moved = place_events(started, feed, places);
    let is_gone = gone(feed, places);
    end_place(moved, times, positions, time, p.latest_pos, is_gone)
}
