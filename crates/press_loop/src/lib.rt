// Buttons, presses and clicks of a pass's events: their loop along the feed.
#![tactic(auto)]

ghost use Rattle.event_loop.specs.Shaped.{shaped_at};
ghost use Rattle.event_loop.specs.Lists.{listed, listed_events, pointer_list};
ghost use Rattle.pointer_state.specs.View.{Stepped};
ghost use Rattle.press_loop.specs.Passed.{PressPassed};

use data::event::Event;
use data::kinds::{BUTTON_KIND, MOVED_KIND};
use data::options::InputOptions;
use event_loop::kind_at;
use event_loop::lists::{Lists, Reader};
use event_readers::readers::{button_at, moved_at};
use pointer_clicks::clear_events;
use pointer_events::{CODES, PLACES};
use pointer_state::press::{Press, button_event, moved};

// Of the pointer's kinds moves and buttons are read, and each goes straight to its step.
// Kept (plain): lent one by one: of a struct that holds a `&mut` each clause would have to say what stands behind it afterwards.
fn press_at(
    s: Press,
    codes: &mut [u32; CODES],
    positions: &mut [f32; PLACES],
    options: InputOptions,
    time: f64,
    feed: &[u32],
    at: usize,
) -> Press
    ensures { Stepped
        options time (shaped_at feed.now at)
        codes.old positions.old s codes.new positions.new result }
{
    let kind = kind_at(feed, at);
    if kind == MOVED_KIND {
        let e = moved_at(feed, at);
        let Event::PointerMoved(pos) = e else {
            return s;
        };
        return moved(s, codes, positions, options, pos);
    }
    if kind == BUTTON_KIND {
        let e = button_at(feed, at);
        let Event::PointerButton(pos, button, is_pressed, modifiers) = e else {
            return s;
        };
        return button_event(
            s, codes, positions, options, time, pos, button, is_pressed, modifiers,
        );
    }
    s
}

// The presses' part of a pass, of the events in the pointer's list.
// Kept (plain): lent one by one: of a struct that holds a `&mut` each clause would have to say what stands behind it afterwards.
pub fn press_pass(
    s: Press,
    codes: &mut [u32; CODES],
    positions: &mut [f32; PLACES],
    options: InputOptions,
    time: f64,
    feed: &[u32],
    lists: &Lists,
) -> Press
    ensures { PressPassed
        options time (listed_events feed.now (listed lists.now pointer_list))
        codes.old positions.old s codes.new positions.new result }
{
    let held = clear_events(s.held);
    let mut t = Press { held, ..s };
    let events = lists.places(Reader::Pointer);
    for at in events {
        t = press_at(t, codes, positions, options, time, feed, *at as usize);
    }
    t
}
