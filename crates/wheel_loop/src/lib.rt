// The wheel's part of a pass: its loop along the feed.
#![tactic(auto)]

ghost use Rattle.std.specs.Prelude.{◌≡◌};
ghost use Rattle.model.specs.Wheel.{wheel_event, wheel_events, wheel_pass};
ghost use Rattle.event_loop.specs.Shaped.{shaped_at};
ghost use Rattle.event_loop.specs.Lists.{listed_events};

use data::event::Event;
use data::kinds::WHEEL_KIND;
use data::mouse_wheel::WheelState;
use event_loop::kind_at;
use wheel_event::{Measures, WheelEvent};

// Wheel events are read, and the wheel is lent for its step.
fn wheel_at(w: WheelState, by: Measures, feed: &[u32], at: usize) -> WheelState
    ensures { result ≡ wheel_event by.viewport_rect by.options by.time (shaped_at feed.now at) w }
{
    if kind_at(feed, at) == WHEEL_KIND {
        let e = event_readers::readers::wheel_at(feed, at);
        let Event::MouseWheel(unit, delta, phase, source, modifiers) = e else {
            return w;
        };
        let wheel = WheelEvent {
            unit,
            delta,
            phase,
            source,
            modifiers,
        };
        return wheel_event::lent::stepped(w, by, wheel);
    }
    w
}

fn wheel_events(w: WheelState, by: Measures, feed: &[u32], places: &[u16]) -> WheelState
    ensures { result ≡ wheel_events by.viewport_rect by.options by.time (listed_events feed.now places.now) w }
{
    let mut v = w;
    for at in places {
        v = wheel_at(v, by, feed, *at as usize);
    }
    v
}

// The wheel's part of a pass, of the events at some places; `factor` is the smoothing factor.
pub fn wheel_pass(
    w: WheelState,
    by: Measures,
    factor: f32,
    feed: &[u32],
    places: &[u16],
) -> WheelState
    ensures { result ≡ wheel_pass by.viewport_rect by.options by.time factor (listed_events feed.now places.now) w }
{
    let cleared = wheel_state::clear_smooth(w);
    let scrolled = wheel_events(cleared, by, feed, places);
    wheel_state::after_events(scrolled, by.time, factor)
}
