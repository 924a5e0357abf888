// Zoom and rotation of egui's input_state/mod.rs: the product of the pass's zoom factors and the sum of its radians.
// Kept (plain): a step and a loop for each. The start, the kind, the event and the operator differ; what is the same is the line of the `for`.
#![tactic(auto)]

ghost use Rattle.std.specs.Prelude.{◌≡◌};
ghost use Rattle.model.specs.Numbers.{+0, one};
ghost use Rattle.model.specs.Pass.{zoom_event, zoom_of, rotation_event, rotation_of};
ghost use Rattle.event_loop.specs.Shaped.{shaped_at};
ghost use Rattle.event_loop.specs.Lists.{listed_events};

use data::event::Event;
use data::kinds::{ROTATE_KIND, ZOOM_KIND};
use event_loop::kind_at;

// Zoom events are read.
fn zoom_at(factor: f32, feed: &[u32], at: usize) -> f32
    ensures { result ≡ zoom_event (shaped_at feed.now at) factor }
{
    if kind_at(feed, at) == ZOOM_KIND {
        let e = event_readers::readers::zoom_at(feed, at);
        let Event::Zoom(x) = e else {
            return factor;
        };
        return factor * x;
    }
    factor
}

// Of the events at some places.
pub fn zoom_of(feed: &[u32], places: &[u16]) -> f32
    ensures { result ≡ zoom_of (listed_events feed.now places.now) one }
{
    let mut factor: f32 = 1.0;
    for at in places {
        factor = zoom_at(factor, feed, *at as usize);
    }
    factor
}

// Rotate events are read.
fn rotation_at(radians: f32, feed: &[u32], at: usize) -> f32
    ensures { result ≡ rotation_event (shaped_at feed.now at) radians }
{
    if kind_at(feed, at) == ROTATE_KIND {
        let e = event_readers::readers::rotate_at(feed, at);
        let Event::Rotate(x) = e else {
            return radians;
        };
        return radians + x;
    }
    radians
}

pub fn rotation_of(feed: &[u32], places: &[u16]) -> f32
    ensures { result ≡ rotation_of (listed_events feed.now places.now) +0 }
{
    let mut radians: f32 = 0.0;
    for at in places {
        radians = rotation_at(radians, feed, *at as usize);
    }
    radians
}
