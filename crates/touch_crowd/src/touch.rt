// The touch event at a place of the feed, by its parts.
ghost use Rattle.std.specs.Prelude.{◌≡◌};
ghost use Rattle.event_loop.specs.Shaped.{shaped_at};
ghost use Rattle.touch_crowd.specs.Touch.{touch_of};

use data::event::Event;
use data::kinds::TOUCH_KIND;
use data::touch::{ActiveTouch, TouchPhase};
use event_loop::kind_at;
use event_readers::readers::touch_at;

#[derive(Clone, Copy)]
pub struct TouchEvent {
    pub device_id: u64,
    pub phase: TouchPhase,
    pub touch: ActiveTouch,
}

// Touch events are read.
pub fn touch_event_at(feed: &[u32], at: usize) -> Option<TouchEvent>
    ensures { result ≡ touch_of (shaped_at feed.now at) }
{
    if kind_at(feed, at) == TOUCH_KIND {
        let e = touch_at(feed, at);
        let Event::Touch(device_id, id, phase, pos, force) = e else {
            return None;
        };
        let touch = ActiveTouch { id, pos, force };
        return Some(TouchEvent {
            device_id,
            phase,
            touch,
        });
    }
    None
}
