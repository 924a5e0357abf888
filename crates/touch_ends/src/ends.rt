// The devices at the end of a pass: their gestures go on, start or end.
ghost use Rattle.std.specs.Prelude.{◌≡◌, [], ◌∷◌, map, get_or};
ghost use Rattle.data.specs.Kinds.{touch_kind};
ghost use Rattle.feed.specs.Split.{kind};
ghost use Rattle.model.specs.Touch.{added_or_removed_touches, end_touches};
ghost use Rattle.touch_state.specs.View.{view};
ghost use Rattle.event_loop.specs.Shaped.{shaped_at};
ghost use Rattle.event_loop.specs.Lists.{listed_events};

use data::kinds::{KIND_UNIT, TOUCH_KIND};
use emath::pos2::Pos2;
use event_loop::kind_at;
use feed::fields::{id_of, phase_of};
use touch_device::adds_or_removes;
use touch_state::devices::Devices;

// Of a touch event only the first three words are read: its phase and its device.
fn touch_adds_at(device_id: u64, feed: &[u32], at: usize) -> bool
    ensures { kind (get_or feed.now at 0) ≡ touch_kind → result ≡ added_or_removed_touches device_id (shaped_at feed.now at ∷ []) }
{
    if at >= feed.len() {
        return false;
    }
    let low = feed[at] % KIND_UNIT;
    let n = 6 + (feed[at] / 4 % 2) as usize;
    if feed.len() - at <= n {
        return false;
    }
    if low >= 8 {
        return false;
    }
    let id = id_of(feed[at + 1], feed[at + 2]);
    let phase = phase_of(low % 4);
    (id == device_id) & adds_or_removes(phase)
}

fn adds_at(device_id: u64, feed: &[u32], at: usize) -> bool
    ensures { result ≡ added_or_removed_touches device_id (shaped_at feed.now at ∷ []) }
{
    if kind_at(feed, at) == TOUCH_KIND {
        return touch_adds_at(device_id, feed, at);
    }
    false
}

fn added_or_removed_touches(device_id: u64, feed: &[u32], places: &[u16]) -> bool
    ensures { result ≡ added_or_removed_touches device_id (listed_events feed.now places.now) }
{
    for at in places {
        if adds_at(device_id, feed, *at as usize) {
            return true;
        }
    }
    false
}

// Each device is ended where it stands, by whether the feed adds touches to it or removes them.
// `pointer_pos` is the pointer's interact position of the pass before.
pub fn end_devices(
    ds: Devices,
    feed: &[u32],
    places: &[u16],
    time: f64,
    pointer_pos: Option<Pos2>,
) -> Devices
    ensures { view result ≡ map (end_touches time pointer_pos (listed_events feed.now places.now)) (view ds) }
{
    if ds.count == 0 {
        return ds;
    }
    let n = touch_state::devices::len(ds);
    let mut out = ds;
    for i in 0..n {
        let d = out.places[i];
        let added_or_removed = added_or_removed_touches(d.id, feed, places);
        out.places[i] = touch_device::end_pass(d, time, pointer_pos, added_or_removed);
    }
    out
}
