// Touch events against the devices and touches that are held.
ghost use Rattle.std.specs.Prelude.{◌≡◌, cond, ltb, length, Some};
ghost use Rattle.data.specs.Limits.{max_devices};
ghost use Rattle.model.specs.Touch.{no_place, find_device};
ghost use Rattle.touch_device.specs.View.{device_view};
ghost use Rattle.touch_state.specs.View.{view};
ghost use Rattle.survey.specs.Survey.{option};
ghost use Rattle.touch_crowd.specs.Crowded.{Crowded};

use crate::touch::{TouchEvent, touch_event_at};
use data::limits::MAX_DEVICES;
use data::refusal::PassRefusal;
use data::touch::TouchPhase;
use touch_device::Device;
use touch_state::devices::{Devices, add, known_at, no_place};

// Is there no place for a touch event: of the device at place k, or of one that is not known?
fn is_crowded(
    held: &Devices,
    k: usize,
    device: Device,
    device_id: u64,
    phase: TouchPhase,
    id: u64,
) -> bool
    ensures { result ≡ cond (ltb k max_devices) (no_place phase id 0 (Some (device_view device))) (no_place phase id (length (view held.now)) (find_device device_id (view held.now))) }
{
    if k < MAX_DEVICES {
        return touch_device::is_full(device, phase, id);
    }
    no_place(held, device_id, phase, id)
}

// The devices after the touch events at their places, or the first refusal; `later` is what is refused after them.
// `device` is the one of the last event, at place k; it is put back when another's turn comes. MAX_DEVICES is no place.
pub fn crowd(
    ds: Devices,
    feed: &[u32],
    places: &[u16],
    later: Result<(), PassRefusal>,
) -> Result<Devices, PassRefusal>
    ensures { Crowded feed.now places.now (option later) (view ds) result }
{
    let mut held = ds;
    let mut k: usize = MAX_DEVICES;
    let mut device = touch_device::new(0);
    for place in places {
        let at = *place as usize;
        let found = touch_event_at(feed, at);
        match found {
            None => {}
            Some(e) => {
                let phase = e.phase;
                let touch = e.touch;
                if (k == MAX_DEVICES) | (device.id != e.device_id) {
                    if k < MAX_DEVICES {
                        held.places[k] = device;
                    }
                    k = known_at(&held, e.device_id).unwrap_or(MAX_DEVICES);
                    if k < MAX_DEVICES {
                        device = held.places[k];
                    }
                }
                if is_crowded(&held, k, device, e.device_id, phase, touch.id) {
                    return Err(PassRefusal::NoPlace(at));
                }
                if k < MAX_DEVICES {
                    device = touch_device::on_touch(device, phase, touch);
                } else {
                    held = add(held, e.device_id, phase, touch);
                }
            }
        }
    }
    later?;
    if k < MAX_DEVICES {
        held.places[k] = device;
    }
    Ok(held)
}
