// The devices that are known, by ascending id in the first `count` places: egui's BTreeMap.
ghost use Rattle.std.specs.Prelude.{◌≡◌, ◌<◌, ◌≤◌, [], length, position, IfSome};
ghost use Rattle.std.specs.Option.{unwrap_or};
ghost use Rattle.data.specs.Limits.{max_devices};
ghost use Rattle.model.specs.Touch.{no_place, find_device};
ghost use Rattle.touches.specs.Touches.{has};
ghost use Rattle.touch_state.specs.View.{known, device_id, known_at, view, fits_touch};

use data::limits::MAX_DEVICES;
use data::touch::{ActiveTouch, TouchPhase};
use touch_device::{Device, is_start};
use touches::sorted::{find, is_at, place_of, put_in};

// Kept (01): a sorted array with its count, no map: the memory is fixed, and there is no heap.
#[derive(Clone, Copy)]
pub struct Devices {
    pub count: usize,
    pub places: [Device; MAX_DEVICES],
}

pub fn none() -> Devices
    ensures { view result ≡ [] }
{
    Devices {
        count: 0,
        places: [touch_device::new(0); MAX_DEVICES],
    }
}

// The number of devices: a count beyond the places means that all are taken.
pub fn len(ds: Devices) -> usize
    ensures { result ≡ length (known ds) }
{
    ds.count.min(MAX_DEVICES)
}

// The devices, without the places that are free.
pub fn known(ds: &Devices) -> &[Device]
    ensures places { result.now ≡ known ds.now }
    ensures within { length result.now ≤ max_devices }
{
    // The count is read where it stands: `len` is handed a copy of the record.
    &ds.places[..ds.count.min(MAX_DEVICES)]
}

// The first place with this id, if there is one.
pub fn index_of(ds: &Devices, id: u64) -> Option<usize>
    ensures { result ≡ position (has device_id id) (known ds.now) }
{
    find(known(ds), id)
}

// The place of a device that is known, where the order of the ids has it: egui's map finds no other.
pub fn known_at(ds: &Devices, id: u64) -> Option<usize>
    ensures place { unwrap_or result max_devices ≡ known_at id (known ds.now) }
    ensures below { IfSome result (λ k. k < max_devices) }
{
    let us = known(ds);
    let i = place_of(us, id);
    is_at(us, i, id).then_some(i)
}

// A device that is not known becomes known by a touch event, if there is a place: those of a greater id move up by one.
pub fn add(ds: Devices, id: u64, phase: TouchPhase, t: ActiveTouch) -> Devices
    requires { known_at id (known ds) ≡ max_devices }
    ensures { view result ≡ fits_touch id phase t (view ds) }
{
    let n = len(ds);
    if n >= MAX_DEVICES {
        return ds;
    }
    let at = place_of(known(&ds), id);
    let device = touch_device::first(id, phase, t);
    let mut s = ds;
    put_in(&mut s.places, n, at, device);
    s.count = n + 1;
    s
}

// Is there no place for a touch event: a device too many, or the Start of a touch too many? Only for a Start are the touches looked at.
pub fn no_place(ds: &Devices, device_id: u64, phase: TouchPhase, id: u64) -> bool
    ensures { result ≡ no_place phase id (length (view ds.now)) (find_device device_id (view ds.now)) }
{
    match index_of(ds, device_id) {
        None => MAX_DEVICES <= len(*ds),
        Some(i) => is_start(phase) && touch_device::is_full(ds.places[i], phase, id),
    }
}
