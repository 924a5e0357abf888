// What is asked of the touch devices.
#![tactic(auto)]

ghost use Rattle.std.specs.Prelude.{◌≡◌};
ghost use Rattle.model.specs.Touch.{find_device, info_at, multi_touch, any_touches, any_touches_at, has_touch_screen};
ghost use Rattle.touch_state.specs.View.{view};

use data::touch::MultiTouchInfo;
use touch_state::devices::{Devices, index_of, known, len};

// The info of a device: none if it is not known.
pub fn info(ds: Devices, device_id: u64) -> Option<MultiTouchInfo>
    ensures { result ≡ info_at (find_device device_id (view ds)) }
{
    let i = index_of(&ds, device_id)?;
    touch_device::info::info(ds.places[i])
}

// The info of the first device that has one.
// Kept (proof): `find_map` was tried: what it says of its calls left the result open.
pub fn multi_touch(ds: Devices) -> Option<MultiTouchInfo>
    ensures { result ≡ multi_touch (view ds) }
{
    for d in known(&ds) {
        if let Some(g) = touch_device::info::info(*d) {
            return Some(g);
        }
    }
    None
}

// Kept (proof): `iter().any` was tried: the closure's contract does not open to that of the function it calls.
pub fn any_touches(ds: Devices) -> bool
    ensures { result ≡ any_touches (view ds) }
{
    for d in known(&ds) {
        if touch_device::any_touches(*d) {
            return true;
        }
    }
    false
}

// Are there touches on this device?
// Kept (proof): `is_some_and` was tried: the contract of a closure that looks at a place does not open to that of the function it calls.
pub fn any_touches_of(ds: Devices, device_id: u64) -> bool
    ensures { result ≡ any_touches_at (find_device device_id (view ds)) }
{
    match index_of(&ds, device_id) {
        None => false,
        Some(i) => touch_device::any_touches(ds.places[i]),
    }
}

#[tactic(auto, using(touch_state::proofs::Known::some_devices))]
pub fn has_touch_screen(ds: Devices) -> bool
    ensures { result ≡ has_touch_screen (view ds) }
{
    len(ds) > 0
}
