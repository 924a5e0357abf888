// Group 12 of an image (02 A.6): the touch devices by ascending id, each with its touches and its gesture.
#![tactic(auto)]

ghost use Rattle.std.specs.Prelude.{◌≡◌, map, ◌+◌, ◌*◌, ◌<◌, ◌≤◌, length, take, None};
ghost use Rattle.std.proofs.lemmas.List.Edits.{sets};
ghost use Rattle.data.specs.Limits.{max_devices, max_touches};
ghost use Rattle.touch_device.specs.View.{device_view};
ghost use Rattle.touch_state.specs.View.{known, view};
ghost use Rattle.image.specs.Codes.{write, entry_words, Each, all};
ghost use Rattle.image.specs.Places.{or_else, two_bad, bad_at, value_at, key_at, span};
ghost use Rattle.image_words.specs.Leaves.{found};
ghost use Rattle.image_touches.specs.Touches.{ascending, seen_of, touches_code};
ghost use Rattle.image_devices.specs.Devices.{device_code, devices_code, device_el, device_of, devices_el, devices_of, DeviceIn};

use data::limits::MAX_DEVICES;
use image_gesture::{gesture_at, gesture_bad, gesture_put};
use image_touches::{touches_at, touches_bad, touches_put};
use image_words::{Listing, high, key_bad, keys_bad, low, two_at};
use touch_device::Device;
use touch_state::devices::Devices;

// The words of a device.
pub const DEVICE_WORDS: usize = 86;

// The group's list, of the most devices that this form holds.
const DEVICES: Listing = Listing {
    name: 12,
    most: 4,
    size: DEVICE_WORDS,
};

// The group's leading word of length 0.
const DEVICES_WORD: u32 = 0xC000_0000;

// Of a device, after its id.
const AFTER_ID: usize = 84;

// Where a device's touches and its gesture stand, after its id.
const TOUCHES: usize = 2;

const GESTURE: usize = 63;

// The most touches of a device that this form holds.
const MOST_TOUCHES: u32 = 10;

fn device_put(d: Device, out: &mut [u32], at: usize)
    requires { at + 86 ≤ length out.old }
    ensures { (out.new ≡ sets out.old at (entry_words (write (device_code max_touches)) (device_el (device_view d))))
        × DeviceIn (device_el (device_view d)) × (length (entry_words (write (device_code max_touches)) (device_el (device_view d))) ≡ 86) }
{
    out[at] = high(d.id);
    out[at + 1] = low(d.id);
    touches_put(d.touches, out, at + TOUCHES);
    gesture_put(d.gesture_state, out, at + GESTURE);
}

// The first n devices.
fn rows_put(places: [Device; MAX_DEVICES], n: usize, out: &mut [u32], at: usize)
    requires { (n ≤ max_devices) × (at + n * 86 ≤ length out.old) }
    ensures { (out.new ≡ sets out.old at (all (entry_words (write (device_code max_touches))) (devices_el (map device_view (take n places)))))
        × Each DeviceIn (devices_el (map device_view (take n places))) }
{
    for i in 0..n {
        device_put(places[i], out, at + i * DEVICE_WORDS);
    }
}

// How many words a device takes.
fn device_words(d: Device) -> usize
    ensures { (result ≡ 86) × (result ≡ length (entry_words (write (device_code max_touches)) (device_el (device_view d)))) }
{
    DEVICE_WORDS
}

fn rows_words(places: [Device; MAX_DEVICES], n: usize) -> usize
    requires { n ≤ max_devices }
    ensures { (result ≡ n * 86) × (result ≡ length (all (entry_words (write (device_code max_touches))) (devices_el (map device_view (take n places))))) }
{
    let mut words: usize = 0;
    for i in 0..n {
        words += device_words(places[i]);
    }
    words
}

// How many words the group takes.
pub fn devices_words(ds: Devices) -> usize
    ensures { (result ≡ 1 + length (known ds) * 86) × (result ≡ length (write (devices_code max_devices max_touches) (devices_el (view ds)))) }
{
    let n = touch_state::devices::len(ds);
    1 + rows_words(ds.places, n)
}

pub fn devices_put(ds: Devices, out: &mut [u32], at: usize)
    requires { at + (1 + length (known ds) * 86) ≤ length out.old }
    ensures { (out.new ≡ sets out.old at (write (devices_code max_devices max_touches) (devices_el (view ds))))
        × Each DeviceIn (devices_el (view ds)) }
{
    let n = touch_state::devices::len(ds);
    out[at] = DEVICES_WORD + (n * DEVICE_WORDS) as u32;
    rows_put(ds.places, n, out, at + 1);
}

fn device_bad(words: &[u32], at: usize, before: Option<u64>) -> Result<(), usize>
    requires { at + 86 < 0x1000_0000 }
    ensures { found result ≡ or_else (two_bad (ascending (seen_of before)) words.now at) (bad_at (device_code max_touches) words.now (at + 2)) }
{
    key_bad(words, at, before)?;
    touches_bad(words, at + TOUCHES, MOST_TOUCHES)?;
    gesture_bad(words, at + GESTURE)
}

// How many devices follow, where the leading word is right.
pub fn devices_count(words: &[u32], at: usize) -> usize
    ensures { (result ≤ max_devices) × (bad_at (devices_code max_devices max_touches) words.now at ≡ None → 1 + result * 86 ≡ span (devices_code max_devices max_touches) words.now at) }
{
    DEVICES.count(words, at)
}

#[tactic(auto, unfolding(image::specs::Places::bad_at, image::specs::Places::span, image::specs::Places::or_else, image::specs::Codes::size, image_words::specs::Leaves::found))]
pub fn devices_bad(words: &[u32], at: usize) -> Result<(), usize>
    requires { at < 0x100_0000 }
    ensures { found result ≡ bad_at (devices_code max_devices max_touches) words.now at }
{
    DEVICES.bad(words, at)?;
    let n = DEVICES.count(words, at);
    keys_bad(
        words,
        at + 1,
        n,
        AFTER_ID,
        |k, before| device_bad(words, k, before),
    )
}

fn device_at(words: &[u32], at: usize) -> Device
    requires { (at + 86 < 0x1000_0000) × (bad_at (touches_code max_touches) words.now (at + 2) ≡ None) }
    ensures { device_view result ≡ device_of (key_at (value_at (device_code max_touches)) words.now at) }
{
    let id = two_at(words, at);
    let touches = touches_at(words, at + TOUCHES, MOST_TOUCHES);
    let gesture_state = gesture_at(words, at + GESTURE);
    Device {
        id,
        touches,
        gesture_state,
    }
}

// Requires that nothing is wrong, so that nothing is changed before all is checked.
pub fn devices_at(words: &[u32], at: usize) -> Devices
    requires { (at < 0x100_0000) × (bad_at (devices_code max_devices max_touches) words.now at ≡ None) }
    ensures { view result ≡ devices_of (value_at (devices_code max_devices max_touches) words.now at) }
{
    let n = DEVICES.count(words, at);
    let mut ds = touch_state::devices::none();
    for i in 0..n {
        let d = device_at(words, at + 1 + i * DEVICE_WORDS);
        ds.places[i] = d;
    }
    ds.count = n;
    ds
}
