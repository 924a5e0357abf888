// The touch devices, as they are asked.
use panel::touching::{any_touches_of, info};
use touch_state::devices;
use touch_state::devices::Devices;
use trace_words::words::Answer;

// Their number, then each: its id, whether it has touches, its info.
pub fn asked(a: &mut Answer, ds: Devices) {
    let len = devices::len(ds);
    a.count(len);
    for d in ds.places.iter().take(len) {
        a.id(d.id);
        a.flag(any_touches_of(ds, d.id));
        a.maybe(info(ds, d.id));
    }
}
