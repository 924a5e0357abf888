// The touch devices of DUMP.
use data::touch::{ActiveTouch, GestureState};
use touch_device::Device;
use touch_state::devices;
use touch_state::devices::Devices;
use touches::Touches;
use trace_words::said::Said;
use trace_words::words::Answer;

fn touch(a: &mut Answer, t: ActiveTouch) {
    a.id(t.id);
    a.pos(t.pos);
    a.maybe(t.force);
}

fn all_touches(a: &mut Answer, ts: Touches) {
    let len = touches::len(ts);
    a.count(len);
    for t in ts.places.iter().take(len) {
        touch(a, *t);
    }
}

// No gesture is 0 alone.
fn gesture(a: &mut Answer, gesture: Option<GestureState>) {
    match gesture {
        None => a.word(0),
        Some(g) => {
            a.word(1);
            a.seconds(g.start_time);
            a.pos(g.start_pointer_pos);
            a.word(g.pinch_type.number());
            g.current.say(a);
            a.maybe(g.previous);
        }
    }
}

// Their number, then each: its id, its touches, its gesture.
pub fn held(a: &mut Answer, ds: Devices) {
    let len = devices::len(ds);
    a.count(len);
    for d in ds.places.iter().take(len) {
        a.id(d.id);
        all_touches(a, d.touches);
        gesture(a, d.gesture_state);
    }
}
