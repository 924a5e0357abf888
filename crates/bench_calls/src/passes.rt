// Passes with one feed, each from the state that the last one left.
use crate::sums::{double, flag, mix, pos2, single, vec2};
use emath::pos2::Pos2;
use emath::rect::Rect;
use input_pass::begin::begin_pass;
use input_state::input::PassInput;
use input_state::screen::default_options;
use input_state::state::{InputState, fresh};
use key_state::keys::{PRESSES, num_presses};
use pointer_questions::buttons::any_down;
use touch_questions::any_touches;
use touch_state::devices::{Devices, none};
use trace_state::lent::Arrays;

pub fn input() -> PassInput {
    let options = default_options();
    PassInput {
        time: None,
        screen_rect: None,
        predicted_dt: 0.015625,
        smoothing_factor: 0.5,
        pixels_per_point: 1.0,
        focused: true,
        requested_repaint: true,
        options,
    }
}

fn of_place(h: u64, p: Option<Pos2>) -> u64 {
    match p {
        None => mix(h, 0),
        Some(v) => pos2(h, v),
    }
}

// Of all that a pass leaves.
pub fn of_state(s: InputState, ds: Devices, presses: &[u8; PRESSES]) -> u64 {
    let place = s.pointer.place;
    let held = s.pointer.press.held;
    let past = s.pointer.press.past;
    let a = single(
        single(double(0, s.clock.time), s.clock.unstable_dt),
        s.clock.stable_dt,
    );
    let b = vec2(vec2(vec2(a, place.delta), place.velocity), place.direction);
    let c = of_place(of_place(b, place.latest_pos), held.press_origin);
    let d = mix(flag(c, any_down(held)), held.event_count as u64);
    let e = double(
        flag(d, past.has_moved_too_much_for_a_click),
        past.last_click_time,
    );
    let f = double(
        vec2(
            vec2(e, s.wheel.unprocessed_wheel_delta),
            s.sums.smooth_scroll_delta,
        ),
        s.wheel.last_wheel_event,
    );
    let g = single(single(f, s.sums.zoom_factor), s.sums.rotation_radians);
    let i = mix(g, num_presses(presses, 20) as u64);
    mix(flag(i, any_touches(ds)), ds.count as u64)
}

pub fn run(times: u32, feed: &[u32]) -> u64 {
    let mut lent = Arrays::default();
    let mut s = fresh();
    let mut ds = none();
    let i = input();
    for _ in 0..times {
        if let Ok(begun) = begin_pass(
            s,
            ds,
            &mut lent.times,
            &mut lent.positions,
            &mut lent.codes,
            &mut lent.places,
            &mut lent.presses,
            i,
            feed,
        ) {
            s = begun.state;
            ds = begun.devices;
        }
    }
    of_state(s, ds, &lent.presses)
}
