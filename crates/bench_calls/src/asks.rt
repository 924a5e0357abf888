// Thirty questions after each pass.
use crate::passes::{input, of_state};
use crate::sums::{mix, one_if};
use data::pointer::PointerButton;
use input_pass::begin::begin_pass;
use input_questions::keys::{key_down, key_pressed};
use input_state::state::{InputState, fresh};
use key_state::keys::PRESSES;
use pointer_clicks::{could_any_button_be_click, is_decidedly_dragging};
use pointer_events::CODES;
use pointer_questions::buttons::{
    any_click, any_down, any_pressed, any_released, button_clicked, button_double_clicked,
    button_down, button_pressed, button_released, button_triple_clicked, is_long_press,
    press_origin, press_start_time, time_since_last_click,
};
use pointer_questions::moving::{
    delta, has_pointer, interact_pos, is_moving, is_still, latest_pos, total_drag_delta, velocity,
};
use scroll_questions::scrolling::time_since_last_scroll;
use touch_questions::{any_touches, multi_touch};
use touch_state::devices::{Devices, none};
use trace_state::lent::Arrays;
use wheel_state::is_scrolling;

// any_pressed, any_released, any_click, any_down, and six of the primary button: 10
fn of_buttons(n: u64, s: InputState, codes: &[u32; CODES]) -> u64 {
    let h = s.pointer.press.held;
    let b = PointerButton::Primary;
    let i = one_if(one_if(n, any_pressed(h, codes)), any_released(h, codes));
    let j = one_if(one_if(i, any_click(h, codes)), any_down(h));
    let k = one_if(
        one_if(j, button_pressed(h, codes, b)),
        button_released(h, codes, b),
    );
    let l = one_if(
        one_if(k, button_clicked(h, codes, b)),
        button_double_clicked(h, codes, b),
    );
    one_if(
        one_if(l, button_triple_clicked(h, codes, b)),
        button_down(h, b),
    )
}

// could_any_button_be_click, is_decidedly_dragging, is_long_press, press_origin, press_start_time, time_since_last_click: 6
fn of_presses(n: u64, s: InputState, codes: &[u32; CODES]) -> u64 {
    let options = s.screen.options;
    let press = s.pointer.press;
    let h = press.held;
    let past = press.past;
    let time = s.clock.pointer_time;
    let started = s.pointer.started_decidedly_dragging;
    let moved = past.has_moved_too_much_for_a_click;
    let i = one_if(n, could_any_button_be_click(h, codes, options, time, moved));
    let j = one_if(i, is_decidedly_dragging(h, codes, options, time, moved));
    let k = one_if(j, is_long_press(press, options, time, started));
    let l = one_if(
        one_if(k, press_origin(h).is_some()),
        press_start_time(h).is_some(),
    );
    one_if(l, time_since_last_click(past, time) < 0.3)
}

// has_pointer, is_still, is_moving, latest_pos, interact_pos, total_drag_delta, delta, velocity: 8
fn of_moves(n: u64, s: InputState) -> u64 {
    let p = s.pointer.place;
    let h = s.pointer.press.held;
    let d = delta(p);
    let v = velocity(p);
    let i = one_if(one_if(one_if(n, has_pointer(p)), is_still(p)), is_moving(p));
    let j = one_if(
        one_if(i, latest_pos(p).is_some()),
        interact_pos(p).is_some(),
    );
    one_if(
        one_if(one_if(j, total_drag_delta(p, h).is_some()), d.x > 0.5),
        v.x > 0.5,
    )
}

// key_down, key_pressed, is_scrolling, time_since_last_scroll, any_touches, multi_touch: 6
fn of_rest(n: u64, s: InputState, ds: Devices, presses: &[u8; PRESSES]) -> u64 {
    let i = one_if(one_if(n, key_down(s.keys, 20)), key_pressed(presses, 20));
    let j = one_if(
        one_if(i, is_scrolling(s.wheel)),
        time_since_last_scroll(s.wheel, s.clock.time) < 0.3,
    );
    one_if(one_if(j, any_touches(ds)), multi_touch(ds).is_some())
}

fn asked(n: u64, s: InputState, ds: Devices, lent: &Arrays) -> u64 {
    let i = of_buttons(n, s, &lent.codes);
    let j = of_presses(i, s, &lent.codes);
    let k = of_moves(j, s);
    of_rest(k, s, ds, &lent.presses)
}

pub fn run(times: u32, feed: &[u32]) -> u64 {
    let mut lent = Arrays::default();
    let mut s = fresh();
    let mut ds = none();
    let i = input();
    let mut n = asked(0, s, ds, &lent);
    for _ in 0..times {
        if let Ok(begun) = begin_pass(
            s,
            ds,
            &mut lent.times,
            &mut lent.positions,
            &mut lent.codes,
            &mut lent.places,
            &mut lent.presses,
            i,
            feed,
        ) {
            s = begun.state;
            ds = begun.devices;
        }
        n = asked(n, s, ds, &lent);
    }
    mix(of_state(s, ds, &lent.presses), n)
}
