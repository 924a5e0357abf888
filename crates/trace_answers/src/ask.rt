// ASK: every question.
use crate::devices::asked;
use crate::events::events;
use crate::keys::{keys_down, presses};
use data::mouse_wheel::MouseWheelSource;
use data::pointer::PointerButton;
use data::touch::Rotation;
use input_state::clock::Clock;
use input_state::pointer::Pointer;
use input_state::screen::Screen;
use input_state::state::InputState;
use key_state::keys::{Keys, PRESSES};
use panel::keys::{feed_was_empty, modifiers};
use panel::repaint::wants_repaint_after;
use panel::scrolling::{is_scrolling, scroll_source, smooth_scroll_delta, time_since_last_scroll};
use panel::state::Panel;
use panel::touching::{any_touches, has_touch_screen, is_long_touch, multi_touch};
use panel::zoom::{rotation_delta, translation_delta, zoom_delta, zoom_delta_2d};
use panel::{buttons, clock, pointer};
use pointer_events::CODES;
use pointer_state::press::Press;
use touch_state::devices::Devices;
use trace_state::lent::Arrays;
use trace_words::words::Answer;

// Words 0 to 13.
fn screen_words(a: &mut Answer, c: Clock, s: Screen, k: Keys) {
    a.seconds(clock::time(c));
    a.float(clock::unstable_dt(c));
    a.float(clock::predicted_dt(c));
    a.float(clock::stable_dt(c));
    a.flag(clock::focused(s));
    a.flags(modifiers(k));
    a.rect(clock::viewport_rect(s));
    a.float(clock::pixels_per_point(s));
    a.float(clock::physical_pixel_size(s));
    a.float(clock::aim_radius(s));
}

// Its number, then its values, and zeros to four words.
fn rotation(a: &mut Answer, r: Rotation) {
    a.word(r.number());
    match r {
        Rotation::Radians(x) => {
            a.float(x);
            a.zeros(3);
        }
        Rotation::Headings(previous, heading) => {
            a.vec(previous);
            a.vec(heading);
        }
    }
}

// Words 14 to 28.
fn zoom_words(a: &mut Answer, s: InputState, ds: Devices) {
    let zoom = zoom_delta(ds, s.sums);
    let by_axis = zoom_delta_2d(ds, s.sums, s.keys, s.screen);
    a.vec(smooth_scroll_delta(s.sums));
    a.float(zoom.factor);
    a.float(zoom.exponent);
    a.vec(by_axis.factor);
    a.vec(by_axis.exponent);
    rotation(a, rotation_delta(ds, s.sums));
    a.vec(translation_delta(ds, s.sums));
}

// None is 0.
fn source_number(s: Option<MouseWheelSource>) -> u32 {
    s.map_or(0, |x| 1 + x.number())
}

// Words 29 to 34.
fn scroll_words(a: &mut Answer, s: InputState, ds: Devices, codes: &[u32; CODES]) {
    a.flag(is_scrolling(s.wheel));
    a.word(source_number(scroll_source(s.wheel)));
    a.float(time_since_last_scroll(s.wheel, s.clock));
    a.maybe(wants_repaint_after(s.clock, s.screen, s.pointer, codes, s.wheel, s.keys, ds));
}

// Words 35 to 96.
fn key_and_touch_words(a: &mut Answer, s: InputState, ds: Devices, counts: &[u8; PRESSES]) {
    keys_down(a, s.keys);
    presses(a, counts);
    a.flag(feed_was_empty(s.keys));
    a.bits(&[
        any_touches(ds),
        has_touch_screen(ds),
        is_long_touch(s.clock, s.screen, s.pointer, ds),
    ]);
    a.maybe(multi_touch(ds));
}

// Words 97 to 120.
fn place_words(a: &mut Answer, p: Pointer) {
    a.vec(pointer::delta(p.place));
    a.maybe(pointer::motion(p.place));
    a.vec(pointer::velocity(p.place));
    a.vec(pointer::direction(p.place));
    a.maybe(buttons::press_origin(p.press));
    a.maybe(pointer::total_drag_delta(p));
    a.maybe(buttons::press_start_time(p.press));
    a.maybe(pointer::latest_pos(p.place));
    a.maybe(pointer::interact_pos(p.place));
}

// Word 121.
fn pointer_bits(a: &mut Answer, c: Clock, screen: Screen, p: Pointer, codes: &[u32; CODES]) {
    a.bits(&[
        pointer::has_pointer(p.place),
        pointer::is_still(p.place),
        pointer::is_moving(p.place),
        buttons::any_pressed(p.press, codes),
        buttons::any_released(p.press, codes),
        buttons::any_down(p.press),
        buttons::any_click(p.press, codes),
        buttons::could_any_button_be_click(c, screen, p.press, codes),
        buttons::is_decidedly_dragging(c, screen, p.press, codes),
        buttons::is_long_press(c, screen, p),
    ]);
}

// Words 123 to 127.
fn button_words(a: &mut Answer, press: Press, codes: &[u32; CODES]) {
    for b in [
        PointerButton::Primary,
        PointerButton::Secondary,
        PointerButton::Middle,
        PointerButton::Extra1,
        PointerButton::Extra2,
    ] {
        a.bits(&[
            buttons::button_pressed(press, codes, b),
            buttons::button_released(press, codes, b),
            buttons::button_clicked(press, codes, b),
            buttons::button_double_clicked(press, codes, b),
            buttons::button_triple_clicked(press, codes, b),
            buttons::button_down(press, b),
        ]);
    }
}

// Words 97 to the pointer events.
fn pointer_words(a: &mut Answer, s: InputState, lent: &Arrays) {
    let p = s.pointer;
    place_words(a, p);
    pointer_bits(a, s.clock, s.screen, p, &lent.codes);
    a.float(buttons::time_since_last_click(p.press, s.clock));
    button_words(a, p.press, &lent.codes);
    events(a, p.press, lent);
}

pub fn ask(a: &mut Answer, p: Panel, lent: &Arrays) {
    let s = p.input;
    let ds = p.devices;
    screen_words(a, s.clock, s.screen, s.keys);
    zoom_words(a, s, ds);
    scroll_words(a, s, ds, &lent.codes);
    key_and_touch_words(a, s, ds, &lent.presses);
    pointer_words(a, s, lent);
    asked(a, ds);
}
