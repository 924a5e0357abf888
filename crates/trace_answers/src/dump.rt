// DUMP: the retained state but for the widgets.
use crate::events::events;
use crate::keys::{keys_down, presses};
use input_state::clock::Clock;
use input_state::state::InputState;
use key_state::keys::PRESSES;
use panel::state::Panel;
use trace_state::devices::held;
use trace_state::lent::Arrays;
use trace_state::parts::{history, interaction, options, place, press, wheel};
use trace_words::words::Answer;

fn pointer(a: &mut Answer, s: InputState, lent: &Arrays) {
    let p = s.pointer;
    a.seconds(s.clock.pointer_time);
    place(a, p.place);
    history(a, p.place.history, lent);
    press(a, p.press.held, p.press.past, p.started_decidedly_dragging);
    events(a, p.press, lent);
}

fn clock_words(a: &mut Answer, c: Clock) {
    a.seconds(c.time);
    a.float(c.unstable_dt);
    a.float(c.predicted_dt);
    a.float(c.stable_dt);
}

fn input(a: &mut Answer, s: InputState, p: &[u8; PRESSES]) {
    clock_words(a, s.clock);
    a.flag(s.screen.focused);
    a.flags(s.keys.modifiers);
    keys_down(a, s.keys);
    presses(a, p);
    a.flag(s.keys.feed_empty);
    a.rect(s.screen.viewport_rect);
    a.float(s.screen.pixels_per_point);
    a.vec(s.sums.smooth_scroll_delta);
    a.float(s.sums.zoom_factor);
    a.float(s.sums.rotation_radians);
    options(a, s.screen.options);
}

// All but the widgets.
pub fn dump(a: &mut Answer, p: Panel, lent: &Arrays) {
    pointer(a, p.input, lent);
    wheel(a, p.input.wheel);
    held(a, p.devices);
    input(a, p.input, &lent.presses);
    interaction(a, p.interaction, p.tally);
}
