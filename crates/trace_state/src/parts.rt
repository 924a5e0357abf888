// The parts of DUMP that are the pointer's, the wheel's, the options' and the interaction's.
use crate::lent::Arrays;
use data::mouse_wheel::WheelState;
use data::options::InputOptions;
use emath_history::history::{History, MAX_LEN};
use interaction_state::state::Interaction;
use pointer_clicks::{ClickPast, Held};
use pointer_place::Place;
use trace_words::words::Answer;

// The i-th sample, from the oldest.
fn sample(a: &mut Answer, h: History, lent: &Arrays, i: usize) {
    let k = (h.start % MAX_LEN + i % MAX_LEN) % MAX_LEN;
    a.seconds(lent.times[k]);
    a.float(lent.positions[2 * k]);
    a.float(lent.positions[2 * k + 1]);
}

// Its length, then a time and a position each.
pub fn history(a: &mut Answer, h: History, lent: &Arrays) {
    let len = h.len();
    a.count(len);
    for i in 0..len {
        sample(a, h, lent, i);
    }
}

pub fn place(a: &mut Answer, p: Place) {
    a.maybe(p.latest_pos);
    a.maybe(p.interact_pos);
    a.vec(p.delta);
    a.maybe(p.motion);
    a.vec(p.velocity);
    a.vec(p.direction);
}

pub fn press(a: &mut Answer, h: Held, past: ClickPast, started: bool) {
    let d = h.down;
    a.bits(&[d.primary, d.secondary, d.middle, d.extra1, d.extra2]);
    a.maybe(h.press_origin);
    a.maybe(h.press_start_time);
    a.flag(past.has_moved_too_much_for_a_click);
    a.flag(started);
    a.maybe(past.last_click_pos);
    a.seconds(past.last_click_time);
    a.seconds(past.last_last_click_time);
}

pub fn wheel(a: &mut Answer, w: WheelState) {
    a.word(w.status.number());
    a.word(w.source.number());
    a.flags(w.modifiers);
    a.seconds(w.last_wheel_event);
    a.vec(w.unprocessed_wheel_delta);
    a.vec(w.smooth_wheel_delta);
}

pub fn options(a: &mut Answer, o: InputOptions) {
    a.float(o.line_scroll_speed);
    a.float(o.scroll_zoom_speed);
    a.float(o.max_click_dist);
    a.seconds(o.max_click_duration);
    a.seconds(o.max_double_click_delay);
    a.word(
        o.zoom_modifier.number()
            + 32 * o.horizontal_scroll_modifier.number()
            + 1024 * o.vertical_scroll_modifier.number(),
    );
}

pub fn interaction(a: &mut Answer, i: Interaction, tally: u32) {
    a.maybe_id(i.potential_click_id);
    a.maybe_id(i.potential_drag_id);
    a.maybe_id(i.dragged);
    a.word(tally);
}
