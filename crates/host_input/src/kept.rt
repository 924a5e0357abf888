// The records written to the memory, each field at its place of places.rt.
ghost use Rattle.std.specs.Prelude.{◌≡◌, ◌+◌, ◌<◌};
ghost use Rattle.host_input.specs.Places.{float_count, flag_count};
ghost use Rattle.host_input.specs.Kept.{seconds_of, floats_of, counts_of, flags_of, keys_of};
ghost use Rattle.host_input.specs.Kept.{with_pair, with_pos, with_screen, with_place, with_wheel, with_sums, with_modifiers, with_buttons, with_options, with_status};

use crate::places;
use crate::places::{COUNTS, FLAGS, FLOATS, KEYS, SECONDS};
use data::modifiers::Modifiers;
use data::mouse_wheel::{MouseWheelSource, Status, WheelState};
use data::options::InputOptions;
use data::pointer::ButtonsDown;
use emath::pos2::Pos2;
use emath::vec2::Vec2;
use input_state::screen::Screen;
use input_state::state::InputState;
use input_state::sums::Sums;
use pointer_place::Place;

pub fn seconds(s: InputState) -> [f64; SECONDS]
    ensures { result ≡ seconds_of s }
{
    let time = s.clock.time;
    [
        time,
        s.clock.pointer_time,
        s.screen.options.max_click_duration,
        s.screen.options.max_double_click_delay,
        s.pointer.press.held.press_start_time.unwrap_or(time),
        s.pointer.press.past.last_click_time,
        s.pointer.press.past.last_last_click_time,
        s.pointer.last_move_time.unwrap_or(time),
        s.wheel.last_wheel_event,
    ]
}

// The coordinates of a position or a vector.
fn put(floats: &mut [f32; FLOATS], at: usize, x: f32, y: f32)
    requires { at + 1 < float_count }
    ensures { floats.new ≡ with_pair at x y floats.old }
{
    floats[at] = x;
    floats[at + 1] = y;
}

fn put_pos(floats: &mut [f32; FLOATS], at: usize, p: Option<Pos2>)
    requires { at + 1 < float_count }
    ensures { floats.new ≡ with_pos at p floats.old }
{
    let q = p.unwrap_or(Pos2::zero());
    put(floats, at, q.x, q.y);
}

fn put_screen(floats: &mut [f32; FLOATS], s: Screen)
    ensures { floats.new ≡ with_screen s floats.old }
{
    let min = s.viewport_rect.min;
    let max = s.viewport_rect.max;
    put(floats, places::VIEWPORT_MIN, min.x, min.y);
    put(floats, places::VIEWPORT_MAX, max.x, max.y);
    floats[places::PIXELS_PER_POINT] = s.pixels_per_point;
    floats[places::LINE_SCROLL_SPEED] = s.options.line_scroll_speed;
    floats[places::SCROLL_ZOOM_SPEED] = s.options.scroll_zoom_speed;
    floats[places::MAX_CLICK_DIST] = s.options.max_click_dist;
}

fn put_place(floats: &mut [f32; FLOATS], p: Place)
    ensures { floats.new ≡ with_place p floats.old }
{
    let motion = p.motion.unwrap_or(Vec2::zero());
    put_pos(floats, places::LATEST_POS, p.latest_pos);
    put_pos(floats, places::INTERACT_POS, p.interact_pos);
    put(floats, places::DELTA, p.delta.x, p.delta.y);
    put(floats, places::MOTION, motion.x, motion.y);
    put(floats, places::VELOCITY, p.velocity.x, p.velocity.y);
    put(floats, places::DIRECTION, p.direction.x, p.direction.y);
}

fn put_wheel(floats: &mut [f32; FLOATS], w: WheelState)
    ensures { floats.new ≡ with_wheel w floats.old }
{
    let left = w.unprocessed_wheel_delta;
    let smooth = w.smooth_wheel_delta;
    put(floats, places::UNPROCESSED_WHEEL_DELTA, left.x, left.y);
    put(floats, places::SMOOTH_WHEEL_DELTA, smooth.x, smooth.y);
}

fn put_sums(floats: &mut [f32; FLOATS], s: Sums)
    ensures { floats.new ≡ with_sums s floats.old }
{
    let scroll = s.smooth_scroll_delta;
    floats[places::ZOOM_FACTOR] = s.zoom_factor;
    floats[places::ZOOM_EXPONENT] = s.zoom_exponent;
    floats[places::ROTATION_RADIANS] = s.rotation_radians;
    put(floats, places::SMOOTH_SCROLL_DELTA, scroll.x, scroll.y);
}

pub fn floats(s: InputState) -> [f32; FLOATS]
    ensures { result ≡ floats_of s }
{
    let press = s.pointer.press;
    let mut to = [0.0; FLOATS];
    to[places::UNSTABLE_DT] = s.clock.unstable_dt;
    to[places::STABLE_DT] = s.clock.stable_dt;
    to[places::PREDICTED_DT] = s.clock.predicted_dt;
    put_screen(&mut to, s.screen);
    put_place(&mut to, s.pointer.place);
    put_pos(&mut to, places::PRESS_ORIGIN, press.held.press_origin);
    put_pos(&mut to, places::LAST_CLICK_POS, press.past.last_click_pos);
    put_wheel(&mut to, s.wheel);
    put_sums(&mut to, s.sums);
    to
}

// How many devices are known stands last.
pub fn counts(s: InputState, devices: usize) -> [usize; COUNTS]
    ensures { result ≡ counts_of s devices }
{
    let history = s.pointer.place.history;
    let held = s.pointer.press.held;
    [history.start, history.len, held.event_count, devices]
}

// Five flags, in 01's order of the bits.
// Kept (plain): like `put_buttons`, of a record with other fields; one function for both would be given five flags by each call.
fn put_modifiers(flags: &mut [bool; FLAGS], at: usize, m: Modifiers)
    requires { at + 4 < flag_count }
    ensures { flags.new ≡ with_modifiers m at flags.old }
{
    flags[at] = m.alt;
    flags[at + 1] = m.ctrl;
    flags[at + 2] = m.shift;
    flags[at + 3] = m.mac_cmd;
    flags[at + 4] = m.command;
}

// Kept (plain): like `put_modifiers`, as is said there.
fn put_buttons(flags: &mut [bool; FLAGS], at: usize, d: ButtonsDown)
    requires { at + 4 < flag_count }
    ensures { flags.new ≡ with_buttons d at flags.old }
{
    flags[at] = d.primary;
    flags[at + 1] = d.secondary;
    flags[at + 2] = d.middle;
    flags[at + 3] = d.extra1;
    flags[at + 4] = d.extra2;
}

fn put_options(flags: &mut [bool; FLAGS], o: InputOptions)
    ensures { flags.new ≡ with_options o flags.old }
{
    let horizontal = o.horizontal_scroll_modifier;
    let vertical = o.vertical_scroll_modifier;
    put_modifiers(flags, places::ZOOM_MODIFIER, o.zoom_modifier);
    put_modifiers(flags, places::HORIZONTAL_SCROLL_MODIFIER, horizontal);
    put_modifiers(flags, places::VERTICAL_SCROLL_MODIFIER, vertical);
}

fn put_status(flags: &mut [bool; FLAGS], w: WheelState)
    ensures { flags.new ≡ with_status w flags.old }
{
    put_modifiers(flags, places::WHEEL_MODIFIERS, w.modifiers);
    flags[places::IS_SMOOTHING] = w.status == Status::Smoothing;
    flags[places::IS_IN_TOUCH] = w.status == Status::InTouch;
    flags[places::IS_WHEEL] = w.source == MouseWheelSource::Wheel;
    flags[places::IS_TRACKPAD] = w.source == MouseWheelSource::Trackpad;
    flags[places::IS_MOMENTUM] = w.source == MouseWheelSource::Momentum;
}

pub fn flags(s: InputState) -> [bool; FLAGS]
    ensures { result ≡ flags_of s }
{
    let place = s.pointer.place;
    let held = s.pointer.press.held;
    let past = s.pointer.press.past;
    let mut to = [false; FLAGS];
    to[places::FOCUSED] = s.screen.focused;
    put_options(&mut to, s.screen.options);
    to[places::HAS_LATEST_POS] = place.latest_pos.is_some();
    to[places::HAS_INTERACT_POS] = place.interact_pos.is_some();
    to[places::HAS_MOTION] = place.motion.is_some();
    put_buttons(&mut to, places::DOWN, held.down);
    to[places::HAS_PRESS_ORIGIN] = held.press_origin.is_some();
    to[places::HAS_PRESS_START_TIME] = held.press_start_time.is_some();
    to[places::HAS_MOVED_TOO_MUCH_FOR_A_CLICK] = past.has_moved_too_much_for_a_click;
    to[places::HAS_LAST_CLICK_POS] = past.last_click_pos.is_some();
    to[places::STARTED_DECIDEDLY_DRAGGING] = s.pointer.started_decidedly_dragging;
    to[places::HAS_LAST_MOVE_TIME] = s.pointer.last_move_time.is_some();
    put_status(&mut to, s.wheel);
    put_modifiers(&mut to, places::MODIFIERS, s.keys.modifiers);
    to[places::FEED_EMPTY] = s.keys.feed_empty;
    to
}

pub fn keys_down(s: InputState) -> [u64; KEYS]
    ensures { result ≡ keys_of s }
{
    s.keys.down.words
}
