// Records read from the memory. A question reads only those that it is about.
ghost use Rattle.std.specs.Prelude.{◌≡◌, ◌+◌, ◌<◌};
ghost use Rattle.host_input.specs.Places.{float_count, flag_count};
ghost use Rattle.host_input.specs.Held.{pos_at, vec_at, maybe_pos_at, modifiers_at, buttons_at, clock_of, options_of, screen_of, place_of, held_of, past_of, press_of, pointer_of, wheel_of, keys_of, sums_of, input_of};

use crate::places;
use crate::places::{COUNTS, FLAGS, FLOATS, KEYS, SECONDS};
use data::modifiers::Modifiers;
use data::mouse_wheel::WheelState;
use data::options::InputOptions;
use data::pointer::ButtonsDown;
use emath::pos2::Pos2;
use emath::rect::Rect;
use emath::vec2::Vec2;
use emath_history::history::History;
use host_values::{source, status};
use input_state::clock::Clock;
use input_state::pointer::Pointer;
use input_state::screen::Screen;
use input_state::state::InputState;
use input_state::sums::Sums;
use key_state::bits::Set256;
use key_state::keys::Keys;
use pointer_clicks::{ClickPast, Held, buttons};
use pointer_place::Place;
use pointer_state::press::Press;

// ---- values of several places

// Kept (plain): like `vec_at`; egui's positions and vectors are two types, and one function for both would give a pair that each call takes apart.
fn pos_at(floats: &[f32; FLOATS], at: usize) -> Pos2
    requires { at + 1 < float_count }
    ensures { result ≡ pos_at floats.now at }
{
    Pos2 {
        x: floats[at],
        y: floats[at + 1],
    }
}

// Kept (plain): like `pos_at`, as is said there.
fn vec_at(floats: &[f32; FLOATS], at: usize) -> Vec2
    requires { at + 1 < float_count }
    ensures { result ≡ vec_at floats.now at }
{
    Vec2 {
        x: floats[at],
        y: floats[at + 1],
    }
}

fn maybe_pos_at(given: bool, floats: &[f32; FLOATS], at: usize) -> Option<Pos2>
    requires { at + 1 < float_count }
    ensures { result ≡ maybe_pos_at given floats.now at }
{
    given.then_some(pos_at(floats, at))
}

fn modifiers_at(flags: &[bool; FLAGS], at: usize) -> Modifiers
    requires { at + 4 < flag_count }
    ensures { result ≡ modifiers_at flags.now at }
{
    Modifiers {
        alt: flags[at],
        ctrl: flags[at + 1],
        shift: flags[at + 2],
        mac_cmd: flags[at + 3],
        command: flags[at + 4],
    }
}

fn buttons_at(flags: &[bool; FLAGS], at: usize) -> ButtonsDown
    requires { at + 4 < flag_count }
    ensures { result ≡ buttons_at flags.now at }
{
    buttons(
        flags[at],
        flags[at + 1],
        flags[at + 2],
        flags[at + 3],
        flags[at + 4],
    )
}

// ---- records

pub fn clock(seconds: &[f64; SECONDS], floats: &[f32; FLOATS]) -> Clock
    ensures { result ≡ clock_of seconds.now floats.now }
{
    Clock {
        time: seconds[places::TIME],
        pointer_time: seconds[places::POINTER_TIME],
        unstable_dt: floats[places::UNSTABLE_DT],
        stable_dt: floats[places::STABLE_DT],
        predicted_dt: floats[places::PREDICTED_DT],
    }
}

fn options(seconds: &[f64; SECONDS], floats: &[f32; FLOATS], flags: &[bool; FLAGS]) -> InputOptions
    ensures { result ≡ options_of seconds.now floats.now flags.now }
{
    InputOptions {
        line_scroll_speed: floats[places::LINE_SCROLL_SPEED],
        scroll_zoom_speed: floats[places::SCROLL_ZOOM_SPEED],
        max_click_dist: floats[places::MAX_CLICK_DIST],
        max_click_duration: seconds[places::MAX_CLICK_DURATION],
        max_double_click_delay: seconds[places::MAX_DOUBLE_CLICK_DELAY],
        zoom_modifier: modifiers_at(flags, places::ZOOM_MODIFIER),
        horizontal_scroll_modifier: modifiers_at(flags, places::HORIZONTAL_SCROLL_MODIFIER),
        vertical_scroll_modifier: modifiers_at(flags, places::VERTICAL_SCROLL_MODIFIER),
    }
}

pub fn screen(seconds: &[f64; SECONDS], floats: &[f32; FLOATS], flags: &[bool; FLAGS]) -> Screen
    ensures { result ≡ screen_of seconds.now floats.now flags.now }
{
    Screen {
        viewport_rect: Rect {
            min: pos_at(floats, places::VIEWPORT_MIN),
            max: pos_at(floats, places::VIEWPORT_MAX),
        },
        pixels_per_point: floats[places::PIXELS_PER_POINT],
        focused: flags[places::FOCUSED],
        options: options(seconds, floats, flags),
    }
}

pub fn place(floats: &[f32; FLOATS], counts: &[usize; COUNTS], flags: &[bool; FLAGS]) -> Place
    ensures { result ≡ place_of floats.now counts.now flags.now }
{
    Place {
        latest_pos: maybe_pos_at(flags[places::HAS_LATEST_POS], floats, places::LATEST_POS),
        interact_pos: maybe_pos_at(
            flags[places::HAS_INTERACT_POS],
            floats,
            places::INTERACT_POS,
        ),
        delta: vec_at(floats, places::DELTA),
        motion: flags[places::HAS_MOTION].then_some(vec_at(floats, places::MOTION)),
        velocity: vec_at(floats, places::VELOCITY),
        direction: vec_at(floats, places::DIRECTION),
        history: History {
            start: counts[places::HISTORY_START],
            len: counts[places::HISTORY_LEN],
        },
    }
}

fn held(
    seconds: &[f64; SECONDS],
    floats: &[f32; FLOATS],
    counts: &[usize; COUNTS],
    flags: &[bool; FLAGS],
) -> Held
    ensures { result ≡ held_of seconds.now floats.now counts.now flags.now }
{
    Held {
        down: buttons_at(flags, places::DOWN),
        press_origin: maybe_pos_at(
            flags[places::HAS_PRESS_ORIGIN],
            floats,
            places::PRESS_ORIGIN,
        ),
        press_start_time: flags[places::HAS_PRESS_START_TIME].then_some(
            seconds[places::PRESS_START_TIME],
        ),
        event_count: counts[places::EVENT_COUNT],
    }
}

fn past(seconds: &[f64; SECONDS], floats: &[f32; FLOATS], flags: &[bool; FLAGS]) -> ClickPast
    ensures { result ≡ past_of seconds.now floats.now flags.now }
{
    ClickPast {
        has_moved_too_much_for_a_click: flags[places::HAS_MOVED_TOO_MUCH_FOR_A_CLICK],
        last_click_pos: maybe_pos_at(
            flags[places::HAS_LAST_CLICK_POS],
            floats,
            places::LAST_CLICK_POS,
        ),
        last_click_time: seconds[places::LAST_CLICK_TIME],
        last_last_click_time: seconds[places::LAST_LAST_CLICK_TIME],
    }
}

pub fn press(
    seconds: &[f64; SECONDS],
    floats: &[f32; FLOATS],
    counts: &[usize; COUNTS],
    flags: &[bool; FLAGS],
) -> Press
    ensures { result ≡ press_of seconds.now floats.now counts.now flags.now }
{
    Press {
        held: held(seconds, floats, counts, flags),
        past: past(seconds, floats, flags),
    }
}

pub fn pointer(
    seconds: &[f64; SECONDS],
    floats: &[f32; FLOATS],
    counts: &[usize; COUNTS],
    flags: &[bool; FLAGS],
) -> Pointer
    ensures { result ≡ pointer_of seconds.now floats.now counts.now flags.now }
{
    Pointer {
        place: place(floats, counts, flags),
        press: press(seconds, floats, counts, flags),
        started_decidedly_dragging: flags[places::STARTED_DECIDEDLY_DRAGGING],
        last_move_time: flags[places::HAS_LAST_MOVE_TIME].then_some(
            seconds[places::LAST_MOVE_TIME],
        ),
    }
}

pub fn wheel(seconds: &[f64; SECONDS], floats: &[f32; FLOATS], flags: &[bool; FLAGS]) -> WheelState
    ensures { result ≡ wheel_of seconds.now floats.now flags.now }
{
    WheelState {
        status: status(flags[places::IS_SMOOTHING], flags[places::IS_IN_TOUCH]),
        source: source(
            flags[places::IS_WHEEL],
            flags[places::IS_TRACKPAD],
            flags[places::IS_MOMENTUM],
        ),
        modifiers: modifiers_at(flags, places::WHEEL_MODIFIERS),
        last_wheel_event: seconds[places::LAST_WHEEL_EVENT],
        unprocessed_wheel_delta: vec_at(floats, places::UNPROCESSED_WHEEL_DELTA),
        smooth_wheel_delta: vec_at(floats, places::SMOOTH_WHEEL_DELTA),
    }
}

pub fn keys(flags: &[bool; FLAGS], keys_down: &[u64; KEYS]) -> Keys
    ensures { result ≡ keys_of flags.now keys_down.now }
{
    Keys {
        down: Set256 { words: *keys_down },
        modifiers: modifiers_at(flags, places::MODIFIERS),
        feed_empty: flags[places::FEED_EMPTY],
    }
}

pub fn sums(floats: &[f32; FLOATS]) -> Sums
    ensures { result ≡ sums_of floats.now }
{
    Sums {
        zoom_factor: floats[places::ZOOM_FACTOR],
        zoom_exponent: floats[places::ZOOM_EXPONENT],
        rotation_radians: floats[places::ROTATION_RADIANS],
        smooth_scroll_delta: vec_at(floats, places::SMOOTH_SCROLL_DELTA),
    }
}

pub fn input(
    seconds: &[f64; SECONDS],
    floats: &[f32; FLOATS],
    counts: &[usize; COUNTS],
    flags: &[bool; FLAGS],
    keys_down: &[u64; KEYS],
) -> InputState
    ensures { result ≡ input_of seconds.now floats.now counts.now flags.now keys_down.now }
{
    InputState {
        clock: clock(seconds, floats),
        screen: screen(seconds, floats, flags),
        pointer: pointer(seconds, floats, counts, flags),
        wheel: wheel(seconds, floats, flags),
        keys: keys(flags, keys_down),
        sums: sums(floats),
    }
}
