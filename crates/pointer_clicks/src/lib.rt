// Which buttons are down, what presses and clicks leave behind, and what is judged by them: clicks and drags.
#![tactic(auto)]

ghost use Rattle.std.specs.Prelude.{◌≡◌, true, Some, not, ◌||◌, ◌&&◌, List, ℕ, Float};
ghost use Rattle.std.specs.Float.Ieee.{lt};
ghost use Rattle.emath.specs.Vec.{length};
ghost use Rattle.model.specs.Pointer.{recount, set_down, button_down, any_down, buttons, press_too_long, near, click_count, too_far, click_of, remember_click};
ghost use Rattle.model.specs.Pointer.{could_any_button_be_click, is_decidedly_dragging, clear_events, move_time};
ghost use Rattle.pointer_clicks.specs.View.{held, past};

use data::bits::bit_number;
use data::limits::BUTTON_COUNT;
use data::modifiers::Modifiers;
use data::options::InputOptions;
use data::pointer::{ButtonsDown, Click, PointerButton};
use emath::pos2::Pos2;
use emath::vec2::Vec2;
use pointer_events::{CODES, EventKind, any};

// The pass's events are the first `event_count` in the lent arrays.
#[derive(Clone, Copy)]
pub struct Held {
    pub down: ButtonsDown,
    pub press_origin: Option<Pos2>,
    pub press_start_time: Option<f64>,
    pub event_count: usize,
}

#[derive(Clone, Copy)]
pub struct ClickPast {
    pub has_moved_too_much_for_a_click: bool,
    pub last_click_pos: Option<Pos2>,
    pub last_click_time: f64,
    pub last_last_click_time: f64,
}

// How many buttons are down after one that was down or up is set. A number that no operation gave can be wrong; it doesn't wrap.
#[tactic(auto, unfolding(model::specs::Pointer::recount))]
fn recount(count: u8, was: bool, pressed: bool) -> u8
    ensures { result ≡ recount was pressed count }
{
    match (was, pressed) {
        (false, true) if (count as u32) < BUTTON_COUNT => count + 1,
        (true, false) => count.saturating_sub(1),
        _ => count,
    }
}

#[tactic(auto, unfolding(model::specs::Pointer::set_down, model::specs::Pointer::button_down))]
pub fn set_down(down: ButtonsDown, button: PointerButton, pressed: bool) -> ButtonsDown
    ensures { result ≡ set_down button pressed down }
{
    let mut d = ButtonsDown {
        count: recount(down.count, button_down(down, button), pressed),
        ..down
    };
    match button {
        PointerButton::Primary => d.primary = pressed,
        PointerButton::Secondary => d.secondary = pressed,
        PointerButton::Middle => d.middle = pressed,
        PointerButton::Extra1 => d.extra1 = pressed,
        PointerButton::Extra2 => d.extra2 = pressed,
    }
    d
}

#[tactic(auto, unfolding(model::specs::Pointer::button_down))]
pub fn button_down(down: ButtonsDown, button: PointerButton) -> bool
    ensures { result ≡ button_down button down }
{
    match button {
        PointerButton::Primary => down.primary,
        PointerButton::Secondary => down.secondary,
        PointerButton::Middle => down.middle,
        PointerButton::Extra1 => down.extra1,
        PointerButton::Extra2 => down.extra2,
    }
}

#[tactic(auto, unfolding(model::specs::Pointer::any_down))]
pub fn any_down(down: ButtonsDown) -> bool
    ensures { result ≡ any_down down }
{
    0 < down.count
}

// Five flags with their number.
#[tactic(auto, unfolding(model::specs::Pointer::buttons))]
pub fn buttons(
    primary: bool,
    secondary: bool,
    middle: bool,
    extra1: bool,
    extra2: bool,
) -> ButtonsDown
    ensures { result ≡ buttons primary secondary middle extra1 extra2 }
{
    let left = bit_number(primary) + bit_number(secondary) + bit_number(middle);
    let count = left + bit_number(extra1) + bit_number(extra2);
    ButtonsDown {
        primary,
        secondary,
        middle,
        extra1,
        extra2,
        count: count as u8,
    }
}

// Is the press older than max_click_duration.
#[tactic(auto, unfolding(model::specs::Pointer::press_too_long))]
pub fn press_too_long(options: InputOptions, time: f64, start: Option<f64>) -> bool
    ensures { result ≡ press_too_long options time start }
{
    start.is_some_and(|t| time - t > options.max_click_duration)
}

pub fn could_any_button_be_click(
    h: Held,
    codes: &[u32; CODES],
    options: InputOptions,
    time: f64,
    moved: bool,
) -> bool
    ensures { (positions : List Float) → result ≡ could_any_button_be_click options time (held codes.now positions h) moved }
{
    if moved {
        return false;
    }
    if press_too_long(options, time, h.press_start_time) {
        return false;
    }
    if any_down(h.down) {
        return true;
    }
    any(
        codes,
        h.event_count,
        |e| matches!(e, EventKind::Released(_, _)),
    )
}

pub fn is_decidedly_dragging(
    h: Held,
    codes: &[u32; CODES],
    options: InputOptions,
    time: f64,
    moved: bool,
) -> bool
    ensures { (positions : List Float) → result ≡ is_decidedly_dragging options time (held codes.now positions h) moved }
{
    if could_any_button_be_click(h, codes, options, time, moved) {
        return false;
    }
    let n = h.event_count;
    if any(codes, n, |e| matches!(e, EventKind::Pressed(_))) {
        return false;
    }
    if any(codes, n, |e| matches!(e, EventKind::Released(Some(_), _))) {
        return false;
    }
    if any_down(h.down) {
        return true;
    }
    any(codes, n, |e| matches!(e, EventKind::Released(_, _)))
}

// Close enough to the last click, if there was one, for a double click.
#[tactic(auto, unfolding(model::specs::Pointer::near))]
fn near(options: InputOptions, pos: Pos2, last: Option<Pos2>) -> bool
    ensures { result ≡ near options pos last }
{
    let limit = options.max_click_dist * options.max_click_dist;
    let click_dist_sq = last.map_or(0.0, |p| p.distance_sq(pos));
    click_dist_sq < limit
}

#[tactic(auto, unfolding(model::specs::Pointer::click_count, model::specs::Pointer::count_of))]
fn click_count(p: ClickPast, options: InputOptions, time: f64, pos: Pos2) -> u32
    ensures { result ≡ click_count options time pos (past p) }
{
    let delay = options.max_double_click_delay;
    if time - p.last_click_time < delay {
        if near(options, pos, p.last_click_pos) {
            if p.last_click_time - p.last_last_click_time < delay {
                return 3;
            }
            return 2;
        }
        return 1;
    }
    1
}

// A little more than 1: times a distance, it is past the rim of the circle.
const PAST_THE_RIM: f32 = 1.0009765625;

// Is v longer than that? But for a v close to the rim the squares tell, without a root. (A distance below 0 is in no pass, but
// could be in a state.)
fn is_longer(v: Vec2, dist: f32) -> bool
    ensures { result ≡ lt dist (length v) }
{
    if 0.0 <= dist {
        let square = v.length_sq64();
        let d = ieee::widen::widen(dist);
        if square <= d * d {
            return false;
        }
        let past = dist * PAST_THE_RIM;
        if dist < past {
            let e = ieee::widen::widen(past);
            if e * e <= square {
                return true;
            }
        }
    }
    v.length() > dist
}

// A move that is too far from the press for a click.
#[tactic(auto, unfolding(model::specs::Pointer::too_far, emath::specs::Vec::distance))]
fn too_far(options: InputOptions, pos: Pos2, origin: Option<Pos2>) -> bool
    ensures { result ≡ too_far options pos origin }
{
    origin.is_some_and(|p| is_longer(p - pos, options.max_click_dist))
}

// Of a click that is spoilt already no distance is taken.
pub fn moved_too_much(moved: bool, options: InputOptions, pos: Pos2, origin: Option<Pos2>) -> bool
    ensures { result ≡ (moved || too_far options pos origin) }
{
    moved || too_far(options, pos, origin)
}

// The click of a release that clicks.
#[tactic(auto, unfolding(model::specs::Pointer::click_of))]
pub fn click_of(
    options: InputOptions,
    time: f64,
    pos: Pos2,
    modifiers: Modifiers,
    p: ClickPast,
) -> Click
    ensures { Some result ≡ click_of true options time pos modifiers (past p) }
{
    Click {
        pos,
        count: click_count(p, options, time, pos),
        modifiers,
    }
}

// What is known of clicks after one more.
#[tactic(auto, unfolding(model::specs::Pointer::remember_click))]
pub fn remember_click(time: f64, pos: Pos2, p: ClickPast) -> ClickPast
    ensures { past result ≡ remember_click true time pos (past p) }
{
    ClickPast {
        last_click_pos: Some(pos),
        last_click_time: time,
        last_last_click_time: p.last_click_time,
        ..p
    }
}

// Did is_decidedly_dragging go from false to true in this pass; `was` is its answer before the pass.
pub fn started_decidedly_dragging(
    h: Held,
    codes: &[u32; CODES],
    options: InputOptions,
    time: f64,
    moved: bool,
    was: bool,
) -> bool
    ensures { (positions : List Float) → result ≡ (is_decidedly_dragging options time (held codes.now positions h) moved && not was) }
{
    let is = is_decidedly_dragging(h, codes, options, time, moved);
    is & !was
}

// last_move_time after a pass: of a pointer that moves no event is looked at.
pub fn last_move_time(
    h: Held,
    codes: &[u32; CODES],
    velocity: Vec2,
    time: f64,
    old: Option<f64>,
) -> Option<f64>
    ensures { (positions : List Float) → result ≡ move_time time (held codes.now positions h).pointer_events velocity old }
{
    let zero = Vec2::zero();
    if velocity != zero {
        return Some(time);
    }
    if any(codes, h.event_count, |e| matches!(e, EventKind::Moved)) {
        return Some(time);
    }
    old
}

// pointer_events.clear()
#[tactic(auto, unfolding(model::specs::Pointer::clear_events, pointer_events::specs::Events::events, pointer_events::specs::Events::events_from))]
pub fn clear_events(h: Held) -> Held
    ensures { (codes : List ℕ) (positions : List Float) → held codes positions result ≡ clear_events (held codes positions h) }
{
    Held {
        event_count: 0,
        ..h
    }
}
