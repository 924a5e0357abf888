// What an event does to the presses and clicks, and to the pass's pointer events.
// These end at `MAX_EVENTS`: one more is left out, and the rest goes on.
// Kept (plain): lent one by one: of a struct that holds a `&mut` each clause would have to say what stands behind it afterwards.
ghost use Rattle.std.specs.Prelude.{◌≡◌, true, false, List, ℕ, Float};
ghost use Rattle.model.specs.Types.{PointerMoved, Button};
ghost use Rattle.model.specs.Pass.{fresh_press};
ghost use Rattle.pointer_state.specs.View.{press, Stepped};

use data::modifiers::Modifiers;
use data::options::InputOptions;
use data::pointer::{PointerButton, PointerEvent};
use emath::pos2::Pos2;
use pointer_clicks::{
    ClickPast, Held, buttons, click_of, could_any_button_be_click, moved_too_much, remember_click,
    set_down,
};
use pointer_events::{CODES, PLACES, push};

#[derive(Clone, Copy)]
pub struct Press {
    pub held: Held,
    pub past: ClickPast,
}

impl Press {
    // Default for PointerState
    pub fn fresh() -> Press
        ensures { (codes : List ℕ) (positions : List Float) → press codes positions result ≡ fresh_press }
    {
        let held = Held {
            down: buttons(false, false, false, false, false),
            press_origin: None,
            press_start_time: None,
            event_count: 0,
        };
        let past = ClickPast {
            has_moved_too_much_for_a_click: false,
            last_click_pos: None,
            last_click_time: -1.0 / 0.0,
            last_last_click_time: -1.0 / 0.0,
        };
        Press { held, past }
    }
}

pub fn moved(
    s: Press,
    codes: &mut [u32; CODES],
    positions: &mut [f32; PLACES],
    options: InputOptions,
    pos: Pos2,
) -> Press
    ensures { (time : Float) → Stepped options time (PointerMoved pos) codes.old positions.old s codes.new positions.new result }
{
    let spoilt = moved_too_much(
        s.past.has_moved_too_much_for_a_click,
        options,
        pos,
        s.held.press_origin,
    );
    let count = push(
        codes,
        positions,
        s.held.event_count,
        PointerEvent::Moved(pos),
    );
    let held = Held {
        event_count: count,
        ..s.held
    };
    let past = ClickPast {
        has_moved_too_much_for_a_click: spoilt,
        ..s.past
    };
    Press { held, past }
}

fn pressed(
    s: Press,
    codes: &mut [u32; CODES],
    positions: &mut [f32; PLACES],
    time: f64,
    pos: Pos2,
    button: PointerButton,
) -> Press
    ensures { (options : InputOptions) (modifiers : Modifiers) → Stepped options time (Button pos button true modifiers) codes.old positions.old s codes.new positions.new result }
{
    let down = set_down(s.held.down, button, true);
    let count = push(
        codes,
        positions,
        s.held.event_count,
        PointerEvent::Pressed(pos, button),
    );
    let held = Held {
        down,
        press_origin: Some(pos),
        press_start_time: Some(time),
        event_count: count,
    };
    let past = ClickPast {
        has_moved_too_much_for_a_click: false,
        ..s.past
    };
    Press { held, past }
}

// Whether it clicks is judged by `before`, in which the button is not yet marked up.
fn released(
    s: Press,
    codes: &mut [u32; CODES],
    positions: &mut [f32; PLACES],
    options: InputOptions,
    time: f64,
    pos: Pos2,
    button: PointerButton,
    modifiers: Modifiers,
) -> Press
    ensures { Stepped options time (Button pos button false modifiers) codes.old positions.old s codes.new positions.new result }
{
    let before = s.held;
    let down = set_down(before.down, button, false);
    let up = Held {
        down,
        press_origin: None,
        press_start_time: None,
        ..before
    };
    let moved = s.past.has_moved_too_much_for_a_click;
    let clicked = could_any_button_be_click(before, codes, options, time, moved);
    let click = clicked.then(|| click_of(options, time, pos, modifiers, s.past));
    let past = if clicked {
        remember_click(time, pos, s.past)
    } else {
        s.past
    };
    let e = PointerEvent::Released(click, button);
    let count = push(codes, positions, before.event_count, e);
    let held = Held {
        event_count: count,
        ..up
    };
    Press { held, past }
}

pub fn button_event(
    s: Press,
    codes: &mut [u32; CODES],
    positions: &mut [f32; PLACES],
    options: InputOptions,
    time: f64,
    pos: Pos2,
    button: PointerButton,
    is_pressed: bool,
    modifiers: Modifiers,
) -> Press
    ensures { Stepped options time (Button pos button is_pressed modifiers) codes.old positions.old s codes.new positions.new result }
{
    if is_pressed {
        return pressed(s, codes, positions, time, pos, button);
    }
    released(s, codes, positions, options, time, pos, button, modifiers)
}
