// Buttons, presses, clicks and the pass's events.
ghost use Rattle.std.specs.Prelude.{◌≡◌, List, ℕ, Float, length};
ghost use Rattle.model.specs.Pointer.{any, is_long_press};
ghost use Rattle.model.specs.Questions.{bool, number, maybe_position, maybe_seconds, clicks_button_times};
ghost use Rattle.model.specs.Questions as ask;
ghost use Rattle.pointer_events.specs.Events.{event_or_none};
ghost use Rattle.pointer_clicks.specs.View.{held};
ghost use Rattle.pointer_state.specs.View.{press};
ghost use Rattle.pointer_questions.specs.Answers.{OfHeld, OfButtons, OfPast};

use data::options::InputOptions;
use data::pointer::{PointerButton, PointerEvent};
use emath::pos2::Pos2;
use pointer_clicks::{ClickPast, Held, press_too_long};
use pointer_events::{CODES, EventKind, PLACES, any, counted, event_at};
use pointer_state::press::Press;

#[tactic(auto, unfolding(model::specs::Questions::reply))]
pub fn press_origin(h: Held) -> Option<Pos2>
    ensures { OfButtons ask.press_origin h (maybe_position result) }
{
    h.press_origin
}

#[tactic(auto, unfolding(model::specs::Questions::reply))]
pub fn press_start_time(h: Held) -> Option<f64>
    ensures { OfButtons ask.press_start_time h (maybe_seconds result) }
{
    h.press_start_time
}

// `time` is that of the pointer's last pass.
pub fn time_since_last_click(p: ClickPast, time: f64) -> f32
    ensures { OfPast ask.time_since_last_click time p (number result) }
{
    ieee_narrow::narrow(time - p.last_click_time)
}

#[tactic(auto, unfolding(model::specs::Questions::reply, pointer_events::specs::Events::kind_of, model::specs::Pointer::is_press))]
pub fn any_pressed(h: Held, codes: &[u32; CODES]) -> bool
    ensures { OfHeld ask.any_pressed codes.now h (bool result) }
{
    any(codes, h.event_count, |e| matches!(e, EventKind::Pressed(_)))
}

#[tactic(auto, unfolding(model::specs::Questions::reply, pointer_events::specs::Events::kind_of, model::specs::Pointer::is_release))]
pub fn any_released(h: Held, codes: &[u32; CODES]) -> bool
    ensures { OfHeld ask.any_released codes.now h (bool result) }
{
    any(
        codes,
        h.event_count,
        |e| matches!(e, EventKind::Released(_, _)),
    )
}

#[tactic(auto, unfolding(model::specs::Questions::reply, pointer_events::specs::Events::kind_of, model::specs::Pointer::is_click))]
pub fn any_click(h: Held, codes: &[u32; CODES]) -> bool
    ensures { OfHeld ask.any_click codes.now h (bool result) }
{
    any(
        codes,
        h.event_count,
        |e| matches!(e, EventKind::Released(Some(_), _)),
    )
}

#[tactic(auto, unfolding(model::specs::Questions::reply))]
pub fn any_down(h: Held) -> bool
    ensures { OfButtons ask.any_down h (bool result) }
{
    pointer_clicks::any_down(h.down)
}

#[tactic(auto, unfolding(model::specs::Questions::reply))]
pub fn button_down(h: Held, button: PointerButton) -> bool
    ensures { OfButtons (ask.button_down button) h (bool result) }
{
    pointer_clicks::button_down(h.down, button)
}

// Kept (proof): buttons by their numbers, here and below, as `same_button` has it. `button == b` was tried: in a test that is handed on, what the
// derived equality says did not reach `same_button`.
#[tactic(auto, unfolding(model::specs::Questions::reply, pointer_events::specs::Events::kind_of, model::specs::Questions::presses_button, model::specs::Questions::same_button))]
pub fn button_pressed(h: Held, codes: &[u32; CODES], button: PointerButton) -> bool
    ensures { OfHeld (ask.button_pressed button) codes.now h (bool result) }
{
    any(
        codes,
        h.event_count,
        |e| matches!(e, EventKind::Pressed(b) if button.number() == b.number()),
    )
}

#[tactic(auto, unfolding(model::specs::Questions::reply, pointer_events::specs::Events::kind_of, model::specs::Questions::releases_button, model::specs::Questions::same_button))]
pub fn button_released(h: Held, codes: &[u32; CODES], button: PointerButton) -> bool
    ensures { OfHeld (ask.button_released button) codes.now h (bool result) }
{
    any(
        codes,
        h.event_count,
        |e| matches!(e, EventKind::Released(_, b) if button.number() == b.number()),
    )
}

#[tactic(auto, unfolding(model::specs::Questions::reply, pointer_events::specs::Events::kind_of, model::specs::Questions::clicks_button, model::specs::Questions::same_button))]
pub fn button_clicked(h: Held, codes: &[u32; CODES], button: PointerButton) -> bool
    ensures { OfHeld (ask.button_clicked button) codes.now h (bool result) }
{
    any(
        codes,
        h.event_count,
        |e| matches!(e, EventKind::Released(Some(_), b) if button.number() == b.number()),
    )
}

// A click of the button that counts `count`.
#[tactic(auto, unfolding(pointer_events::specs::Events::kind_of, model::specs::Questions::clicks_button_times, model::specs::Questions::same_button))]
fn clicked_times(h: Held, codes: &[u32; CODES], button: PointerButton, count: u32) -> bool
    ensures { (positions : List Float) → result ≡ any (clicks_button_times count button) (held codes.now positions h).pointer_events }
{
    any(
        codes,
        h.event_count,
        |e| matches!(e, EventKind::Released(Some(n), b) if button.number() == b.number() && count == n),
    )
}

#[tactic(auto, unfolding(model::specs::Questions::reply))]
pub fn button_double_clicked(h: Held, codes: &[u32; CODES], button: PointerButton) -> bool
    ensures { OfHeld (ask.button_double_clicked button) codes.now h (bool result) }
{
    clicked_times(h, codes, button, 2)
}

#[tactic(auto, unfolding(model::specs::Questions::reply))]
pub fn button_triple_clicked(h: Held, codes: &[u32; CODES], button: PointerButton) -> bool
    ensures { OfHeld (ask.button_triple_clicked button) codes.now h (bool result) }
{
    clicked_times(h, codes, button, 3)
}

// A press that has turned into a long one in this pass; `started` is started_decidedly_dragging.
#[tactic(auto, unfolding(model::specs::Pointer::is_long_press))]
pub fn is_long_press(s: Press, options: InputOptions, time: f64, started: bool) -> bool
    ensures { (codes : List ℕ) (positions : List Float) → result ≡ is_long_press options time (press codes positions s) started }
{
    started
        && !s.past.has_moved_too_much_for_a_click
        && pointer_clicks::button_down(s.held.down, PointerButton::Primary)
        && press_too_long(options, time, s.held.press_start_time)
}

// How many events the pass had.
pub fn pointer_event_count(h: Held) -> usize
    ensures { (codes : List ℕ) (positions : List Float) → result ≡ length (held codes positions h).pointer_events }
{
    counted(h.event_count)
}

// Event `i` of the pass.
// Kept (plain): the other questions take the codes alone; a struct with the positions would be made for this one read.
pub fn pointer_event(
    h: Held,
    codes: &[u32; CODES],
    positions: &[f32; PLACES],
    i: usize,
) -> Option<PointerEvent>
    ensures { result ≡ event_or_none (held codes.now positions.now h).pointer_events i }
{
    event_at(codes, positions, h.event_count, i)
}
