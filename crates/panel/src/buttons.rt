// Buttons, presses, clicks and the pass's pointer events.
// Kept (plain): calls handed on, each with a clause of its own: the clauses are what this door adds.
ghost use Rattle.model.specs.Types.{Primary, Secondary, Middle};
ghost use Rattle.model.specs.Questions.{settled, bool, number, maybe_position, maybe_seconds};
ghost use Rattle.model.specs.Questions as ask;
ghost use Rattle.panel.specs.Answers.{OfPress, OfEvents, OfClickPast, OfPressing, OfLongPress, OfEventAt, OfEventCount, NumberedEventAt};

use data::pointer::{PointerButton, PointerEvent};
use emath::pos2::Pos2;
use input_state::clock::Clock;
use input_state::pointer::Pointer;
use input_state::screen::Screen;
use pointer_events::{CODES, PLACES};
use pointer_state::press::Press;

pub fn press_origin(press: Press) -> Option<Pos2>
    ensures { OfPress (settled ask.press_origin) press (maybe_position result) }
{
    pointer_questions::buttons::press_origin(press.held)
}

pub fn press_start_time(press: Press) -> Option<f64>
    ensures { OfPress (settled ask.press_start_time) press (maybe_seconds result) }
{
    pointer_questions::buttons::press_start_time(press.held)
}

pub fn any_down(press: Press) -> bool
    ensures { OfPress (settled ask.any_down) press (bool result) }
{
    pointer_questions::buttons::any_down(press.held)
}

pub fn button_down(press: Press, button: PointerButton) -> bool
    ensures { OfPress (settled (ask.button_down button)) press (bool result) }
{
    pointer_questions::buttons::button_down(press.held, button)
}

pub fn any_pressed(press: Press, codes: &[u32; CODES]) -> bool
    ensures { OfEvents (settled ask.any_pressed) press codes.now (bool result) }
{
    pointer_questions::buttons::any_pressed(press.held, codes)
}

pub fn any_released(press: Press, codes: &[u32; CODES]) -> bool
    ensures { OfEvents (settled ask.any_released) press codes.now (bool result) }
{
    pointer_questions::buttons::any_released(press.held, codes)
}

pub fn any_click(press: Press, codes: &[u32; CODES]) -> bool
    ensures { OfEvents (settled ask.any_click) press codes.now (bool result) }
{
    pointer_questions::buttons::any_click(press.held, codes)
}

pub fn button_pressed(press: Press, codes: &[u32; CODES], button: PointerButton) -> bool
    ensures { OfEvents (settled (ask.button_pressed button)) press codes.now (bool result) }
{
    pointer_questions::buttons::button_pressed(press.held, codes, button)
}

pub fn button_released(press: Press, codes: &[u32; CODES], button: PointerButton) -> bool
    ensures { OfEvents (settled (ask.button_released button)) press codes.now (bool result) }
{
    pointer_questions::buttons::button_released(press.held, codes, button)
}

pub fn button_clicked(press: Press, codes: &[u32; CODES], button: PointerButton) -> bool
    ensures { OfEvents (settled (ask.button_clicked button)) press codes.now (bool result) }
{
    pointer_questions::buttons::button_clicked(press.held, codes, button)
}

pub fn button_double_clicked(press: Press, codes: &[u32; CODES], button: PointerButton) -> bool
    ensures { OfEvents (settled (ask.button_double_clicked button)) press codes.now (bool result) }
{
    pointer_questions::buttons::button_double_clicked(press.held, codes, button)
}

pub fn button_triple_clicked(press: Press, codes: &[u32; CODES], button: PointerButton) -> bool
    ensures { OfEvents (settled (ask.button_triple_clicked button)) press codes.now (bool result) }
{
    pointer_questions::buttons::button_triple_clicked(press.held, codes, button)
}

pub fn time_since_last_click(press: Press, clock: Clock) -> f32
    ensures { OfClickPast ask.time_since_last_click press clock (number result) }
{
    pointer_questions::buttons::time_since_last_click(press.past, clock.pointer_time)
}

pub fn could_any_button_be_click(
    clock: Clock,
    screen: Screen,
    press: Press,
    codes: &[u32; CODES],
) -> bool
    ensures { OfPressing (settled ask.could_any_button_be_click) clock screen press codes.now (bool result) }
{
    let moved = press.past.has_moved_too_much_for_a_click;
    pointer_clicks::could_any_button_be_click(
        press.held,
        codes,
        screen.options,
        clock.pointer_time,
        moved,
    )
}

pub fn is_decidedly_dragging(
    clock: Clock,
    screen: Screen,
    press: Press,
    codes: &[u32; CODES],
) -> bool
    ensures { OfPressing (settled ask.is_decidedly_dragging) clock screen press codes.now (bool result) }
{
    let moved = press.past.has_moved_too_much_for_a_click;
    pointer_clicks::is_decidedly_dragging(
        press.held,
        codes,
        screen.options,
        clock.pointer_time,
        moved,
    )
}

// A press that has turned into a long one in this pass.
pub fn is_long_press(clock: Clock, screen: Screen, pointer: Pointer) -> bool
    ensures { OfLongPress (settled ask.is_long_press) clock screen pointer (bool result) }
{
    let started = pointer.started_decidedly_dragging;
    pointer_questions::buttons::is_long_press(
        pointer.press,
        screen.options,
        clock.pointer_time,
        started,
    )
}

// How many pointer events the pass had.
pub fn pointer_event_count(press: Press) -> usize
    ensures { OfEventCount press result }
{
    pointer_questions::buttons::pointer_event_count(press.held)
}

// Event `i` of the pass, if it had so many.
pub fn pointer_event(
    press: Press,
    codes: &[u32; CODES],
    places: &[f32; PLACES],
    i: usize,
) -> Option<PointerEvent>
    ensures of_event_at { OfEventAt press codes.now places.now i result }
    ensures numbered { NumberedEventAt press codes.now places.now i result }
{
    pointer_questions::buttons::pointer_event(press.held, codes, places, i)
}

// ---- egui's names for one button

pub fn primary_pressed(press: Press, codes: &[u32; CODES]) -> bool
    ensures { OfEvents (settled (ask.button_pressed Primary)) press codes.now (bool result) }
{
    button_pressed(press, codes, PointerButton::Primary)
}

pub fn secondary_pressed(press: Press, codes: &[u32; CODES]) -> bool
    ensures { OfEvents (settled (ask.button_pressed Secondary)) press codes.now (bool result) }
{
    button_pressed(press, codes, PointerButton::Secondary)
}

pub fn primary_released(press: Press, codes: &[u32; CODES]) -> bool
    ensures { OfEvents (settled (ask.button_released Primary)) press codes.now (bool result) }
{
    button_released(press, codes, PointerButton::Primary)
}

pub fn secondary_released(press: Press, codes: &[u32; CODES]) -> bool
    ensures { OfEvents (settled (ask.button_released Secondary)) press codes.now (bool result) }
{
    button_released(press, codes, PointerButton::Secondary)
}

pub fn primary_clicked(press: Press, codes: &[u32; CODES]) -> bool
    ensures { OfEvents (settled (ask.button_clicked Primary)) press codes.now (bool result) }
{
    button_clicked(press, codes, PointerButton::Primary)
}

pub fn secondary_clicked(press: Press, codes: &[u32; CODES]) -> bool
    ensures { OfEvents (settled (ask.button_clicked Secondary)) press codes.now (bool result) }
{
    button_clicked(press, codes, PointerButton::Secondary)
}

pub fn primary_down(press: Press) -> bool
    ensures { OfPress (settled (ask.button_down Primary)) press (bool result) }
{
    button_down(press, PointerButton::Primary)
}

pub fn secondary_down(press: Press) -> bool
    ensures { OfPress (settled (ask.button_down Secondary)) press (bool result) }
{
    button_down(press, PointerButton::Secondary)
}

pub fn middle_down(press: Press) -> bool
    ensures { OfPress (settled (ask.button_down Middle)) press (bool result) }
{
    button_down(press, PointerButton::Middle)
}
