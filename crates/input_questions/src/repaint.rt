// How long to wait for a repaint.
ghost use Rattle.std.specs.Prelude.{◌≡◌, ◌||◌, List, ℕ, Float};
ghost use Rattle.std.specs.Float.Ieee.{lt};
ghost use Rattle.emath.specs.Vec.{vec_zero, vec_ne, vec_abs, max_elem};
ghost use Rattle.model.specs.Numbers.{fifth};
ghost use Rattle.model.specs.Questions.{maybe_seconds, some_event, until_menu};
ghost use Rattle.model.specs.Questions as ask;
ghost use Rattle.pointer_clicks.specs.View.{held};
ghost use Rattle.input_questions.specs.Answers.{OfWaiting};

use data::mouse_wheel::WheelState;
use data::options::InputOptions;
use emath::vec2::Vec2;
use pointer_clicks::{Held, is_decidedly_dragging};
use pointer_events::{CODES, counted};
use pointer_place::Place;
use pointer_state::press::Press;
use touch_questions::any_touches;
use touch_state::devices::Devices;

// PointerState::wants_repaint: did the pointer do anything in the pass?
fn pointer_wants_repaint(delta: Vec2, h: Held) -> bool
    ensures { (codes : List ℕ) (positions : List Float) → result ≡ (some_event (held codes positions h).pointer_events || vec_ne delta vec_zero) }
{
    if counted(h.event_count) > 0 {
        return true;
    }
    delta != Vec2::zero()
}

// Is there scroll left to smooth that can be seen?
#[tactic(auto, unfolding(model::specs::Numbers::fifth))]
fn wheel_wants_repaint(w: WheelState) -> bool
    ensures { result ≡ lt fifth (max_elem (vec_abs w.unprocessed_wheel_delta)) }
{
    w.unprocessed_wheel_delta.abs().max_elem() > 0.2
}

// How long until a press turns into a context menu.
#[tactic(auto, unfolding(model::specs::Questions::until_menu))]
fn until_menu(options: InputOptions, time: f64, start: Option<f64>) -> Option<f64>
    ensures { result ≡ until_menu options time start }
{
    let duration = time - start?;
    if duration < options.max_click_duration {
        return Some(options.max_click_duration - duration);
    }
    None
}

// In f64 seconds; `time` is the panel's, `pointer_time` that of the pointer's last pass.
// Kept (plain): it takes what it reads, and its promise is about every panel that shows so much.
pub fn wants_repaint_after(
    p: Place,
    s: Press,
    codes: &[u32; CODES],
    w: WheelState,
    feed_empty: bool,
    ds: Devices,
    options: InputOptions,
    time: f64,
    pointer_time: f64,
) -> Option<f64>
    ensures { OfWaiting ask.wants_repaint_after p s codes.now w feed_empty ds options time pointer_time (maybe_seconds result) }
{
    let h = s.held;
    if pointer_wants_repaint(p.delta, h) | wheel_wants_repaint(w) | !feed_empty {
        return Some(0.0);
    }
    let moved = s.past.has_moved_too_much_for_a_click;
    if any_touches(ds) & !is_decidedly_dragging(h, codes, options, pointer_time, moved) {
        return until_menu(options, time, h.press_start_time);
    }
    None
}
