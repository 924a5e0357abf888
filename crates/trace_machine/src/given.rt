// What a PASS says beside its feed.
ghost use Rattle.std.specs.Prelude.{◌≡◌};
ghost use Rattle.trace_machine.specs.Given.{time_given, rect_given, options_given, pass_input};

use data::modifiers::Modifiers;
use data::options::InputOptions;
use emath::pos2::Pos2;
use emath::rect::Rect;
use input_state::input::PassInput;
use trace_words::request::{at, bit, float, seconds};

#[tactic(auto, unfolding(crate::specs::Given::time_given))]
fn time_given(w: &[u32]) -> Option<f64>
    ensures { result ≡ time_given w.now }
{
    bit(at(w, 0), 1).then_some(seconds(w, 1, 2))
}

#[tactic(auto, unfolding(crate::specs::Given::rect_given))]
fn rect_given(w: &[u32]) -> Option<Rect>
    ensures { result ≡ rect_given w.now }
{
    let min = Pos2 {
        x: float(w, 6),
        y: float(w, 7),
    };
    let max = Pos2 {
        x: float(w, 8),
        y: float(w, 9),
    };
    bit(at(w, 0), 2).then_some(Rect { min, max })
}

fn options(w: &[u32]) -> InputOptions
    ensures { result ≡ options_given w.now }
{
    let patterns = at(w, 17);
    let zoom_modifier = Modifiers::of(patterns);
    let horizontal_scroll_modifier = Modifiers::of(patterns / 32);
    let vertical_scroll_modifier = Modifiers::of(patterns / 1024);
    InputOptions {
        line_scroll_speed: float(w, 10),
        scroll_zoom_speed: float(w, 11),
        max_click_dist: float(w, 12),
        max_click_duration: seconds(w, 13, 14),
        max_double_click_delay: seconds(w, 15, 16),
        zoom_modifier,
        horizontal_scroll_modifier,
        vertical_scroll_modifier,
    }
}

pub fn pass_input(w: &[u32]) -> PassInput
    ensures { result ≡ pass_input w.now }
{
    let time = time_given(w);
    let screen_rect = rect_given(w);
    let options = options(w);
    let bits = at(w, 0);
    PassInput {
        time,
        screen_rect,
        predicted_dt: float(w, 3),
        smoothing_factor: float(w, 4),
        pixels_per_point: float(w, 5),
        focused: bit(bits, 4),
        requested_repaint: bit(bits, 8),
        options,
    }
}
