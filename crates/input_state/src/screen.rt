// The screen and the options, as the last pass gave them.
ghost use Rattle.std.specs.Prelude.{◌≡◌, List, ℕ};
ghost use Rattle.model.specs.Options.{default_options};
ghost use Rattle.model.specs.Pass.{fresh, screen_pass};
ghost use Rattle.input_state.specs.View.{screen, input};

use crate::input::PassInput;
use data::modifiers::Modifiers;
use data::options::InputOptions;
use emath::pos2::Pos2;
use emath::rect::Rect;

#[derive(Clone, Copy)]
pub struct Screen {
    pub viewport_rect: Rect,
    pub pixels_per_point: f32,
    pub focused: bool,
    pub options: InputOptions,
}

// `Default for InputOptions`
pub fn default_options() -> InputOptions
    ensures { result ≡ default_options }
{
    let none = Modifiers::none();
    InputOptions {
        line_scroll_speed: 40.0,
        scroll_zoom_speed: 1.0 / 200.0,
        max_click_dist: 6.0,
        max_click_duration: 0.8,
        max_double_click_delay: 0.3,
        zoom_modifier: Modifiers {
            command: true,
            ..none
        },
        horizontal_scroll_modifier: Modifiers {
            shift: true,
            ..none
        },
        vertical_scroll_modifier: Modifiers { alt: true, ..none },
    }
}

pub fn fresh_screen() -> Screen
    ensures { screen result ≡ fresh.screen }
{
    let min = Pos2::zero();
    let max = Pos2 {
        x: 10000.0,
        y: 10000.0,
    };
    let viewport_rect = Rect { min, max };
    let options = default_options();
    Screen {
        viewport_rect,
        pixels_per_point: 1.0,
        focused: false,
        options,
    }
}

pub fn screen_pass(s: Screen, i: PassInput) -> Screen
    ensures { (ws : List ℕ) → screen result ≡ screen_pass (input ws i) (screen s) }
{
    Screen {
        viewport_rect: i.screen_rect.unwrap_or(s.viewport_rect),
        pixels_per_point: i.pixels_per_point,
        focused: i.focused,
        options: i.options,
    }
}
