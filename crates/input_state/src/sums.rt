// Zoom, rotation and scrolling of the pass.
ghost use Rattle.std.specs.Prelude.{◌≡◌};
ghost use Rattle.model.specs.Pass.{fresh, sums_of};
ghost use Rattle.event_loop.specs.Lists.{listed_events};
ghost use Rattle.input_state.specs.View.{sums};

use data::mouse_wheel::WheelState;
use data::options::InputOptions;
use emath::vec2::Vec2;
use zoom_and_rotation::{rotation_of, zoom_of};

// Zoom is the factor's product, and an exponent that the host takes the exponential of.
#[derive(Clone, Copy)]
pub struct Sums {
    pub zoom_factor: f32,
    pub zoom_exponent: f32,
    pub rotation_radians: f32,
    pub smooth_scroll_delta: Vec2,
}

pub fn fresh_sums() -> Sums
    ensures { sums result ≡ fresh.sums }
{
    let zero = Vec2::zero();
    Sums {
        zoom_factor: 1.0,
        zoom_exponent: 0.0,
        rotation_radians: 0.0,
        smooth_scroll_delta: zero,
    }
}

// With the zoom modifier the wheel zooms, without it it scrolls.
pub fn sums_of(options: InputOptions, feed: &[u32], places: &[u16], w: WheelState) -> Sums
    ensures { sums result ≡ sums_of options (listed_events feed.now places.now) w }
{
    let zoom_factor = zoom_of(feed, places);
    let rotation_radians = rotation_of(feed, places);
    let smooth = w.smooth_wheel_delta;
    if w.modifiers.matches_any(options.zoom_modifier) {
        return Sums {
            zoom_factor,
            zoom_exponent: options.scroll_zoom_speed * (smooth.x + smooth.y),
            rotation_radians,
            smooth_scroll_delta: Vec2::zero(),
        };
    }
    Sums {
        zoom_factor,
        zoom_exponent: 0.0,
        rotation_radians,
        smooth_scroll_delta: smooth,
    }
}
