// What is told of a gesture.
ghost use Rattle.std.specs.Prelude.{◌≡◌};
ghost use Rattle.model.specs.Touch.{zoom_quotient, zoom_delta_2d, info_from, info};
ghost use Rattle.model.specs.Pass.{Sums};
ghost use Rattle.model.specs.Questions.{rotation_reply};
ghost use Rattle.touch_device.specs.View.{device_view};

use crate::Device;
use data::touch::{DynGestureState, GestureState, MultiTouchInfo, PinchType, Rotation};
use emath::vec2::Vec2;

#[tactic(auto, unfolding(model::specs::Touch::zoom_quotient))]
fn zoom_quotient(current: f32, previous: f32) -> f32
    ensures { result ≡ zoom_quotient current previous }
{
    current / previous
}

#[tactic(auto, unfolding(model::specs::Touch::zoom_delta_2d, model::specs::Numbers::one))]
fn zoom_delta_2d(pinch_type: PinchType, previous: DynGestureState, current: DynGestureState) -> Vec2
    ensures { result ≡ zoom_delta_2d pinch_type previous current }
{
    match pinch_type {
        PinchType::Horizontal => Vec2 {
            x: zoom_quotient(current.avg_abs_distance2.x, previous.avg_abs_distance2.x),
            y: 1.0,
        },
        PinchType::Vertical => Vec2 {
            x: 1.0,
            y: zoom_quotient(current.avg_abs_distance2.y, previous.avg_abs_distance2.y),
        },
        PinchType::Proportional => {
            let zoom = zoom_quotient(current.avg_distance, previous.avg_distance);
            Vec2 { x: zoom, y: zoom }
        }
    }
}

#[tactic(auto, unfolding(model::specs::Touch::info_from))]
fn info_from(n: usize, g: GestureState, previous: DynGestureState) -> MultiTouchInfo
    ensures { result ≡ info_from n g previous }
{
    MultiTouchInfo {
        start_time: g.start_time,
        start_pos: g.start_pointer_pos,
        center_pos: g.current.avg_pos,
        num_touches: n,
        zoom_delta: zoom_quotient(g.current.avg_distance, previous.avg_distance),
        zoom_delta_2d: zoom_delta_2d(g.pinch_type, previous, g.current),
        previous_heading: previous.heading,
        heading: g.current.heading,
        translation_delta: g.current.avg_pos - previous.avg_pos,
        force: g.current.avg_force,
    }
}

// egui's TouchState::info
#[tactic(auto, unfolding(model::specs::Touch::info, model::specs::Touch::info_of, model::specs::Touch::state_previous))]
pub fn info(d: Device) -> Option<MultiTouchInfo>
    ensures { result ≡ info (device_view d) }
{
    let g = d.gesture_state?;
    let previous = g.previous.unwrap_or(g.current);
    Some(info_from(touches::len(d.touches), g, previous))
}

// With a gesture its two headings, else the sum of the pass's radians.
#[tactic(auto, unfolding(model::specs::Questions::rotation_reply))]
pub fn rotation(info: Option<MultiTouchInfo>, radians: f32) -> Rotation
    ensures { (s : Sums) → s.rotation_radians ≡ radians → result ≡ rotation_reply info s }
{
    match info {
        None => Rotation::Radians(radians),
        Some(i) => Rotation::Headings(i.previous_heading, i.heading),
    }
}
