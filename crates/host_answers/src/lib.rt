// An answer as it crosses to the host: a record of plain numbers. Where `given` is false there is none, and the other fields are 0.
// Kept (C): a flag beside each value, numbers for kinds, and a record for each type of answer: C reads them, and has no generic type.
#![tactic(auto)]

ghost use Rattle.std.specs.Prelude.{◌≡◌, None, Some};
ghost use Rattle.host_answers.specs.Answers.{vector_of, maybe_vector_of, position_of, seconds_of, number_of, id_of, source_of, zoom_of, zoom_2d_of, rotation_of, gesture_of, event_of, widget_of, order_of, layer_of};

use data::layers::LayerId;
use data::mouse_wheel::MouseWheelSource;
use data::pointer::PointerEvent;
use data::touch::{MultiTouchInfo, Rotation};
use data::widget::WidgetRect;
use emath::pos2::Pos2;
use emath::rect::Rect;
use emath::vec2::Vec2;
use pointer_events::entry_of;
use scroll_questions::zoom::{Zoom, Zoom2d};

// Vec2
#[repr(C)]
#[derive(Clone, Copy)]
pub struct HostVector {
    pub x: f32,
    pub y: f32,
}

// Option<Vec2>
#[repr(C)]
#[derive(Clone, Copy)]
pub struct HostMaybeVector {
    pub x: f32,
    pub y: f32,
    pub given: bool,
}

// Option<Pos2>
#[repr(C)]
#[derive(Clone, Copy)]
pub struct HostPosition {
    pub x: f32,
    pub y: f32,
    pub given: bool,
}

// Option<f64>, in seconds
#[repr(C)]
#[derive(Clone, Copy)]
pub struct HostSeconds {
    pub value: f64,
    pub given: bool,
}

// Option<f32>
#[repr(C)]
#[derive(Clone, Copy)]
pub struct HostNumber {
    pub value: f32,
    pub given: bool,
}

// Option<Id>
#[repr(C)]
#[derive(Clone, Copy)]
pub struct HostId {
    pub id: u64,
    pub given: bool,
}

// Option<MouseWheelSource>, by its number in the feed
#[repr(C)]
#[derive(Clone, Copy)]
pub struct HostSource {
    pub number: u32,
    pub given: bool,
}

// The host multiplies the factor by the exponential of the exponent.
#[repr(C)]
#[derive(Clone, Copy)]
pub struct HostZoom {
    pub factor: f32,
    pub exponent: f32,
}

// The same by axis.
#[repr(C)]
#[derive(Clone, Copy)]
pub struct HostZoom2d {
    pub factor_x: f32,
    pub factor_y: f32,
    pub exponent_x: f32,
    pub exponent_y: f32,
}

// A sum of radians; or, with `by_headings`, the previous and the current heading of a gesture, whose angle is the host's to take.
#[repr(C)]
#[derive(Clone, Copy)]
pub struct HostRotation {
    pub by_headings: bool,
    pub radians: f32,
    pub previous_x: f32,
    pub previous_y: f32,
    pub x: f32,
    pub y: f32,
}

// Option<MultiTouchInfo>
#[repr(C)]
#[derive(Clone, Copy)]
pub struct HostGesture {
    pub start_time: f64,
    pub num_touches: usize,
    pub start_pos: Pos2,
    pub center_pos: Pos2,
    pub zoom_delta: f32,
    pub zoom_delta_2d: HostVector,
    pub previous_heading: HostVector,
    pub heading: HostVector,
    pub translation_delta: HostVector,
    pub force: f32,
    pub given: bool,
}

// Option<PointerEvent>: `kind` is 0 moved, 1 pressed, 2 released, 3 released with a click, whose count and modifiers follow
#[repr(C)]
#[derive(Clone, Copy)]
pub struct HostPointerEvent {
    pub kind: u32,
    pub button: u32,
    pub count: u32,
    pub modifiers: u32,
    pub pos: Pos2,
    pub given: bool,
}

// Option<WidgetRect>
#[repr(C)]
#[derive(Clone, Copy)]
pub struct HostWidget {
    pub widget: WidgetRect,
    pub given: bool,
}

// Option<(LayerId, usize)>
#[repr(C)]
#[derive(Clone, Copy)]
pub struct HostOrder {
    pub layer: LayerId,
    pub position: usize,
    pub given: bool,
}

// Option<LayerId>
#[repr(C)]
#[derive(Clone, Copy)]
pub struct HostLayer {
    pub layer: LayerId,
    pub given: bool,
}

impl From<Vec2> for HostVector {
    ghost from_gives = { λ v r. vector_of r ≡ v };

    fn from(v: Vec2) -> HostVector {
        HostVector { x: v.x, y: v.y }
    }
}

impl From<Option<Vec2>> for HostMaybeVector {
    ghost from_gives = { λ v r. maybe_vector_of r ≡ v };

    #[tactic(auto, using(host_values::proofs::Back::given_back))]
    fn from(v: Option<Vec2>) -> HostMaybeVector {
        let Vec2 { x, y } = v.unwrap_or(Vec2::zero());
        HostMaybeVector {
            x,
            y,
            given: v.is_some(),
        }
    }
}

impl From<Option<Pos2>> for HostPosition {
    ghost from_gives = { λ p r. position_of r ≡ p };

    #[tactic(auto, using(host_values::proofs::Back::given_back))]
    fn from(p: Option<Pos2>) -> HostPosition {
        let Pos2 { x, y } = p.unwrap_or(Pos2::zero());
        HostPosition {
            x,
            y,
            given: p.is_some(),
        }
    }
}

impl From<Option<f64>> for HostSeconds {
    ghost from_gives = { λ t r. seconds_of r ≡ t };

    #[tactic(auto, using(host_values::proofs::Back::given_back))]
    fn from(t: Option<f64>) -> HostSeconds {
        HostSeconds {
            value: t.unwrap_or(0.0),
            given: t.is_some(),
        }
    }
}

impl From<Option<f32>> for HostNumber {
    ghost from_gives = { λ x r. number_of r ≡ x };

    #[tactic(auto, using(host_values::proofs::Back::given_back))]
    fn from(x: Option<f32>) -> HostNumber {
        HostNumber {
            value: x.unwrap_or(0.0),
            given: x.is_some(),
        }
    }
}

impl From<Option<u64>> for HostId {
    ghost from_gives = { λ d r. id_of r ≡ d };

    #[tactic(auto, using(host_values::proofs::Back::given_back))]
    fn from(d: Option<u64>) -> HostId {
        HostId {
            id: d.unwrap_or(0),
            given: d.is_some(),
        }
    }
}

impl From<Option<MouseWheelSource>> for HostSource {
    ghost from_gives = { λ s r. source_of r ≡ s };

    #[tactic(auto, using(host_values::proofs::Back::given_back, crate::proofs::Back::source_back))]
    fn from(s: Option<MouseWheelSource>) -> HostSource {
        HostSource {
            number: s.unwrap_or(MouseWheelSource::Unknown).number(),
            given: s.is_some(),
        }
    }
}

impl From<Zoom> for HostZoom {
    ghost from_gives = { λ z r. zoom_of r ≡ z };

    fn from(z: Zoom) -> HostZoom {
        HostZoom {
            factor: z.factor,
            exponent: z.exponent,
        }
    }
}

impl From<Zoom2d> for HostZoom2d {
    ghost from_gives = { λ z r. zoom_2d_of r ≡ z };

    fn from(z: Zoom2d) -> HostZoom2d {
        HostZoom2d {
            factor_x: z.factor.x,
            factor_y: z.factor.y,
            exponent_x: z.exponent.x,
            exponent_y: z.exponent.y,
        }
    }
}

impl From<Rotation> for HostRotation {
    ghost from_gives = { λ a r. rotation_of r ≡ a };

    fn from(a: Rotation) -> HostRotation {
        match a {
            Rotation::Radians(radians) => HostRotation {
                by_headings: false,
                radians,
                previous_x: 0.0,
                previous_y: 0.0,
                x: 0.0,
                y: 0.0,
            },
            Rotation::Headings(previous, current) => HostRotation {
                by_headings: true,
                radians: 0.0,
                previous_x: previous.x,
                previous_y: previous.y,
                x: current.x,
                y: current.y,
            },
        }
    }
}

fn no_gesture() -> HostGesture
    ensures { gesture_of result ≡ None }
{
    let none = HostVector { x: 0.0, y: 0.0 };
    HostGesture {
        start_time: 0.0,
        num_touches: 0,
        start_pos: Pos2::zero(),
        center_pos: Pos2::zero(),
        zoom_delta: 0.0,
        zoom_delta_2d: none,
        previous_heading: none,
        heading: none,
        translation_delta: none,
        force: 0.0,
        given: false,
    }
}

fn some_gesture(g: MultiTouchInfo) -> HostGesture
    ensures { gesture_of result ≡ Some g }
{
    HostGesture {
        start_time: g.start_time,
        num_touches: g.num_touches,
        start_pos: g.start_pos,
        center_pos: g.center_pos,
        zoom_delta: g.zoom_delta,
        zoom_delta_2d: g.zoom_delta_2d.into(),
        previous_heading: g.previous_heading.into(),
        heading: g.heading.into(),
        translation_delta: g.translation_delta.into(),
        force: g.force,
        given: true,
    }
}

impl From<Option<MultiTouchInfo>> for HostGesture {
    ghost from_gives = { λ g r. gesture_of r ≡ g };

    fn from(g: Option<MultiTouchInfo>) -> HostGesture {
        match g {
            None => no_gesture(),
            Some(x) => some_gesture(x),
        }
    }
}

impl From<Option<PointerEvent>> for HostPointerEvent {
    ghost from_gives = { λ e r. event_of r ≡ e };

    fn from(e: Option<PointerEvent>) -> HostPointerEvent {
        match e {
            None => HostPointerEvent {
                kind: 0,
                button: 0,
                count: 0,
                modifiers: 0,
                pos: Pos2::zero(),
                given: false,
            },
            Some(x) => {
                let entry = entry_of(x);
                HostPointerEvent {
                    kind: entry.kind,
                    button: entry.button,
                    count: entry.count,
                    modifiers: entry.flags,
                    pos: entry.pos,
                    given: true,
                }
            }
        }
    }
}

const NO_LAYER: LayerId = LayerId { order: 0, id: 0 };

fn no_widget() -> WidgetRect {
    let rect = Rect {
        min: Pos2::zero(),
        max: Pos2::zero(),
    };
    WidgetRect {
        id: 0,
        parent_id: 0,
        layer_id: NO_LAYER,
        rect,
        interact_rect: rect,
        sense: 0,
        enabled: false,
        visible: false,
    }
}

impl From<Option<WidgetRect>> for HostWidget {
    ghost from_gives = { λ w r. widget_of r ≡ w };

    #[tactic(auto, using(host_values::proofs::Back::given_back))]
    fn from(w: Option<WidgetRect>) -> HostWidget {
        HostWidget {
            widget: w.unwrap_or(no_widget()),
            given: w.is_some(),
        }
    }
}

impl From<Option<(LayerId, usize)>> for HostOrder {
    ghost from_gives = { λ o r. order_of r ≡ o };

    #[tactic(auto, using(host_values::proofs::Back::given_back))]
    fn from(o: Option<(LayerId, usize)>) -> HostOrder {
        let (layer, position) = o.unwrap_or((NO_LAYER, 0));
        HostOrder {
            layer,
            position,
            given: o.is_some(),
        }
    }
}

impl From<Option<LayerId>> for HostLayer {
    ghost from_gives = { λ l r. layer_of r ≡ l };

    #[tactic(auto, using(host_values::proofs::Back::given_back))]
    fn from(l: Option<LayerId>) -> HostLayer {
        HostLayer {
            layer: l.unwrap_or(NO_LAYER),
            given: l.is_some(),
        }
    }
}
