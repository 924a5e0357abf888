// An event as the record has it.
// Kept (01): the kinds of a feed are numbers, "over 0 to 15", and the record has them as the feed does.
use crate::record::word;
use data::bits::bit_number;
use data::event::Event;
use data::kinds::{
    BUTTON_KIND, FOCUS_KIND, GONE_KIND, KEY_KIND, MODIFIERS_KIND, MOTION_KIND, MOVED_KIND,
    OTHER_KIND, ROTATE_KIND, TOUCH_KIND, WHEEL_KIND, ZOOM_KIND,
};
use data::modifiers::Modifiers;
use data::mouse_wheel::{MouseWheelSource, MouseWheelUnit};
use data::touch::TouchPhase;
use emath::pos2::Pos2;
use emath::vec2::Vec2;
use feed_encode::float_word;

// Of each kind what it has, and 0 for what it has not.
#[derive(Clone, Copy, Default, PartialEq, Eq)]
pub struct Fields {
    kind: u32,
    // place, button, phase, or unit
    number: u32,
    // pressed, focused, force present, or the wheel's phase
    state: u32,
    flags: u32,
    x: u32,
    y: u32,
    // low word, high word
    device: [u32; 2],
    touch: [u32; 2],
    // force, or the wheel's source
    last: u32,
}

impl Fields {
    // The fields that stand in a record, from its word 5 on.
    pub fn read(b: &[u8; 128]) -> Fields {
        Fields {
            kind: word(b, 5),
            number: word(b, 6),
            state: word(b, 7),
            flags: word(b, 8),
            x: word(b, 9),
            y: word(b, 10),
            device: [word(b, 11), word(b, 12)],
            touch: [word(b, 13), word(b, 14)],
            last: word(b, 15),
        }
    }
}

impl From<Event> for Fields {
    fn from(e: Event) -> Fields {
        match e {
            Event::Key(place, pressed) => numbered(KEY_KIND, place, bit_number(pressed)),
            Event::ModifiersChanged(m) => Fields {
                flags: m.number(),
                ..bare(MODIFIERS_KIND)
            },
            Event::PointerMoved(p) => placed(MOVED_KIND, p.x, p.y),
            Event::MouseMoved(v) => placed(MOTION_KIND, v.x, v.y),
            Event::PointerButton(p, b, pressed, m) => Fields {
                number: b.number(),
                state: bit_number(pressed),
                flags: m.number(),
                ..placed(BUTTON_KIND, p.x, p.y)
            },
            Event::PointerGone => bare(GONE_KIND),
            Event::Zoom(x) => valued(ZOOM_KIND, x),
            Event::Rotate(x) => valued(ROTATE_KIND, x),
            Event::Touch(device, id, phase, p, force) => touched(device, id, phase, p, force),
            Event::MouseWheel(unit, v, phase, source, m) => scrolled(unit, v, phase, source, m),
            Event::WindowFocused(focused) => numbered(FOCUS_KIND, 0, bit_number(focused)),
            Event::Other => bare(OTHER_KIND),
        }
    }
}

fn bare(kind: u32) -> Fields {
    Fields {
        kind,
        ..Fields::default()
    }
}

fn numbered(kind: u32, number: u32, state: u32) -> Fields {
    Fields {
        number,
        state,
        ..bare(kind)
    }
}

fn valued(kind: u32, x: f32) -> Fields {
    Fields {
        x: float_word(x),
        ..bare(kind)
    }
}

fn placed(kind: u32, x: f32, y: f32) -> Fields {
    Fields {
        y: float_word(y),
        ..valued(kind, x)
    }
}

// The low word of an id, and the high one.
fn halves(id: u64) -> [u32; 2] {
    [(id % 0x1_0000_0000) as u32, (id >> 32) as u32]
}

fn touched(device: u64, id: u64, phase: TouchPhase, p: Pos2, force: Option<f32>) -> Fields {
    Fields {
        number: phase.number(),
        state: bit_number(force.is_some()),
        device: halves(device),
        touch: halves(id),
        last: force.map_or(0, |x| float_word(x)),
        ..placed(TOUCH_KIND, p.x, p.y)
    }
}

fn scrolled(
    unit: MouseWheelUnit,
    v: Vec2,
    phase: TouchPhase,
    source: MouseWheelSource,
    m: Modifiers,
) -> Fields {
    Fields {
        number: unit.number(),
        state: phase.number(),
        flags: m.number(),
        last: source.number(),
        ..placed(WHEEL_KIND, v.x, v.y)
    }
}
