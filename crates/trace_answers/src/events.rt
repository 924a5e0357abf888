// The pass's pointer events.
ghost use Rattle.std.specs.Prelude.{◌<◌};

use data::pointer::{Click, PointerEvent};
use emath::pos2::Pos2;
use panel::buttons::{pointer_event, pointer_event_count};
use pointer_state::press::Press;
use trace_state::lent::Arrays;
use trace_words::words::Answer;

// The first word of an event: its number, the number of its button from bit 8 on, and bit 16 for a release that carries a click.
const BUTTON: u32 = 0x100;

const CLICK: u32 = 0x1_0000;

fn moved(a: &mut Answer, first: u32, p: Pos2) {
    a.word(first);
    a.pos(p);
    a.zeros(2);
}

fn released(a: &mut Answer, first: u32, click: Option<Click>)
    requires { first < 0x1_0000 }
{
    match click {
        None => {
            a.word(first);
            a.zeros(4);
        }
        Some(c) => {
            a.word(first + CLICK);
            a.pos(c.pos);
            a.word(c.count);
            a.flags(c.modifiers);
        }
    }
}

fn event(a: &mut Answer, e: PointerEvent) {
    let number = e.number();
    match e {
        PointerEvent::Moved(p) => moved(a, number, p),
        PointerEvent::Pressed(p, b) => moved(a, number + b.number() * BUTTON, p),
        PointerEvent::Released(c, b) => released(a, number + b.number() * BUTTON, c),
    }
}

// Their number, then five words each.
pub fn events(a: &mut Answer, press: Press, lent: &Arrays) {
    let len = pointer_event_count(press);
    a.count(len);
    for i in 0..len {
        if let Some(e) = pointer_event(press, &lent.codes, &lent.places, i) {
            event(a, e);
        }
    }
}
