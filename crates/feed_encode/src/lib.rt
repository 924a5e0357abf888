// The words of an event.
#![tactic(auto)]

ghost use Rattle.std.specs.Prelude.{◌≡◌, [], ◌∷◌};
ghost use Rattle.feed.specs.Types.{Touch};
ghost use Rattle.feed.specs.Encode.{float_word, encode};
ghost use Rattle.feed_encode.specs.Words.{words_of};

use data::bits::bit_number;
use data::event::Event;
use data::kinds::{
    BUTTON_KIND, FOCUS_KIND, GONE_KIND, KEY_KIND, KIND_UNIT, MODIFIERS_KIND, MOTION_KIND,
    MOVED_KIND, OTHER_KIND, ROTATE_KIND, TOUCH_KIND, WHEEL_KIND, ZOOM_KIND,
};
use data::touch::TouchPhase;
use emath::pos2::Pos2;
use std::num::f32_to_bits_with_nan;

// The first word of an event whose low bits are 0, by its kind.
const KEY_HEAD: u32 = KEY_KIND * KIND_UNIT;

const MODIFIERS_HEAD: u32 = MODIFIERS_KIND * KIND_UNIT;

const MOVED_HEAD: u32 = MOVED_KIND * KIND_UNIT;

const MOTION_HEAD: u32 = MOTION_KIND * KIND_UNIT;

const BUTTON_HEAD: u32 = BUTTON_KIND * KIND_UNIT;

const GONE_HEAD: u32 = GONE_KIND * KIND_UNIT;

const ZOOM_HEAD: u32 = ZOOM_KIND * KIND_UNIT;

const ROTATE_HEAD: u32 = ROTATE_KIND * KIND_UNIT;

const TOUCH_HEAD: u32 = TOUCH_KIND * KIND_UNIT;

const WHEEL_HEAD: u32 = WHEEL_KIND * KIND_UNIT;

const FOCUS_HEAD: u32 = FOCUS_KIND * KIND_UNIT;

const OTHER_HEAD: u32 = OTHER_KIND * KIND_UNIT;

// The first `count` of `words`.
// Kept (01): no heap: an event has one to eight words, and they lie in an array.
#[derive(Clone, Copy)]
pub struct EventWords {
    pub words: [u32; 8],
    pub count: usize,
}

// The f32 bits. A NaN has one form.
#[tactic(auto, unfolding(feed::specs::Encode::float_word))]
pub fn float_word(x: f32) -> u32
    ensures { result ≡ float_word x }
{
    f32_to_bits_with_nan(x)
}

// One, two or three words.
#[tactic(auto, unfolding(crate::specs::Words::words_of))]
fn one(head: u32) -> EventWords
    ensures { words_of result ≡ head ∷ [] }
{
    EventWords {
        words: [head, 0, 0, 0, 0, 0, 0, 0],
        count: 1,
    }
}

#[tactic(auto, unfolding(crate::specs::Words::words_of))]
fn two(head: u32, a: u32) -> EventWords
    ensures { words_of result ≡ head ∷ a ∷ [] }
{
    EventWords {
        words: [head, a, 0, 0, 0, 0, 0, 0],
        count: 2,
    }
}

#[tactic(auto, unfolding(crate::specs::Words::words_of))]
fn three(head: u32, a: u32, b: u32) -> EventWords
    ensures { words_of result ≡ head ∷ a ∷ b ∷ [] }
{
    EventWords {
        words: [head, a, b, 0, 0, 0, 0, 0],
        count: 3,
    }
}

#[tactic(auto, unfolding(crate::specs::Words::words_of, feed::specs::Encode::encode, feed::specs::Encode::fields, feed::specs::Encode::words_after, feed::specs::Encode::pos_words, feed::specs::Encode::id_words, feed::specs::Encode::force_words))]
fn touch_words(device: u64, id: u64, phase: TouchPhase, pos: Pos2, force: Option<f32>) -> EventWords
    ensures { words_of result ≡ encode (Touch device id phase pos force) }
{
    let a = (device % 0x1_0000_0000) as u32;
    let b = (device / 0x1_0000_0000) as u32;
    let c = (id % 0x1_0000_0000) as u32;
    let d = (id / 0x1_0000_0000) as u32;
    let p = phase.number();
    let x = float_word(pos.x);
    let y = float_word(pos.y);
    match force {
        None => EventWords {
            words: [TOUCH_HEAD + (p + 0), a, b, c, d, x, y, 0],
            count: 7,
        },
        Some(f) => EventWords {
            words: [TOUCH_HEAD + (p + 4), a, b, c, d, x, y, float_word(f)],
            count: 8,
        },
    }
}

#[tactic(auto, unfolding(feed::specs::Encode::encode, feed::specs::Encode::fields, feed::specs::Encode::words_after, feed::specs::Encode::pos_words, feed::specs::Encode::vec_words))]
pub fn encode(e: Event) -> EventWords
    ensures { words_of result ≡ encode e }
{
    match e {
        Event::Key(place, pressed) => one(KEY_HEAD + (place % 256 + 256 * bit_number(pressed))),
        Event::ModifiersChanged(m) => one(MODIFIERS_HEAD + m.number()),
        Event::PointerMoved(pos) => three(MOVED_HEAD, float_word(pos.x), float_word(pos.y)),
        Event::MouseMoved(delta) => three(MOTION_HEAD, float_word(delta.x), float_word(delta.y)),
        Event::PointerButton(pos, button, pressed, m) => {
            let fields = m.number() + 32 * button.number() + 256 * bit_number(pressed);
            three(BUTTON_HEAD + fields, float_word(pos.x), float_word(pos.y))
        }
        Event::PointerGone => one(GONE_HEAD),
        Event::Zoom(factor) => two(ZOOM_HEAD, float_word(factor)),
        Event::Rotate(radians) => two(ROTATE_HEAD, float_word(radians)),
        Event::Touch(device, id, phase, pos, force) => touch_words(device, id, phase, pos, force),
        Event::MouseWheel(unit, delta, phase, source, m) => {
            let p = phase.number();
            let s = source.number();
            let fields = m.number() + 32 * unit.number() + 128 * p + 512 * s;
            three(
                WHEEL_HEAD + fields,
                float_word(delta.x),
                float_word(delta.y),
            )
        }
        Event::WindowFocused(focused) => one(FOCUS_HEAD + bit_number(focused)),
        Event::Other => one(OTHER_HEAD),
    }
}
