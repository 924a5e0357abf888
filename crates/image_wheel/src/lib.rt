// Group 5 of an image (02 A.6), the wheel: written, checked, read.
#![tactic(auto)]

ghost use Rattle.std.specs.Prelude.{◌≡◌};
ghost use Rattle.image.specs.Codes.{write, In};
ghost use Rattle.image.specs.Places.{bad_at, value_at};
ghost use Rattle.image_words.specs.Leaves.{found};
ghost use Rattle.image_wheel.specs.Wheel.{wheel_place, wheel_code, wheel_el, wheel_of, status_of};

use data::modifiers::Modifiers;
use data::mouse_wheel::{Status, WheelState};
use feed::fields::source_of;
use image_options::{pair_bad, vec_at};
use image_words::{
    double_at, double_bad, double_word, header_bad, high, low, single_word, word_at, word_bad,
};

// The group's leading word, the places of its fields, and the most of those that are no float.
const WHEEL: u32 = 0x5000_0009;

const WHEEL_PLACE: usize = 62;

const STATUS: usize = 63;

const SOURCE: usize = 64;

const MODIFIERS: usize = 65;

const LAST_WHEEL_EVENT: usize = 66;

const UNPROCESSED: usize = 68;

const SMOOTH: usize = 70;

const MAX_STATUS: u32 = 2;

const MAX_SOURCE: u32 = 3;

const FIVE_BITS: u32 = 31;

pub fn wheel_words(w: WheelState) -> [u32; 10]
    ensures { (result ≡ write wheel_code (wheel_el w)) × In wheel_code (wheel_el w) }
{
    let last = double_word(w.last_wheel_event);
    [
        WHEEL,
        w.status.number(),
        w.source.number(),
        w.modifiers.number(),
        high(last),
        low(last),
        single_word(w.unprocessed_wheel_delta.x),
        single_word(w.unprocessed_wheel_delta.y),
        single_word(w.smooth_wheel_delta.x),
        single_word(w.smooth_wheel_delta.y),
    ]
}

#[tactic(auto, unfolding(image::specs::Places::bad_at, image::specs::Places::span, image::specs::Places::or_else, image::specs::Codes::size, image_words::specs::Leaves::found))]
pub fn wheel_bad(words: &[u32]) -> Result<(), usize>
    ensures { found result ≡ bad_at wheel_code words.now wheel_place }
{
    header_bad(words, WHEEL_PLACE, WHEEL)?;
    word_bad(words, STATUS, MAX_STATUS)?;
    word_bad(words, SOURCE, MAX_SOURCE)?;
    word_bad(words, MODIFIERS, FIVE_BITS)?;
    double_bad(words, LAST_WHEEL_EVENT)?;
    pair_bad(words, UNPROCESSED)?;
    pair_bad(words, SMOOTH)
}

// By its place in the enum.
// Kept (plain): no From for a number. A word may hold any number, which the check has kept below 3, and the type is another crate's.
fn status_of(n: u32) -> Status
    ensures { result ≡ status_of n }
{
    match n {
        0 => Status::Static,
        1 => Status::Smoothing,
        _ => Status::InTouch,
    }
}

pub fn wheel_at(words: &[u32]) -> WheelState
    ensures { result ≡ wheel_of (value_at wheel_code words.now wheel_place) }
{
    let status = status_of(word_at(words, STATUS));
    let source = source_of(word_at(words, SOURCE));
    let modifiers = Modifiers::of(word_at(words, MODIFIERS));
    let last_wheel_event = double_at(words, LAST_WHEEL_EVENT);
    let unprocessed_wheel_delta = vec_at(words, UNPROCESSED);
    let smooth_wheel_delta = vec_at(words, SMOOTH);
    WheelState {
        status,
        source,
        modifiers,
        last_wheel_event,
        unprocessed_wheel_delta,
        smooth_wheel_delta,
    }
}
