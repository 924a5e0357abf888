// A device's gesture in an image (02 A.6): written, checked, read.
#![tactic(auto)]

ghost use Rattle.std.specs.Prelude.{◌≡◌, ◌+◌, ◌<◌, ◌≤◌, length, Some};
ghost use Rattle.std.proofs.lemmas.List.Edits.{sets};
ghost use Rattle.image.specs.Codes.{write, In};
ghost use Rattle.image.specs.Places.{bad_at, value_at};
ghost use Rattle.image_words.specs.Leaves.{found};
ghost use Rattle.image_gesture.specs.Gesture.{averages_code, averages_el, averages_of, previous_code, previous_el, pinch_of, start_code, start_el, fields_code, fields_of, gesture_code, gesture_el, gesture_of};

use data::touch::{DynGestureState, GestureState, PinchType};
use image_options::{maybe_at, maybe_bad, pair_bad, pos_at, vec_at};
use image_words::{
    copy, double_at, double_bad, double_word, high, low, single_at, single_bad, single_word,
    word_at, word_bad, zeros_put,
};

// The words of a gesture, with the flag before it; of its averages; where they stand.
const GESTURE_WORDS: usize = 23;

const FIELDS_WORDS: usize = 22;

const AVERAGES_WORDS: usize = 8;

const PREVIOUS_WORDS: usize = 9;

const PREVIOUS: usize = 5;

const CURRENT: usize = 14;

const MAX_PINCH: u32 = 2;

// ---- words

pub fn averages_words(d: DynGestureState) -> [u32; 8]
    ensures { (result ≡ write averages_code (averages_el d)) × In averages_code (averages_el d) }
{
    [
        single_word(d.avg_distance),
        single_word(d.avg_abs_distance2.x),
        single_word(d.avg_abs_distance2.y),
        single_word(d.avg_pos.x),
        single_word(d.avg_pos.y),
        single_word(d.avg_force),
        single_word(d.heading.x),
        single_word(d.heading.y),
    ]
}

fn start_words(g: GestureState) -> [u32; 5]
    ensures { (result ≡ write start_code (start_el g)) × In start_code (start_el g) }
{
    let time = double_word(g.start_time);
    [
        high(time),
        low(time),
        single_word(g.start_pointer_pos.x),
        single_word(g.start_pointer_pos.y),
        g.pinch_type.number(),
    ]
}

fn previous_put(p: Option<DynGestureState>, out: &mut [u32], at: usize)
    requires { at + 9 ≤ length out.old }
    ensures { (out.new ≡ sets out.old at (write previous_code (previous_el p))) × In previous_code (previous_el p) }
{
    match p {
        None => zeros_put(out, at, PREVIOUS_WORDS),
        Some(d) => {
            let part = averages_words(d);
            out[at] = 1;
            copy(out, at + 1, &part);
        }
    }
}

// A gesture that is there: the flag, and its fields.
fn fields_put(g: GestureState, out: &mut [u32], at: usize)
    requires { at + 23 ≤ length out.old }
    ensures { (out.new ≡ sets out.old at (write gesture_code (gesture_el (Some g)))) × In gesture_code (gesture_el (Some g)) }
{
    let start = start_words(g);
    let averages = averages_words(g.current);
    out[at] = 1;
    copy(out, at + 1, &start);
    previous_put(g.previous, out, at + 1 + PREVIOUS);
    copy(out, at + 1 + CURRENT, &averages);
}

pub fn gesture_put(g: Option<GestureState>, out: &mut [u32], at: usize)
    requires { at + 23 ≤ length out.old }
    ensures { (out.new ≡ sets out.old at (write gesture_code (gesture_el g))) × In gesture_code (gesture_el g) }
{
    match g {
        None => zeros_put(out, at, GESTURE_WORDS),
        Some(s) => fields_put(s, out, at),
    }
}

// ---- checks

#[tactic(auto, unfolding(image::specs::Places::bad_at, image::specs::Places::span, image::specs::Places::or_else, image::specs::Codes::size, image_words::specs::Leaves::found))]
fn averages_bad(words: &[u32], at: usize) -> Result<(), usize>
    requires { at + 8 < 0x1_0000_0000 }
    ensures { found result ≡ bad_at averages_code words.now at }
{
    single_bad(words, at)?;
    pair_bad(words, at + 1)?;
    pair_bad(words, at + 3)?;
    single_bad(words, at + 5)?;
    pair_bad(words, at + 6)
}

#[tactic(auto, unfolding(image::specs::Places::bad_at, image::specs::Places::span, image::specs::Places::or_else, image::specs::Codes::size, image_words::specs::Leaves::found))]
fn start_bad(words: &[u32], at: usize) -> Result<(), usize>
    requires { at + 5 < 0x1_0000_0000 }
    ensures { found result ≡ bad_at start_code words.now at }
{
    double_bad(words, at)?;
    pair_bad(words, at + 2)?;
    word_bad(words, at + 4, MAX_PINCH)
}

// Kept (plain): `maybe_bad` of the averages; the chain of checks that calls it then needs no proof of its own.
fn previous_bad(words: &[u32], at: usize) -> Result<(), usize>
    requires { at + 9 < 0x1_0000_0000 }
    ensures { found result ≡ bad_at previous_code words.now at }
{
    maybe_bad(words, at, AVERAGES_WORDS, averages_bad(words, at + 1))
}

#[tactic(auto, unfolding(image::specs::Places::bad_at, image::specs::Places::span, image::specs::Places::or_else, image::specs::Codes::size, image_words::specs::Leaves::found))]
fn fields_bad(words: &[u32], at: usize) -> Result<(), usize>
    requires { at + 22 < 0x1_0000_0000 }
    ensures { found result ≡ bad_at fields_code words.now at }
{
    start_bad(words, at)?;
    previous_bad(words, at + PREVIOUS)?;
    averages_bad(words, at + CURRENT)
}

// Kept (plain): `maybe_bad` of a gesture, as `previous_bad` is of averages.
pub fn gesture_bad(words: &[u32], at: usize) -> Result<(), usize>
    requires { at + 23 < 0x1_0000_0000 }
    ensures { found result ≡ bad_at gesture_code words.now at }
{
    maybe_bad(words, at, FIELDS_WORDS, fields_bad(words, at + 1))
}

// ---- values

fn averages_at(words: &[u32], at: usize) -> DynGestureState
    requires { at + 8 < 0x1_0000_0000 }
    ensures { result ≡ averages_of (value_at averages_code words.now at) }
{
    let avg_distance = single_at(words, at);
    let avg_abs_distance2 = vec_at(words, at + 1);
    let avg_pos = pos_at(words, at + 3);
    let avg_force = single_at(words, at + 5);
    let heading = vec_at(words, at + 6);
    DynGestureState {
        avg_distance,
        avg_abs_distance2,
        avg_pos,
        avg_force,
        heading,
    }
}

// Kept (plain): no From for a number. A word may hold any number, which the check has kept below 3, and the type is another crate's.
fn pinch_of(w: u32) -> PinchType
    ensures { result ≡ pinch_of w }
{
    match w {
        0 => PinchType::Horizontal,
        1 => PinchType::Vertical,
        _ => PinchType::Proportional,
    }
}

fn fields_at(words: &[u32], at: usize) -> GestureState
    requires { at + 22 < 0x1_0000_0000 }
    ensures { result ≡ fields_of (value_at fields_code words.now at) }
{
    let start_time = double_at(words, at);
    let start_pointer_pos = pos_at(words, at + 2);
    let pinch_type = pinch_of(word_at(words, at + 4));
    let previous = maybe_at(words, at + PREVIOUS, averages_at(words, at + PREVIOUS + 1));
    let current = averages_at(words, at + CURRENT);
    GestureState {
        start_time,
        start_pointer_pos,
        pinch_type,
        previous,
        current,
    }
}

pub fn gesture_at(words: &[u32], at: usize) -> Option<GestureState>
    requires { at + 23 < 0x1_0000_0000 }
    ensures { result ≡ gesture_of (value_at gesture_code words.now at) }
{
    maybe_at(words, at, fields_at(words, at + 1))
}
