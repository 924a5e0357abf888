// Group 1 of an image (02 A.6), the clock: written, checked, read.
#![tactic(auto)]

ghost use Rattle.std.specs.Prelude.{◌≡◌};
ghost use Rattle.image.specs.Codes.{write, In, single_ok, double_ok};
ghost use Rattle.image.specs.Places.{bad_at, value_at, word_bad, two_bad};
ghost use Rattle.data.specs.Limits.{time_ok, unit_interval_ok};
ghost use Rattle.image_words.specs.Leaves.{found};
ghost use Rattle.input_state.specs.View.{clock};
ghost use Rattle.image_clock.specs.Clock.{clock_place, clock_code, clock_el, clock_of, ClockOk};

use domain::{time_ok, unit_interval_ok};
use image_words::{
    double_at, double_bad, double_in_bad, double_word, header_bad, high, low, single_at,
    single_bad, single_in_bad, single_word,
};
use input_state::clock::Clock;

// The group's leading word, and the places of its fields.
const CLOCK: u32 = 0x1000_0007;

const CLOCK_PLACE: usize = 1;

const TIME: usize = 2;

const POINTER_TIME: usize = 4;

const UNSTABLE_DT: usize = 6;

const STABLE_DT: usize = 7;

const PREDICTED_DT: usize = 8;

pub fn clock_words(c: Clock) -> [u32; 8]
    ensures { (result ≡ write clock_code (clock_el (clock c))) × (ClockOk (clock c) → In clock_code (clock_el (clock c))) }
{
    let time = double_word(c.time);
    let pointer_time = double_word(c.pointer_time);
    [
        CLOCK,
        high(time),
        low(time),
        high(pointer_time),
        low(pointer_time),
        single_word(c.unstable_dt),
        single_word(c.stable_dt),
        single_word(c.predicted_dt),
    ]
}

fn time_bad(words: &[u32]) -> Result<(), usize>
    ensures { found result ≡ two_bad (double_ok time_ok) words.now 2 }
{
    double_in_bad(words, TIME, time_ok)
}

fn predicted_bad(words: &[u32]) -> Result<(), usize>
    ensures { found result ≡ word_bad (single_ok unit_interval_ok) words.now 8 }
{
    single_in_bad(words, PREDICTED_DT, unit_interval_ok)
}

// The first wrong word of the group.
#[tactic(auto, unfolding(image::specs::Places::bad_at, image::specs::Places::span, image::specs::Places::or_else, image::specs::Codes::size, image_words::specs::Leaves::found))]
pub fn clock_bad(words: &[u32]) -> Result<(), usize>
    ensures { found result ≡ bad_at clock_code words.now clock_place }
{
    header_bad(words, CLOCK_PLACE, CLOCK)?;
    time_bad(words)?;
    double_bad(words, POINTER_TIME)?;
    single_bad(words, UNSTABLE_DT)?;
    single_bad(words, STABLE_DT)?;
    predicted_bad(words)
}

pub fn clock_at(words: &[u32]) -> Clock
    ensures { clock result ≡ clock_of (value_at clock_code words.now clock_place) }
{
    Clock {
        time: double_at(words, TIME),
        pointer_time: double_at(words, POINTER_TIME),
        unstable_dt: single_at(words, UNSTABLE_DT),
        stable_dt: single_at(words, STABLE_DT),
        predicted_dt: single_at(words, PREDICTED_DT),
    }
}
