// Groups 7 to 9 of an image (02 A.6): the sums of the pass, "dragged and potential ids", the tally. Written, checked, read.
#![tactic(auto)]

ghost use Rattle.std.specs.Prelude.{◌≡◌};
ghost use Rattle.image.specs.Codes.{write, In};
ghost use Rattle.image.specs.Places.{bad_at, value_at};
ghost use Rattle.image_words.specs.Leaves.{found};
ghost use Rattle.input_state.specs.View.{sums};
ghost use Rattle.interaction_state.specs.View.{interaction_of};
ghost use Rattle.image_interaction.specs.Groups.{sums_place, sums_code, sums_el, sums_of, interaction_place, interaction_code, interaction_el, tally_place, tally_code};
ghost use Rattle.image_interaction.specs.Groups as groups;

use image_options::{maybe_at, maybe_id_bad, maybe_words, pair_bad, vec_at};
use image_words::{header_bad, single_at, single_bad, single_word, two_at, word_at, word_bad};
use input_state::sums::Sums;
use interaction_state::state::Interaction;

// The groups' leading words, and the places of their fields.
const SUMS: u32 = 0x7000_0005;

const SUMS_PLACE: usize = 225;

const ZOOM_FACTOR: usize = 226;

const ZOOM_EXPONENT: usize = 227;

const ROTATION_RADIANS: usize = 228;

const SMOOTH_SCROLL_DELTA: usize = 229;

const INTERACTION: u32 = 0x8000_0009;

const INTERACTION_PLACE: usize = 231;

const POTENTIAL_CLICK_ID: usize = 232;

const POTENTIAL_DRAG_ID: usize = 235;

const DRAGGED: usize = 238;

const TALLY: u32 = 0x9000_0001;

const TALLY_PLACE: usize = 241;

const STARTS: usize = 242;

const MAX_WORD: u32 = 0xFFFF_FFFF;

pub fn sums_words(s: Sums) -> [u32; 6]
    ensures { (result ≡ write sums_code (sums_el (sums s))) × In sums_code (sums_el (sums s)) }
{
    [
        SUMS,
        single_word(s.zoom_factor),
        single_word(s.zoom_exponent),
        single_word(s.rotation_radians),
        single_word(s.smooth_scroll_delta.x),
        single_word(s.smooth_scroll_delta.y),
    ]
}

pub fn interaction_words(s: Interaction) -> [u32; 10]
    ensures { (result ≡ write interaction_code (interaction_el (interaction_of s))) × In interaction_code (interaction_el (interaction_of s)) }
{
    let a = maybe_words(s.potential_click_id);
    let b = maybe_words(s.potential_drag_id);
    let d = maybe_words(s.dragged);
    [
        INTERACTION,
        a[0],
        a[1],
        a[2],
        b[0],
        b[1],
        b[2],
        d[0],
        d[1],
        d[2],
    ]
}

pub fn tally_words(tally: u32) -> [u32; 2]
    ensures { (result ≡ write tally_code tally) × In tally_code tally }
{
    [TALLY, tally]
}

#[tactic(auto, unfolding(image::specs::Places::bad_at, image::specs::Places::span, image::specs::Places::or_else, image::specs::Codes::size, image_words::specs::Leaves::found))]
pub fn sums_bad(words: &[u32]) -> Result<(), usize>
    ensures { found result ≡ bad_at sums_code words.now sums_place }
{
    header_bad(words, SUMS_PLACE, SUMS)?;
    single_bad(words, ZOOM_FACTOR)?;
    single_bad(words, ZOOM_EXPONENT)?;
    single_bad(words, ROTATION_RADIANS)?;
    pair_bad(words, SMOOTH_SCROLL_DELTA)
}

#[tactic(auto, unfolding(image::specs::Places::bad_at, image::specs::Places::span, image::specs::Places::or_else, image::specs::Codes::size, image_words::specs::Leaves::found))]
pub fn interaction_bad(words: &[u32]) -> Result<(), usize>
    ensures { found result ≡ bad_at interaction_code words.now interaction_place }
{
    header_bad(words, INTERACTION_PLACE, INTERACTION)?;
    maybe_id_bad(words, POTENTIAL_CLICK_ID)?;
    maybe_id_bad(words, POTENTIAL_DRAG_ID)?;
    maybe_id_bad(words, DRAGGED)
}

#[tactic(auto, unfolding(image::specs::Places::bad_at, image::specs::Places::span, image::specs::Places::or_else, image::specs::Codes::size, image_words::specs::Leaves::found))]
pub fn tally_bad(words: &[u32]) -> Result<(), usize>
    ensures { found result ≡ bad_at tally_code words.now tally_place }
{
    header_bad(words, TALLY_PLACE, TALLY)?;
    word_bad(words, STARTS, MAX_WORD)
}

pub fn sums_at(words: &[u32]) -> Sums
    ensures { sums result ≡ sums_of (value_at sums_code words.now sums_place) }
{
    let smooth_scroll_delta = vec_at(words, SMOOTH_SCROLL_DELTA);
    Sums {
        zoom_factor: single_at(words, ZOOM_FACTOR),
        zoom_exponent: single_at(words, ZOOM_EXPONENT),
        rotation_radians: single_at(words, ROTATION_RADIANS),
        smooth_scroll_delta,
    }
}

pub fn interaction_at(words: &[u32]) -> Interaction
    ensures { interaction_of result ≡ groups.interaction_of (value_at interaction_code words.now interaction_place) }
{
    let potential_click_id = maybe_at(
        words,
        POTENTIAL_CLICK_ID,
        two_at(words, POTENTIAL_CLICK_ID + 1),
    );
    let potential_drag_id = maybe_at(
        words,
        POTENTIAL_DRAG_ID,
        two_at(words, POTENTIAL_DRAG_ID + 1),
    );
    let dragged = maybe_at(words, DRAGGED, two_at(words, DRAGGED + 1));
    Interaction {
        potential_click_id,
        potential_drag_id,
        dragged,
    }
}

pub fn tally_at(words: &[u32]) -> u32
    ensures { result ≡ value_at tally_code words.now tally_place }
{
    word_at(words, STARTS)
}
