// Group 3: where the pointer is and how it moves. The history is a group of its own.
ghost use Rattle.std.specs.Prelude.{◌≡◌, List, Float};
ghost use Rattle.image.specs.Codes.{write, In};
ghost use Rattle.image.specs.Places.{bad_at, value_at};
ghost use Rattle.image_words.specs.Leaves.{found};
ghost use Rattle.emath_history.specs.Ring.{view};
ghost use Rattle.pointer_place.specs.View.{place};
ghost use Rattle.image_pointer.specs.Place.{place_place, place_code, place_el, place_of};

use emath_history::history::History;
use image_options::{maybe_at, maybe_pair_bad, maybe_words, pair_bad, pos_at, vec_at};
use image_words::{header_bad, single_word};
use pointer_place::Place;

// The group's leading word, and the places of its fields.
const PLACE: u32 = 0x3000_000F;

const PLACE_PLACE: usize = 26;

const LATEST_POS: usize = 27;

const INTERACT_POS: usize = 30;

const DELTA: usize = 33;

const MOTION: usize = 35;

const VELOCITY: usize = 38;

const DIRECTION: usize = 40;

pub fn place_words(p: Place) -> [u32; 16]
    ensures { (times positions : List Float) → (result ≡ write place_code (place_el (place times positions p))) × In place_code (place_el (place times positions p)) }
{
    let l = maybe_words(p.latest_pos);
    let i = maybe_words(p.interact_pos);
    let m = maybe_words(p.motion);
    [
        PLACE,
        l[0],
        l[1],
        l[2],
        i[0],
        i[1],
        i[2],
        single_word(p.delta.x),
        single_word(p.delta.y),
        m[0],
        m[1],
        m[2],
        single_word(p.velocity.x),
        single_word(p.velocity.y),
        single_word(p.direction.x),
        single_word(p.direction.y),
    ]
}

#[tactic(auto, unfolding(image::specs::Places::bad_at, image::specs::Places::span, image::specs::Places::or_else, image::specs::Codes::size, image_words::specs::Leaves::found))]
pub fn place_bad(words: &[u32]) -> Result<(), usize>
    ensures { found result ≡ bad_at place_code words.now place_place }
{
    header_bad(words, PLACE_PLACE, PLACE)?;
    maybe_pair_bad(words, LATEST_POS)?;
    maybe_pair_bad(words, INTERACT_POS)?;
    pair_bad(words, DELTA)?;
    maybe_pair_bad(words, MOTION)?;
    pair_bad(words, VELOCITY)?;
    pair_bad(words, DIRECTION)
}

// With the history that is read by itself.
pub fn place_at(words: &[u32], history: History) -> Place
    ensures { (times positions : List Float) → place times positions result ≡ place_of (value_at place_code words.now place_place) (view times positions history) }
{
    let latest_pos = maybe_at(words, LATEST_POS, pos_at(words, LATEST_POS + 1));
    let interact_pos = maybe_at(words, INTERACT_POS, pos_at(words, INTERACT_POS + 1));
    let delta = vec_at(words, DELTA);
    let motion = maybe_at(words, MOTION, vec_at(words, MOTION + 1));
    let velocity = vec_at(words, VELOCITY);
    let direction = vec_at(words, DIRECTION);
    Place {
        latest_pos,
        interact_pos,
        delta,
        motion,
        velocity,
        direction,
        history,
    }
}
