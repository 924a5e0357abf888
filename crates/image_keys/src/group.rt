// The group: keys that are down, modifiers, whether the feed was empty, the presses.
ghost use Rattle.std.specs.Prelude.{◌≡◌, List, ℕ, ◌≤◌, length, None};
ghost use Rattle.std.proofs.lemmas.List.Edits.{sets};
ghost use Rattle.image.specs.Codes.{write, In};
ghost use Rattle.image.specs.Places.{bad_at, value_at};
ghost use Rattle.image_words.specs.Leaves.{found};
ghost use Rattle.key_state.specs.View.{keys};
ghost use Rattle.image_keys.specs.Keys.{keys_place, keys_end, keys_code, keys_el, keys_of, keys_head, KeysHead};

use crate::down::{down_at, down_bad, down_words};
use crate::presses::{presses_at, presses_bad, presses_put};
use data::bits::bit_number;
use data::modifiers::Modifiers;
use image_words::{copy, flag_bad, header_bad, word_at, word_bad};
use key_state::keys::{Keys, PRESSES};

// The group's leading word, the places of its fields, their number, and the most of a word of flags.
const KEYS: u32 = 0x6000_0098;

const KEYS_PLACE: usize = 72;

const MODIFIERS: usize = 78;

const FEED_EMPTY: usize = 79;

const PRESSES_PLACE: usize = 80;

const FIVE_BITS: u32 = 31;

// All but the presses.
fn head_words(k: Keys) -> [u32; 8]
    ensures { (presses : List ℕ) → (result ≡ keys_head (keys presses k)) × KeysHead (keys presses k) }
{
    let d = down_words(k.down);
    [
        KEYS,
        d[0],
        d[1],
        d[2],
        d[3],
        d[4],
        k.modifiers.number(),
        bit_number(k.feed_empty),
    ]
}

pub fn keys_put(k: Keys, presses: &[u8; PRESSES], out: &mut [u32])
    requires { keys_end ≤ length out.old }
    ensures { (out.new ≡ sets out.old keys_place (write keys_code (keys_el (keys presses.now k)))) × In keys_code (keys_el (keys presses.now k)) }
{
    let head = head_words(k);
    copy(out, KEYS_PLACE, &head);
    presses_put(presses, out, PRESSES_PLACE);
}

#[tactic(auto, unfolding(image::specs::Places::bad_at, image::specs::Places::span, image::specs::Places::or_else, image::specs::Codes::size, image_words::specs::Leaves::found))]
pub fn keys_bad(words: &[u32]) -> Result<(), usize>
    ensures { found result ≡ bad_at keys_code words.now keys_place }
{
    header_bad(words, KEYS_PLACE, KEYS)?;
    down_bad(words)?;
    word_bad(words, MODIFIERS, FIVE_BITS)?;
    flag_bad(words, FEED_EMPTY)?;
    presses_bad(words, PRESSES_PLACE, PRESSES)
}

pub fn keys_at(words: &[u32], presses: &mut [u8; PRESSES]) -> Keys
    requires { bad_at keys_code words.now keys_place ≡ None }
    ensures { keys presses.new result ≡ keys_of (value_at keys_code words.now keys_place) }
{
    let down = down_at(words);
    let modifiers = Modifiers::of(word_at(words, MODIFIERS));
    presses_at(words, PRESSES_PLACE, presses);
    Keys {
        down,
        modifiers,
        feed_empty: word_at(words, FEED_EMPTY) == 1,
    }
}
