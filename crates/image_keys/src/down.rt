// The keys that are down, a bit each: bit k of word w is key 32 w + k.
ghost use Rattle.std.specs.Prelude.{◌≡◌, ℕ, ◌+◌, ◌*◌, ◌/◌, ◌%◌, ◌<◌};
ghost use Rattle.image.specs.Codes.{write, In, half};
ghost use Rattle.image.specs.Places.{bad_at, value_at};
ghost use Rattle.image_words.specs.Leaves.{found};
ghost use Rattle.key_state.specs.View.{down_of};
ghost use Rattle.image_keys.specs.Keys.{down_place, down_code, down_el, keys_down_of, last_word};

use image_words::{high, low, word_at, word_bad};
use key_state::bits::Set256;

// The places of the five words, and the most of each: the last has 17 keys.
const DOWN_0: usize = 73;

const DOWN_1: usize = 74;

const DOWN_2: usize = 75;

const DOWN_3: usize = 76;

const DOWN_4: usize = 77;

const MAX_WORD: u32 = 0xFFFF_FFFF;

const MAX_LAST: u32 = 0x1_FFFF;

const HALF: u64 = 0x1_0000_0000;

const LAST: u64 = 0x2_0000;

// What stands beyond the last key is left out.
fn last(w: u64) -> u32
    ensures { result ≡ w % last_word }
{
    (w % LAST) as u32
}

pub fn down_words(s: Set256) -> [u32; 5]
    ensures { (result ≡ write down_code (down_el (down_of s))) × In down_code (down_el (down_of s)) }
{
    let [a, b, c, _] = s.words;
    [low(a), high(a), low(b), high(b), last(c)]
}

#[tactic(auto, unfolding(image::specs::Places::bad_at, image::specs::Places::span, image::specs::Places::or_else, image::specs::Codes::size, image_words::specs::Leaves::found))]
pub fn down_bad(words: &[u32]) -> Result<(), usize>
    ensures { found result ≡ bad_at down_code words.now down_place }
{
    word_bad(words, DOWN_0, MAX_WORD)?;
    word_bad(words, DOWN_1, MAX_WORD)?;
    word_bad(words, DOWN_2, MAX_WORD)?;
    word_bad(words, DOWN_3, MAX_WORD)?;
    word_bad(words, DOWN_4, MAX_LAST)
}

// Kept (plain): std joins bytes, no words; the low one stands first here.
fn joined(low: u32, high: u32) -> u64
    ensures { (result ≡ low + high * half) × (low < half) }
{
    low as u64 + high as u64 * HALF
}

pub fn down_at(words: &[u32]) -> Set256
    ensures { (k : ℕ) → down_of result k ≡ keys_down_of (value_at down_code words.now down_place) k }
{
    let a = joined(word_at(words, DOWN_0), word_at(words, DOWN_1));
    let b = joined(word_at(words, DOWN_2), word_at(words, DOWN_3));
    let c = word_at(words, DOWN_4) as u64;
    Set256 {
        words: [a, b, c, 0],
    }
}
