// Fields that several groups of an image (02 A.6) share: positions and vectors, and values that may be absent.
#![tactic(auto)]

ghost use Rattle.std.specs.Prelude.{◌≡◌, ◌+◌, ◌<◌, suc, length};
ghost use Rattle.std.specs.Option.{option_map};
ghost use Rattle.image.specs.Codes.{Code, double, id, maybe, El, size, write, In};
ghost use Rattle.image.specs.Places.{bad_at, value_at};
ghost use Rattle.image_words.specs.Leaves.{found, any, any_id};
ghost use Rattle.image_options.specs.Options.{Near, pair, maybe_pair, maybe_time, maybe_id, pos_of, vec_of, pos_el, vec_el};
ghost use Rattle.image_options.specs.Sizes.{pair_size, pair_long, double_size, double_long, id_size, id_long};

use emath::pos2::Pos2;
use emath::vec2::Vec2;
use image_words::{
    double_bad, double_word, flag_bad, high, id_bad, low, single_at, single_bad, single_word,
    word_at, zeros_bad,
};

// How many words follow the flag.
const PAIR_WORDS: usize = 2;

const DOUBLE_WORDS: usize = 2;

const ID_WORDS: usize = 2;

// ---- words

// A value of two words: its description, and what stands for it.
pub trait TwoWords {
    ghost code: { Code };

    ghost el: { Self → El code };

    fn words(self) -> [u32; 2]
        ensures { (result ≡ write code (el self)) × In code (el self) };

    ghost two: { size code ≡ 2 };

    ghost long: { (v : Self) → length (write code (el v)) ≡ 2 };
}

impl TwoWords for Pos2 {
    ghost code = { pair };

    ghost el = { pos_el };

    ghost two = { pair_size };

    ghost long = { λ v. pair_long (pos_el v) };

    fn words(self) -> [u32; 2] {
        [single_word(self.x), single_word(self.y)]
    }
}

impl TwoWords for Vec2 {
    ghost code = { pair };

    ghost el = { vec_el };

    ghost two = { pair_size };

    ghost long = { λ v. pair_long (vec_el v) };

    fn words(self) -> [u32; 2] {
        [single_word(self.x), single_word(self.y)]
    }
}

impl TwoWords for f64 {
    ghost code = { double any };

    ghost el = { λ t. t };

    ghost two = { double_size };

    ghost long = { double_long };

    fn words(self) -> [u32; 2] {
        let b = double_word(self);
        [high(b), low(b)]
    }
}

impl TwoWords for u64 {
    ghost code = { id any_id };

    ghost el = { λ d. d };

    ghost two = { id_size };

    ghost long = { id_long };

    fn words(self) -> [u32; 2] {
        [high(self), low(self)]
    }
}

// The flag, and the value's words or zeros.
pub fn maybe_words<T: TwoWords>(value: Option<T>) -> [u32; 3]
    ensures { (result ≡ write (maybe T.code) (option_map T.el value)) × In (maybe T.code) (option_map T.el value) }
{
    match value {
        None => [0, 0, 0],
        Some(v) => {
            let w = v.words();
            [1, w[0], w[1]]
        }
    }
}

// ---- checks

#[tactic(auto, unfolding(image::specs::Places::bad_at, image::specs::Places::span, image::specs::Places::or_else, image::specs::Codes::size, image_words::specs::Leaves::found))]
pub fn pair_bad(words: &[u32], at: usize) -> Result<(), usize>
    requires { at + 1 < 0x1_0000_0000_0000_0000 }
    ensures { found result ≡ bad_at pair words.now at }
{
    single_bad(words, at)?;
    single_bad(words, at + 1)
}

// A flag, then the value, of which `value` tells what is wrong, or as many zeros: of every description.
#[tactic(auto, unfolding(image::specs::Places::bad_at, image::specs::Places::span, image::specs::Places::or_else, image::specs::Codes::size, image_words::specs::Leaves::found))]
pub fn maybe_bad(words: &[u32], at: usize, n: usize, value: Result<(), usize>) -> Result<(), usize>
    requires { Near at }
    ensures { (a : Code) → size a ≡ n → found value ≡ bad_at a words.now (suc at) → found result ≡ bad_at (maybe a) words.now at }
{
    flag_bad(words, at)?;
    if word_at(words, at) == 0 {
        return zeros_bad(words, at + 1, n);
    }
    value
}

// Kept (plain): here and in the next two, `maybe_bad` of one description; the chains of checks that call them then need no proof of their own.
pub fn maybe_pair_bad(words: &[u32], at: usize) -> Result<(), usize>
    requires { Near at }
    ensures { found result ≡ bad_at maybe_pair words.now at }
{
    maybe_bad(words, at, PAIR_WORDS, pair_bad(words, at + 1))
}

// Kept (plain): as `maybe_pair_bad`.
pub fn maybe_time_bad(words: &[u32], at: usize) -> Result<(), usize>
    requires { Near at }
    ensures { found result ≡ bad_at maybe_time words.now at }
{
    maybe_bad(words, at, DOUBLE_WORDS, double_bad(words, at + 1))
}

// Kept (plain): as `maybe_pair_bad`.
pub fn maybe_id_bad(words: &[u32], at: usize) -> Result<(), usize>
    requires { Near at }
    ensures { found result ≡ bad_at maybe_id words.now at }
{
    maybe_bad(words, at, ID_WORDS, id_bad(words, at + 1))
}

// ---- values

// Kept (plain): two of each. A position and a vector are types of their own, and as methods of a trait these would be the same two bodies.
pub fn pos_at(words: &[u32], at: usize) -> Pos2
    requires { Near at }
    ensures { result ≡ pos_of (value_at pair words.now at) }
{
    Pos2 {
        x: single_at(words, at),
        y: single_at(words, at + 1),
    }
}

// Kept (plain): as `pos_at`.
pub fn vec_at(words: &[u32], at: usize) -> Vec2
    requires { Near at }
    ensures { result ≡ vec_of (value_at pair words.now at) }
{
    Vec2 {
        x: single_at(words, at),
        y: single_at(words, at + 1),
    }
}

// None where the flag is 0, or the value that was read behind it: of every description.
pub fn maybe_at<T: Drop>(words: &[u32], at: usize, value: T) -> Option<T>
    ensures { (a : Code) (f : El a → T) → value ≡ f (value_at a words.now (suc at)) → result ≡ option_map f (value_at (maybe a) words.now at) }
{
    (word_at(words, at) != 0).then_some(value)
}
