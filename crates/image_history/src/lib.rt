// Group 10 of an image (02 A.6): the history, a list over the ring's lent arrays, the oldest sample first.
#![tactic(auto)]

ghost use Rattle.std.specs.Prelude.{◌≡◌, ◌+◌, ◌*◌, ◌<◌, ◌≤◌, length, set, None};
ghost use Rattle.std.proofs.lemmas.List.Edits.{sets};
ghost use Rattle.image.specs.Codes.{write, In, Each, all};
ghost use Rattle.image.specs.Places.{bad_at, value_at, rows_at, span};
ghost use Rattle.image_words.specs.Leaves.{found};
ghost use Rattle.emath.specs.History.{max_len};
ghost use Rattle.emath_history.specs.Ring.{samples, count, view};
ghost use Rattle.image_history.specs.History.{sample_code, sample_el, history_code, history_el, Filled};

use emath_history::history::{History, MAX_LEN, PARTS};
use image_words::{
    Listing, copy, double_at, double_bad, double_word, high, low, rows_bad, single_at, single_bad,
    single_word,
};

// Each sample has a time of two words and a position of two.
pub const SAMPLE_WORDS: usize = 4;

const HISTORY: Listing = Listing {
    name: 10,
    most: 1000,
    size: SAMPLE_WORDS,
};

// The group's leading word of length 0.
const HISTORY_WORD: u32 = 0xA000_0000;

// The ring's two lent arrays, read.
// Kept (C): C lends the times and the positions as two arrays of plain numbers.
#[derive(Clone, Copy)]
pub struct Ring<'a> {
    pub times: &'a [f64; MAX_LEN],
    pub positions: &'a [f32; PARTS],
}

pub fn sample_words(time: f64, x: f32, y: f32) -> [u32; 4]
    ensures { (result ≡ write sample_code (time, (x, y))) × In sample_code (time, (x, y)) }
{
    let t = double_word(time);
    [high(t), low(t), single_word(x), single_word(y)]
}

// n samples from place `start` of the ring on.
// Kept (C): a sample's time and position stand in two arrays, as C lends them.
fn samples_put(start: usize, n: usize, ring: Ring, out: &mut [u32], at: usize)
    requires { (start < max_len) × (n ≤ max_len) × (at + n * 4 ≤ length out.old) }
    ensures { (out.new ≡ sets out.old at (all (write sample_code) (history_el (samples ring.entry.times.now ring.entry.positions.now start n)))) × Each (In sample_code) (history_el (samples ring.entry.times.now ring.entry.positions.now start n)) }
{
    for i in 0..n {
        let k = (start + i) % MAX_LEN;
        let part = sample_words(
            ring.times[k],
            ring.positions[k * 2],
            ring.positions[k * 2 + 1],
        );
        copy(out, at + i * SAMPLE_WORDS, &part);
    }
}

pub fn history_put(h: History, ring: Ring, out: &mut [u32], at: usize)
    requires { at + (1 + count h * 4) ≤ length out.old }
    ensures { (out.new ≡ sets out.old at (write history_code (history_el (view ring.entry.times.now ring.entry.positions.now h)))) × In history_code (history_el (view ring.entry.times.now ring.entry.positions.now h)) }
{
    let n = h.len();
    out[at] = HISTORY_WORD + (n * SAMPLE_WORDS) as u32;
    samples_put(h.start % MAX_LEN, n, ring, out, at + 1);
}

#[tactic(auto, unfolding(image::specs::Places::bad_at, image::specs::Places::span, image::specs::Places::or_else, image::specs::Codes::size, image_words::specs::Leaves::found))]
fn sample_bad(words: &[u32], at: usize) -> Result<(), usize>
    requires { at + 3 < 0x1_0000_0000_0000_0000 }
    ensures { found result ≡ bad_at sample_code words.now at }
{
    double_bad(words, at)?;
    single_bad(words, at + 2)?;
    single_bad(words, at + 3)
}

// How many samples follow, where the leading word is right.
pub fn history_count(words: &[u32], at: usize) -> usize
    ensures { (result ≤ max_len) × (bad_at history_code words.now at ≡ None → 1 + result * 4 ≡ span history_code words.now at) }
{
    HISTORY.count(words, at)
}

#[tactic(auto, unfolding(image::specs::Places::bad_at, image::specs::Places::span, image::specs::Places::or_else, image::specs::Codes::size, image_words::specs::Leaves::found))]
pub fn history_bad(words: &[u32], at: usize) -> Result<(), usize>
    requires { at < 0x1_0000_0000 }
    ensures { found result ≡ bad_at history_code words.now at }
{
    HISTORY.bad(words, at)?;
    let n = HISTORY.count(words, at);
    rows_bad(at + 1, n, SAMPLE_WORDS, |k| sample_bad(words, k))
}

// Kept (plain): lent one by one: of a struct that holds a `&mut` each clause would have to say what stands behind it afterwards.
// Over slices: a slice's length is known to its caller's proof, an array's behind a reference is not.
fn set_sample(times: &mut [f64], positions: &mut [f32], i: usize, time: f64, x: f32, y: f32)
    requires { (i < length times.old) × (i * 2 + 1 < length positions.old) }
    ensures { (times.new ≡ set times.old i time) × (positions.new ≡ set (set positions.old (i * 2) x) (i * 2 + 1) y) }
{
    times[i] = time;
    positions[i * 2] = x;
    positions[i * 2 + 1] = y;
}

// Kept (plain): lent one by one: of a struct that holds a `&mut` each clause would have to say what stands behind it afterwards.
fn samples_at(
    times: &mut [f64; MAX_LEN],
    positions: &mut [f32; PARTS],
    words: &[u32],
    at: usize,
    n: usize,
) -> History
    requires { (n ≤ max_len) × (at < 0x1_0000_0000) }
    ensures { Filled n (rows_at 4 (value_at sample_code) n words.now at) times.old positions.old result times.new positions.new × (result.len ≡ n) }
{
    for i in 0..n {
        let k = at + i * SAMPLE_WORDS;
        let time = double_at(words, k);
        let x = single_at(words, k + 2);
        let y = single_at(words, k + 3);
        set_sample(times, positions, i, time, x, y);
    }
    History { start: 0, len: n }
}

// From place 0 of the ring on; requires that nothing is wrong, so that nothing is written before all is checked.
// Kept (plain): lent one by one: of a struct that holds a `&mut` each clause would have to say what stands behind it afterwards.
pub fn history_at(
    times: &mut [f64; MAX_LEN],
    positions: &mut [f32; PARTS],
    words: &[u32],
    at: usize,
) -> History
    requires { (at < 0x1000_0000) × (bad_at history_code words.now at ≡ None) }
    ensures { (result.len ≤ max_len) × Filled result.len (value_at history_code words.now at) times.old positions.old result times.new positions.new }
{
    let n = HISTORY.count(words, at);
    samples_at(times, positions, words, at + 1, n)
}
