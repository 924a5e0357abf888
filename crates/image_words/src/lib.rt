// One field of an image (02 A.6) checked or read, words written. A field is named by the place of its first word.
// Checking and reading one field asks nothing of the place, and a word that is missing reads as 0. A list asks for room, a test that is handed in that it may be called.
#![tactic(auto)]

ghost use Rattle.std.specs.Prelude.{◌≡◌, Bool, ℕ, ◌+◌, ◌*◌, ◌/◌, ◌%◌, ◌≤◌, ◌<◌, T, eqb, Float, List, [], Option, length, get_or, None};
ghost use Rattle.std.specs.Float.{binary32, binary64};
ghost use Rattle.std.specs.Float.Ieee.{of_bits, to_bits, fits};
ghost use Rattle.std.proofs.lemmas.List.Edits.{sets};
ghost use Rattle.image.specs.Codes.{zeros, single_ok, double_ok, count_of, table_ok};
ghost use Rattle.image.specs.Places.{or_else, word_bad, two_at, two_bad, zeros_bad, rows_bad, keys_bad};
ghost use Rattle.image_words.specs.Leaves.{found, flag, upto, any, any_id, ascending, seen_of};

use ieee::bits::{from_bits32, from_bits64, to_bits32, to_bits64};

// The weight of the high word in a field of two.
const HALF: u64 = 0x1_0000_0000;

// The weight of a name: the top 4 bits of a word.
const NAME: u64 = 0x1000_0000;

// Kept (plain): std has no method for the half of a number; the clauses of all groups say the halves in these words.
pub fn high(b: u64) -> u32
    ensures { result ≡ b / 0x1_0000_0000 }
{
    (b / HALF) as u32
}

// Kept (plain): as `high`.
pub fn low(b: u64) -> u32
    ensures { result ≡ b % 0x1_0000_0000 }
{
    (b % HALF) as u32
}

// "A not-a-number has one form", 7FC00000. Each says too that the float fits its format: that is what its type is.
pub fn single_word(x: f32) -> u32
    ensures { (result ≡ to_bits binary32 x) × T (fits binary32 x) }
{
    to_bits32(x)
}

// Or 7FF80000 00000000.
pub fn double_word(x: f64) -> u64
    ensures { (result ≡ to_bits binary64 x) × T (fits binary64 x) }
{
    to_bits64(x)
}

// ---- values

pub fn word_at(words: &[u32], at: usize) -> u32
    ensures { result ≡ get_or words.now at 0 }
{
    words.get(at).copied().unwrap_or(0)
}

// Two words, the high one first.
pub fn two_at(words: &[u32], at: usize) -> u64
    ensures { result ≡ two_at words.now at }
{
    if at < words.len() {
        return words[at] as u64 * HALF + word_at(words, at + 1) as u64;
    }
    0
}

// Kept (plain): two of each for f32 and f64. A float's words are of its own format and number, and a generic one would need a trait with laws for bodies of one line.
pub fn single_at(words: &[u32], at: usize) -> f32
    ensures { result ≡ of_bits binary32 (get_or words.now at 0) }
{
    from_bits32(word_at(words, at))
}

pub fn double_at(words: &[u32], at: usize) -> f64
    ensures { result ≡ of_bits binary64 (two_at words.now at) }
{
    from_bits64(two_at(words, at))
}

// ---- tests
fn single_one_form(w: u32) -> bool
    ensures { result ≡ single_ok any w }
{
    to_bits32(from_bits32(w)) == w
}

fn double_one_form(b: u64) -> bool
    ensures { result ≡ double_ok any b }
{
    to_bits64(from_bits64(b)) == b
}

// A field of one word that is to pass `test`.
fn one<F: FnOnce(u32) -> bool>(words: &[u32], at: usize, test: F) -> Result<(), usize>
    requires { F.pre test (get_or words.now at 0) }
    ensures { (p : ℕ → Bool) → ((r : _) → F.post test (get_or words.now at 0) r → r ≡ p (get_or words.now at 0)) → found result ≡ word_bad p words.now at }
{
    if at < words.len() {
        if test(words[at]) {
            return Ok(());
        }
    }
    Err(at)
}

// And one of two words.
fn two<F: FnOnce(u64) -> bool>(words: &[u32], at: usize, test: F) -> Result<(), usize>
    requires { F.pre test (two_at words.now at) }
    ensures { (p : ℕ → Bool) → ((r : _) → F.post test (two_at words.now at) r → r ≡ p (two_at words.now at)) → found result ≡ two_bad p words.now at }
{
    if at < words.len() {
        if at + 1 < words.len() {
            if test(two_at(words, at)) {
                return Ok(());
            }
            return Err(at);
        }
        return Err(at + 1);
    }
    Err(at)
}

// A group's leading word.
pub fn header_bad(words: &[u32], at: usize, header: u32) -> Result<(), usize>
    ensures { found result ≡ word_bad (eqb header) words.now at }
{
    one(words, at, |w| header == w)
}

// A word up to the most.
pub fn word_bad(words: &[u32], at: usize, most: u32) -> Result<(), usize>
    ensures { found result ≡ word_bad (upto most) words.now at }
{
    one(words, at, |w| w <= most)
}

pub fn flag_bad(words: &[u32], at: usize) -> Result<(), usize>
    ensures { found result ≡ word_bad flag words.now at }
{
    one(words, at, |w| w < 2)
}

pub fn single_bad(words: &[u32], at: usize) -> Result<(), usize>
    ensures { found result ≡ word_bad (single_ok any) words.now at }
{
    one(words, at, single_one_form)
}

// In its one form, and in the range that `ok` tests: it is asked of the value there alone.
// Kept (plain): two of each, as `single_at`.
pub fn single_in_bad<F: Fn(f32) -> bool>(words: &[u32], at: usize, ok: F) -> Result<(), usize>
    requires { F.pre ok (of_bits binary32 (get_or words.now at 0)) }
    ensures { (p : Float → Bool) → ((r : _) → F.post ok (of_bits binary32 (get_or words.now at 0)) r → r ≡ p (of_bits binary32 (get_or words.now at 0))) → found result ≡ word_bad (single_ok p) words.now at }
{
    let in_range = ok(single_at(words, at));
    one(words, at, |w| single_one_form(w) & in_range)
}

pub fn double_bad(words: &[u32], at: usize) -> Result<(), usize>
    ensures { found result ≡ two_bad (double_ok any) words.now at }
{
    two(words, at, double_one_form)
}

// Kept (plain): two of each, as `single_at`.
pub fn double_in_bad<F: Fn(f64) -> bool>(words: &[u32], at: usize, ok: F) -> Result<(), usize>
    requires { F.pre ok (of_bits binary64 (two_at words.now at)) }
    ensures { (p : Float → Bool) → ((r : _) → F.post ok (of_bits binary64 (two_at words.now at)) r → r ≡ p (of_bits binary64 (two_at words.now at))) → found result ≡ two_bad (double_ok p) words.now at }
{
    let in_range = ok(double_at(words, at));
    two(words, at, |b| double_one_form(b) & in_range)
}

pub fn id_bad(words: &[u32], at: usize) -> Result<(), usize>
    ensures { found result ≡ two_bad any_id words.now at }
{
    two(words, at, |_| true)
}

// An id of a list by ascending id: after the one before it, if it is not the first.
pub fn key_bad(words: &[u32], at: usize, before: Option<u64>) -> Result<(), usize>
    ensures { found result ≡ two_bad (ascending (seen_of before)) words.now at }
{
    match before {
        None => two(words, at, |_| true),
        Some(b) => two(words, at, |d| b < d),
    }
}

// n words of 0.
pub fn zeros_bad(words: &[u32], at: usize, n: usize) -> Result<(), usize>
    ensures { found result ≡ zeros_bad n words.now at }
{
    for i in 0..n {
        if words.len() <= at + i {
            return Err(at + i);
        }
        if words[at + i] != 0 {
            return Err(at + i);
        }
    }
    Ok(())
}

// ---- lists

// A list as its leading word has it: the name in the top 4 bits; and the most entries, and the words of each.
#[derive(Clone, Copy)]
pub struct Listing {
    pub name: u32,
    pub most: u32,
    pub size: usize,
    pub ghost named: { name < 16 },
    pub ghost sized: { 0 < size },
}

impl Listing {
    // How many entries a leading word announces.
    fn announced(self, w: u32) -> u64
        ensures { result ≡ count_of self.name self.size w }
    {
        (w as u64).saturating_sub(self.name as u64 * NAME) / self.size as u64
    }

    // A whole number of entries, up to the most.
    fn ok(self, w: u32) -> bool
        ensures { result ≡ table_ok self.name self.most self.size w }
    {
        let n = self.announced(w);
        (self.name as u64 * NAME + n * self.size as u64 == w as u64) & (n <= self.most as u64)
    }

    // What is wrong with the leading word.
    pub fn bad(self, words: &[u32], at: usize) -> Result<(), usize>
        ensures { found result ≡ word_bad (table_ok self.name self.most self.size) words.now at }
    {
        one(words, at, |w| self.ok(w))
    }

    // How many entries follow, where the leading word is right; at most the most in any case, so that places behind it don't wrap.
    pub fn count(self, words: &[u32], at: usize) -> usize
        ensures { (result ≤ self.most) × (word_bad (table_ok self.name self.most self.size) words.now at ≡ None → result ≡ count_of self.name self.size (get_or words.now at 0)) }
    {
        let n = self.announced(word_at(words, at));
        if n <= self.most as u64 {
            return n as usize;
        }
        0
    }
}

// The count, where it is right; at most the most in any case.
pub fn count_at(words: &[u32], at: usize, most: u32) -> usize
    ensures { (result ≤ most) × (word_bad (upto most) words.now at ≡ None → result ≡ get_or words.now at 0) }
{
    let n = word_at(words, at);
    if n <= most {
        return n as usize;
    }
    0
}

// The first wrong word of n entries of `size` words each; `row` tells what is wrong with the entry at a place.
pub fn rows_bad<F: Fn(usize) -> Result<(), usize>>(
    at: usize,
    n: usize,
    size: usize,
    row: F,
) -> Result<(), usize>
    requires fits { at + n * size < 0x1_0000_0000_0000_0000 }
    requires asked { (i : ℕ) → i < n → F.pre row (at + i * size) }
    ensures { (f : List ℕ → ℕ → Option ℕ) (ws : List ℕ) → ((i : ℕ) (r : _) → F.post row i r → found r ≡ f ws i) → found result ≡ rows_bad size f n ws at }
{
    for i in 0..n {
        row(at + i * size)?;
    }
    Ok(())
}

// The words of an entry's id.
const ID_WORDS: usize = 2;

// The first wrong word of n entries by ascending id, each with `after` words after its id; `entry` tells what is wrong with the entry at a place, whose id is to be above the one before.
pub fn keys_bad<F: Fn(usize, Option<u64>) -> Result<(), usize>>(
    words: &[u32],
    at: usize,
    n: usize,
    after: usize,
    entry: F,
) -> Result<(), usize>
    requires fits { at + n * (2 + after) < 0x1_0000_0000_0000_0000 }
    requires asked { (i : ℕ) (before : Option ℕ) → i < n → F.pre entry (at + i * (2 + after)) before }
    ensures { (f : List ℕ → ℕ → Option ℕ)
        → ((i : ℕ) (before : Option ℕ) (r : _) → F.post entry i before r → found r ≡ or_else (two_bad (ascending (seen_of before)) words.now i) (f words.now (i + 2)))
        → found result ≡ keys_bad after ascending f n [] words.now at }
{
    let mut before = None;
    for i in 0..n {
        let k = at + i * (ID_WORDS + after);
        entry(k, before)?;
        before = Some(two_at(words, k));
    }
    Ok(())
}

// ---- writing

// The words of `part`, from place `at` on.
pub fn copy(out: &mut [u32], at: usize, part: &[u32])
    requires { at + length part.now ≤ length out.old }
    ensures { out.new ≡ sets out.old at part.now }
{
    out[at..at + part.len()].copy_from_slice(part);
}

pub fn zeros_put(out: &mut [u32], at: usize, n: usize)
    requires { at + n ≤ length out.old }
    ensures { out.new ≡ sets out.old at (zeros n) }
{
    out[at..at + n].fill(0);
}
