// The touches of a device in an image (02 A.6): a count, so many by ascending id, zeros up to the most.
#![tactic(auto)]

ghost use Rattle.std.specs.Prelude.{◌≡◌, ◌+◌, ◌*◌, ◌-◌, ◌<◌, ◌≤◌, length, take, None};
ghost use Rattle.std.proofs.lemmas.List.Edits.{sets};
ghost use Rattle.data.specs.Limits.{max_touches};
ghost use Rattle.image.specs.Codes.{write, entry_words, In, Each, all};
ghost use Rattle.image.specs.Places.{or_else, two_bad, bad_at, value_at, key_at};
ghost use Rattle.image_words.specs.Leaves.{found};
ghost use Rattle.touches.specs.Touches.{list};
ghost use Rattle.image_touches.specs.Touches.{ascending, force_code, touch_code, touches_code, touch_el, touch_of, touches_el, touches_of, seen_of};

use data::limits::MAX_TOUCHES;
use data::touch::ActiveTouch;
use emath::pos2::Pos2;
use image_options::{maybe_at, maybe_bad};
use image_words::{
    copy, count_at, high, key_bad, keys_bad, low, single_at, single_bad, single_word, two_at,
    word_bad, zeros_bad, zeros_put,
};
use touches::Touches;

// An id of two words, a position of two, a force or none of two.
pub const TOUCH_WORDS: usize = 6;

// Of a touch, after its id.
const AFTER_ID: usize = 4;

// Of a force, after its flag.
const FORCE_WORDS: usize = 1;

pub fn touch_words(t: ActiveTouch) -> [u32; 6]
    ensures { (result ≡ entry_words (write touch_code) (touch_el t)) × In touch_code (touch_el t).1 }
{
    let h = high(t.id);
    let l = low(t.id);
    let x = single_word(t.pos.x);
    let y = single_word(t.pos.y);
    match t.force {
        None => [h, l, x, y, 0, 0],
        Some(f) => [h, l, x, y, 1, single_word(f)],
    }
}

// The first n places.
fn places_put(places: [ActiveTouch; MAX_TOUCHES], n: usize, out: &mut [u32], at: usize)
    requires { (n ≤ max_touches) × (at + n * 6 ≤ length out.old) }
    ensures { (out.new ≡ sets out.old at (all (entry_words (write touch_code)) (touches_el (take n places)))) × Each (λ v. In touch_code v.1) (touches_el (take n places)) }
{
    for i in 0..n {
        let part = touch_words(places[i]);
        copy(out, at + i * TOUCH_WORDS, &part);
    }
}

pub fn touches_put(ts: Touches, out: &mut [u32], at: usize)
    requires { at + (1 + max_touches * 6) ≤ length out.old }
    ensures { (out.new ≡ sets out.old at (write (touches_code max_touches) (touches_el (list ts)))) × Each (λ v. In touch_code v.1) (touches_el (list ts)) × (length (list ts) ≤ max_touches) }
{
    let n = touches::len(ts);
    out[at] = n as u32;
    places_put(ts.places, n, out, at + 1);
    zeros_put(
        out,
        at + 1 + n * TOUCH_WORDS,
        (MAX_TOUCHES - n) * TOUCH_WORDS,
    );
}

// Kept (plain): `maybe_bad` of a force; the chain of checks that calls it then needs no proof of its own.
fn force_bad(words: &[u32], at: usize) -> Result<(), usize>
    requires { at < 0x1_0000_0000 }
    ensures { found result ≡ bad_at force_code words.now at }
{
    maybe_bad(words, at, FORCE_WORDS, single_bad(words, at + 1))
}

#[tactic(auto, unfolding(image::specs::Places::bad_at, image::specs::Places::span, image::specs::Places::or_else, image::specs::Codes::size, image_words::specs::Leaves::found))]
fn touch_bad(words: &[u32], at: usize, before: Option<u64>) -> Result<(), usize>
    requires { at + 6 < 0x1_0000_0000 }
    ensures { found result ≡ or_else (two_bad (ascending (seen_of before)) words.now at) (bad_at touch_code words.now (at + 2)) }
{
    key_bad(words, at, before)?;
    single_bad(words, at + 2)?;
    single_bad(words, at + 3)?;
    force_bad(words, at + 4)
}

// A form holds at most `most` touches.
#[tactic(auto, unfolding(image::specs::Places::bad_at, image::specs::Places::span, image::specs::Places::or_else, image::specs::Codes::size, image_words::specs::Leaves::found))]
pub fn touches_bad(words: &[u32], at: usize, most: u32) -> Result<(), usize>
    requires { (at < 0x1000_0000) × (most ≤ max_touches) }
    ensures { found result ≡ bad_at (touches_code most) words.now at }
{
    word_bad(words, at, most)?;
    let n = count_at(words, at, most);
    keys_bad(
        words,
        at + 1,
        n,
        AFTER_ID,
        |k, before| touch_bad(words, k, before),
    )?;
    let unused = (most as usize - n) * TOUCH_WORDS;
    zeros_bad(words, at + 1 + n * TOUCH_WORDS, unused)
}

fn touch_at(words: &[u32], at: usize) -> ActiveTouch
    requires { at + 6 < 0x1_0000_0000 }
    ensures { result ≡ touch_of (key_at (value_at touch_code) words.now at) }
{
    let id = two_at(words, at);
    let x = single_at(words, at + 2);
    let y = single_at(words, at + 3);
    let force = maybe_at(words, at + 4, single_at(words, at + 5));
    let pos = Pos2 { x, y };
    ActiveTouch { id, pos, force }
}

pub fn touches_at(words: &[u32], at: usize, most: u32) -> Touches
    requires { (at < 0x1000_0000) × (most ≤ max_touches) × (bad_at (touches_code most) words.now at ≡ None) }
    ensures { list result ≡ touches_of (value_at (touches_code most) words.now at) }
{
    let n = count_at(words, at, most);
    let mut ts = touches::none();
    for i in 0..n {
        let t = touch_at(words, at + 1 + i * TOUCH_WORDS);
        ts.places[i] = t;
    }
    ts.count = n;
    ts
}
