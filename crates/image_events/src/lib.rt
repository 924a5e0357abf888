// Group 11 of an image (02 A.6): the pass's pointer events. Six words each: kind, button, count and flags, position.
#![tactic(auto)]

ghost use Rattle.std.specs.Prelude.{◌≡◌, ◌+◌, ◌*◌, ◌<◌, ◌≤◌, length, None};
ghost use Rattle.std.proofs.lemmas.List.Edits.{sets};
ghost use Rattle.data.specs.Limits.{max_events};
ghost use Rattle.pointer_events.specs.Events.{events, events_from, counted};
ghost use Rattle.image.specs.Codes.{write, In, Each, all};
ghost use Rattle.image.specs.Places.{bad_at, value_at, rows_at, span};
ghost use Rattle.image.specs.Places as places;
ghost use Rattle.image_words.specs.Leaves.{found, any_id};
ghost use Rattle.image_events.specs.Events.{pos_code, clicked_code, by_kind, event_code, events_code, event_el, event_of_el, events_el, events_of_el, Stored};

use data::limits::MAX_EVENTS;
use data::pointer::PointerEvent;
use emath::pos2::Pos2;
use image_options::pair_bad;
use image_words::{
    Listing, copy, header_bad, rows_bad, single_at, single_bad, single_word, word_at, word_bad,
    zeros_bad,
};
use pointer_events::{CODES, Entry, PLACES, counted, entry_at, entry_of, event_of, push};

// The words of an event.
pub const EVENT_WORDS: usize = 6;

// The group's name, and its leading word of length 0.
const EVENTS: u32 = 11;

const EVENTS_WORD: u32 = 0xB000_0000;

// Not a kind: the greatest word that the field may hold.
const MAX_KIND: u32 = 3;

const MAX_BUTTON: u32 = 4;

const MAX_FLAGS: u32 = 31;

// The lent arrays that the events stand in, read.
// Kept (C): C lends the codes and the positions as two arrays of plain numbers.
#[derive(Clone, Copy)]
pub struct Entries<'a> {
    pub codes: &'a [u32; CODES],
    pub positions: &'a [f32; PLACES],
}

// The group's list, of at most `most` events.
fn list(most: u32) -> Listing
    ensures { (result.name ≡ 11) × (result.most ≡ most) × (result.size ≡ 6) }
{
    Listing {
        name: EVENTS,
        most,
        size: EVENT_WORDS,
    }
}

// A stored kind over 3 is written as the 3 that it means.
pub fn event_words(e: PointerEvent) -> [u32; 6]
    ensures { (result ≡ write event_code (event_el e)) × In event_code (event_el e) }
{
    let x = entry_of(e);
    [
        x.kind,
        x.button,
        x.count,
        x.flags,
        single_word(x.pos.x),
        single_word(x.pos.y),
    ]
}

// The first n events.
fn rows_put(from: Entries, n: usize, out: &mut [u32], at: usize)
    requires { (n ≤ max_events) × (at + n * 6 ≤ length out.old) }
    ensures { (out.new ≡ sets out.old at (all (write event_code) (events_el (events_from from.entry.codes.now from.entry.positions.now 0 n)))) × Each (In event_code) (events_el (events_from from.entry.codes.now from.entry.positions.now 0 n)) }
{
    for i in 0..n {
        let x = entry_at(from.codes, from.positions, i);
        let part = event_words(event_of(x));
        copy(out, at + i * EVENT_WORDS, &part);
    }
}

pub fn events_put(from: Entries, count: usize, out: &mut [u32], at: usize)
    requires { at + (1 + counted count * 6) ≤ length out.old }
    ensures { (out.new ≡ sets out.old at (write (events_code max_events) (events_el (events from.entry.codes.now from.entry.positions.now count)))) × In (events_code max_events) (events_el (events from.entry.codes.now from.entry.positions.now count)) }
{
    let n = counted(count);
    out[at] = EVENTS_WORD + (n * EVENT_WORDS) as u32;
    rows_put(from, n, out, at + 1);
}

// Any count: it is wrong only where it is missing.
fn count_bad(words: &[u32], at: usize) -> Result<(), usize>
    ensures { found result ≡ places.word_bad any_id words.now at }
{
    header_bad(words, at, word_at(words, at))
}

// The place of a click's position, after its button, its count and its flags.
const CLICK_POS: usize = 3;

#[tactic(auto, unfolding(image::specs::Places::bad_at, image::specs::Places::span, image::specs::Places::or_else, image::specs::Codes::size, image_words::specs::Leaves::found))]
fn clicked_bad(words: &[u32], at: usize) -> Result<(), usize>
    requires { at < 0x1_0000_0000 }
    ensures { found result ≡ bad_at clicked_code words.now at }
{
    word_bad(words, at, MAX_BUTTON)?;
    count_bad(words, at + 1)?;
    word_bad(words, at + 2, MAX_FLAGS)?;
    pair_bad(words, at + CLICK_POS)
}

#[tactic(auto, unfolding(image::specs::Places::bad_at, image::specs::Places::span, image::specs::Places::or_else, image::specs::Codes::size, image_words::specs::Leaves::found))]
fn moved_bad(words: &[u32], at: usize) -> Result<(), usize>
    requires { at < 0x1_0000_0000 }
    ensures { found result ≡ bad_at (by_kind 0) words.now at }
{
    zeros_bad(words, at, 3)?;
    pair_bad(words, at + 3)
}

#[tactic(auto, unfolding(image::specs::Places::bad_at, image::specs::Places::span, image::specs::Places::or_else, image::specs::Codes::size, image_words::specs::Leaves::found))]
fn pressed_bad(words: &[u32], at: usize) -> Result<(), usize>
    requires { at < 0x1_0000_0000 }
    ensures { found result ≡ bad_at (by_kind 1) words.now at }
{
    word_bad(words, at, MAX_BUTTON)?;
    zeros_bad(words, at + 1, 2)?;
    pair_bad(words, at + 3)
}

#[tactic(auto, unfolding(image::specs::Places::bad_at, image::specs::Places::span, image::specs::Places::or_else, image::specs::Codes::size, image_words::specs::Leaves::found))]
fn released_bad(words: &[u32], at: usize) -> Result<(), usize>
    requires { at < 0x1_0000_0000 }
    ensures { found result ≡ bad_at (by_kind 2) words.now at }
{
    word_bad(words, at, MAX_BUTTON)?;
    zeros_bad(words, at + 1, 4)
}

// The five words after the kind.
// Kept (plain): the word itself is matched: `EventKind` would need words that are not yet checked.
fn fields_bad(words: &[u32], at: usize, kind: u32) -> Result<(), usize>
    requires { at < 0x1_0000_0000 }
    ensures { found result ≡ bad_at (by_kind kind) words.now at }
{
    match kind {
        0 => moved_bad(words, at),
        1 => pressed_bad(words, at),
        2 => released_bad(words, at),
        _ => clicked_bad(words, at),
    }
}

fn event_bad(words: &[u32], at: usize) -> Result<(), usize>
    requires { at + 6 < 0x1_0000_0000 }
    ensures { found result ≡ bad_at event_code words.now at }
{
    word_bad(words, at, MAX_KIND)?;
    fields_bad(words, at + 1, word_at(words, at))
}

// How many events follow, where the leading word is right. A form holds at most `most`.
pub fn events_count(words: &[u32], at: usize, most: u32) -> usize
    requires { most ≤ max_events }
    ensures { (result ≤ most) × (bad_at (events_code most) words.now at ≡ None → 1 + result * 6 ≡ span (events_code most) words.now at) }
{
    list(most).count(words, at)
}

#[tactic(auto, unfolding(image::specs::Places::bad_at, image::specs::Places::span, image::specs::Places::or_else, image::specs::Codes::size, image_words::specs::Leaves::found))]
pub fn events_bad(words: &[u32], at: usize, most: u32) -> Result<(), usize>
    requires { (at < 0x1000_0000) × (most ≤ max_events) }
    ensures { found result ≡ bad_at (events_code most) words.now at }
{
    let events = list(most);
    events.bad(words, at)?;
    let n = events.count(words, at);
    rows_bad(at + 1, n, EVENT_WORDS, |k| event_bad(words, k))
}

fn event_at(words: &[u32], at: usize) -> PointerEvent
    requires { at + 6 < 0x1_0000_0000 }
    ensures { result ≡ event_of_el (value_at event_code words.now at) }
{
    let pos = Pos2 {
        x: single_at(words, at + 4),
        y: single_at(words, at + 5),
    };
    let x = Entry {
        kind: word_at(words, at),
        button: word_at(words, at + 1),
        count: word_at(words, at + 2),
        flags: word_at(words, at + 3),
        pos,
    };
    event_of(x)
}

// Kept (plain): lent one by one: of a struct that holds a `&mut` each clause would have to say what stands behind it afterwards.
fn rows_at(
    codes: &mut [u32; CODES],
    positions: &mut [f32; PLACES],
    words: &[u32],
    at: usize,
    n: usize,
) -> usize
    requires { (n ≤ max_events) × (at < 0x1000_0001) }
    ensures { Stored (events_of_el (rows_at 6 (value_at event_code) n words.now at)) codes.old positions.old result codes.new positions.new }
{
    let mut count: usize = 0;
    for i in 0..n {
        let e = event_at(words, at + i * EVENT_WORDS);
        count = push(codes, positions, count, e);
    }
    count
}

// The new count; requires that nothing is wrong, so that nothing is written before all is checked.
// Kept (plain): lent one by one: of a struct that holds a `&mut` each clause would have to say what stands behind it afterwards.
pub fn events_at(
    codes: &mut [u32; CODES],
    positions: &mut [f32; PLACES],
    words: &[u32],
    at: usize,
    most: u32,
) -> usize
    requires { (at < 0x1000_0000) × (most ≤ max_events) × (bad_at (events_code most) words.now at ≡ None) }
    ensures { Stored (events_of_el (value_at (events_code most) words.now at)) codes.old positions.old result codes.new positions.new }
{
    let n = list(most).count(words, at);
    rows_at(codes, positions, words, at + 1, n)
}
