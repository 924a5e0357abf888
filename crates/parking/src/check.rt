// What is wrong first with the words of an image. Nothing is written.
ghost use Rattle.std.specs.Prelude.{◌+◌, ◌<◌, ◌≡◌, None};
ghost use Rattle.data.specs.Limits.{max_events, max_devices, max_touches};
ghost use Rattle.image.specs.Places.{bad_at, span};
ghost use Rattle.image_words.specs.Leaves.{found};
ghost use Rattle.image_history.specs.History.{history_code};
ghost use Rattle.image_events.specs.Events.{events_code};
ghost use Rattle.image_devices.specs.Devices.{devices_code};
ghost use Rattle.image_form.specs.Placed.{lists_place, events_place, end_bad, image_bad};
ghost use Rattle.parking.specs.Restored.{Checked};

use crate::park::{FIRST_WORD, HISTORY};
use data::limits::MAX_EVENTS;
use image_devices::{DEVICE_WORDS, devices_bad, devices_count};
use image_events::{EVENT_WORDS, events_bad, events_count};
use image_fixed::fixed_bad;
use image_history::{SAMPLE_WORDS, history_bad, history_count};
use image_words::word_at;

#[derive(Clone, Copy)]
pub enum ImageRefusal {
    // 14
    FirstWord,
    // 15 at a word
    Word(usize),
}

// The place after the history, as its length says.
pub fn events_place(words: &[u32]) -> usize
    ensures { (result < 0x10_0000) × (bad_at history_code words.now lists_place ≡ None → result ≡ events_place words.now) }
{
    HISTORY + 1 + history_count(words, HISTORY) * SAMPLE_WORDS
}

// The place after the events that begin at a place.
pub fn devices_place(words: &[u32], at: usize) -> usize
    requires { at < 0x10_0000 }
    ensures { (result < 0x20_0000) × (bad_at (events_code max_events) words.now at ≡ None → result ≡ at + span (events_code max_events) words.now at) }
{
    at + 1 + events_count(words, at, MAX_EVENTS as u32) * EVENT_WORDS
}

// The place after the devices.
fn end_place(words: &[u32], at: usize) -> usize
    requires { at < 0x20_0000 }
    ensures { bad_at (devices_code max_devices max_touches) words.now at ≡ None → result ≡ at + span (devices_code max_devices max_touches) words.now at }
{
    at + 1 + devices_count(words, at) * DEVICE_WORDS
}

// A word after the last group.
fn end_bad(words: &[u32], at: usize) -> Result<(), usize>
    ensures { found result ≡ end_bad words.now at }
{
    if at < words.len() {
        return Err(at);
    }
    Ok(())
}

// All behind the first word. What stands behind a list is asked at the place that its length gives: where the length is wrong, that is told first.
fn groups_bad(words: &[u32]) -> Result<(), usize>
    ensures { found result ≡ image_bad words.now }
{
    let events = events_place(words);
    let devices = devices_place(words, events);
    let end = end_place(words, devices);
    fixed_bad(words)?;
    history_bad(words, HISTORY)?;
    events_bad(words, events, MAX_EVENTS as u32)?;
    devices_bad(words, devices)?;
    end_bad(words, end)
}

pub fn check(words: &[u32]) -> Result<(), ImageRefusal>
    ensures { Checked result words.now }
{
    if FIRST_WORD != word_at(words, 0) {
        return Err(ImageRefusal::FirstWord);
    }
    groups_bad(words).map_err(ImageRefusal::Word)
}
