// The keys, and whether the feed was empty.
ghost use Rattle.model.specs.Questions.{bool, count};
ghost use Rattle.model.specs.Questions as ask;
ghost use Rattle.input_questions.specs.Answers.{OfKeys, OfPresses};

use key_state::keys::{Keys, PRESSES};

// `key` is its place in egui's Key.
pub fn key_down(k: Keys, key: u32) -> bool
    ensures { OfKeys (ask.key_down key) k (bool result) }
{
    key_state::keys::key_down(k, key)
}

pub fn num_presses(presses: &[u8; PRESSES], key: u32) -> u8
    ensures { OfPresses (ask.num_presses key) presses.now (count result) }
{
    key_state::keys::num_presses(presses, key)
}

pub fn key_pressed(presses: &[u8; PRESSES], key: u32) -> bool
    ensures { OfPresses (ask.key_pressed key) presses.now (bool result) }
{
    key_state::keys::key_pressed(presses, key)
}

// Held the pass's feed no event?
pub fn feed_was_empty(k: Keys) -> bool
    ensures { OfKeys ask.feed_was_empty k (bool result) }
{
    k.feed_empty
}
