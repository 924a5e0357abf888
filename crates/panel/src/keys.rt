// Keys and modifiers. `key` is its place in egui's Key; over 144 it is not down and has 0 presses.
// Calls handed on: the clauses are what this door adds.
ghost use Rattle.model.specs.Questions.{settled, bool, count, flags};
ghost use Rattle.model.specs.Questions as ask;
ghost use Rattle.panel.specs.Answers.{OfKeys, OfPresses};

use data::modifiers::Modifiers;
use key_state::keys::{Keys, PRESSES};

pub fn modifiers(keys: Keys) -> Modifiers
    ensures { OfKeys (settled ask.modifiers) keys (flags result) }
{
    keys.modifiers
}

pub fn key_down(keys: Keys, key: u32) -> bool
    ensures { OfKeys (settled (ask.key_down key)) keys (bool result) }
{
    input_questions::keys::key_down(keys, key)
}

pub fn key_pressed(presses: &[u8; PRESSES], key: u32) -> bool
    ensures { OfPresses (settled (ask.key_pressed key)) presses.now (bool result) }
{
    input_questions::keys::key_pressed(presses, key)
}

pub fn num_presses(presses: &[u8; PRESSES], key: u32) -> u8
    ensures { OfPresses (settled (ask.num_presses key)) presses.now (count result) }
{
    input_questions::keys::num_presses(presses, key)
}

// Held the pass's feed no event?
pub fn feed_was_empty(keys: Keys) -> bool
    ensures { OfKeys (settled ask.feed_was_empty) keys (bool result) }
{
    keys.feed_empty
}
