// Keys. `key` is its place in egui's Key; over 144 it is not down and has 0 presses.
// Kept (C): C calls each question by its own name and lends the arrays one by one: questions alike in their steps stand apart.
ghost use Rattle.host_input.specs.Held.{keys_of};
ghost use Rattle.data.specs.Modifiers.{modifiers_of};
ghost use Rattle.model.specs.Questions as ask;
ghost use Rattle.model.specs.Questions.{bool, count, settled};
ghost use Rattle.panel.specs.Answers.{OfKeys, OfPresses};

use host_input::places::{FLAGS, KEYS};
use key_state::keys::PRESSES;

#[unsafe(no_mangle)]
pub extern "C" fn fivvarul_key_down(
    flags: &[bool; FLAGS],
    keys_down: &[u64; KEYS],
    key: u32,
) -> bool
    ensures { OfKeys (settled (ask.key_down key)) (keys_of flags.now keys_down.now) (bool result) }
{
    let keys = host_input::read::keys(flags, keys_down);
    panel::keys::key_down(keys, key)
}

#[unsafe(no_mangle)]
pub extern "C" fn fivvarul_key_pressed(presses: &[u8; PRESSES], key: u32) -> bool
    ensures { OfPresses (settled (ask.key_pressed key)) presses.now (bool result) }
{
    panel::keys::key_pressed(presses, key)
}

#[unsafe(no_mangle)]
pub extern "C" fn fivvarul_num_presses(presses: &[u8; PRESSES], key: u32) -> u8
    ensures { OfPresses (settled (ask.num_presses key)) presses.now (count result) }
{
    panel::keys::num_presses(presses, key)
}

#[unsafe(no_mangle)]
pub extern "C" fn fivvarul_feed_was_empty(flags: &[bool; FLAGS], keys_down: &[u64; KEYS]) -> bool
    ensures { OfKeys (settled ask.feed_was_empty) (keys_of flags.now keys_down.now) (bool result) }
{
    let keys = host_input::read::keys(flags, keys_down);
    panel::keys::feed_was_empty(keys)
}

// 01's five bits: alt, ctrl, shift, mac_cmd, command.
#[unsafe(no_mangle)]
pub extern "C" fn fivvarul_modifiers(flags: &[bool; FLAGS], keys_down: &[u64; KEYS]) -> u32
    ensures { OfKeys (ask.settled ask.modifiers) (keys_of flags.now keys_down.now) (ask.flags (modifiers_of result)) }
{
    let keys = host_input::read::keys(flags, keys_down);
    panel::keys::modifiers(keys).number()
}
