// A fresh panel.
// Kept (C): a parameter for each array that C lends.
ghost use Rattle.std.specs.Prelude.{get_or};
ghost use Rattle.interaction_state.specs.View.{interaction_of};
ghost use Rattle.host_interact.specs.Held.{interaction_at};
ghost use Rattle.host_pass.specs.Memory.{Starts};

use host_input::places::{COUNTS, FLAGS, FLOATS, KEYS, SECONDS};
use host_interact::HELD;
use key_state::keys::PRESSES;

// The memory of a fresh panel: egui's initial state, no device, no drag, tally 0. The devices' arrays and the other lent arrays may hold anything.
#[unsafe(no_mangle)]
pub extern "C" fn fivvarul_fresh(
    seconds: &mut [f64; SECONDS],
    floats: &mut [f32; FLOATS],
    counts: &mut [usize; COUNTS],
    flags: &mut [bool; FLAGS],
    keys_down: &mut [u64; KEYS],
    presses: &mut [u8; PRESSES],
    held_ids: &mut [u64; HELD],
    held_flags: &mut [bool; HELD],
    tally: &mut [u32; 1],
)
    ensures { Starts seconds.new floats.new counts.new flags.new keys_down.new presses.new
        (interaction_of (interaction_at held_ids.new held_flags.new)) (get_or tally.new 0 0) }
{
    let p = panel::state::fresh(presses);
    let state = p.input;
    *seconds = host_input::kept::seconds(state);
    *floats = host_input::kept::floats(state);
    *counts = host_input::kept::counts(state, 0);
    *flags = host_input::kept::flags(state);
    *keys_down = host_input::kept::keys_down(state);
    *held_ids = host_interact::ids(p.interaction);
    *held_flags = host_interact::flags(p.interaction);
    *tally = [p.tally];
}
