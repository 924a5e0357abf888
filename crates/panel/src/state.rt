// The panel between two calls: a fresh one, and the one that a pass or an interact leaves.
ghost use Rattle.std.specs.Prelude.{◌≡◌};
ghost use Rattle.panel.specs.View.{Fresh, after_pass, after_interact};

use data::refusal::{InteractRefusal, PassRefusal};
use input_pass::begin::Begun;
use input_state::state::InputState;
use interaction_state::state::{Answer, Interaction};
use key_state::keys::PRESSES;
use touch_state::devices::Devices;

// All but the lent arrays. `tally` counts the drag starts.
#[derive(Clone, Copy)]
pub struct Panel {
    pub input: InputState,
    pub devices: Devices,
    pub interaction: Interaction,
    pub tally: u32,
}

// egui's initial state, no drag, tally 0. The lent presses are cleared; the other lent arrays may hold anything.
pub fn fresh(presses: &mut [u8; PRESSES]) -> Panel
    ensures { Fresh presses.new result }
{
    *presses = [0; PRESSES];
    Panel {
        input: input_state::state::fresh(),
        devices: touch_state::devices::none(),
        interaction: Interaction::default(),
        tally: 0,
    }
}

// Kept (plain): here and below a function for each call: what is alike is that a refusal leaves the panel; what is put in differs.
// The panel after a pass, taken or refused.
pub fn after_pass(panel: Panel, begun: Result<Begun, PassRefusal>) -> Panel
    ensures { result ≡ after_pass panel begun }
{
    match begun {
        Err(_) => panel,
        Ok(taken) => Panel {
            input: taken.state,
            devices: taken.devices,
            ..panel
        },
    }
}

// The panel after an interact, taken or refused.
// Kept (plain): what is put in is not what a pass puts in.
pub fn after_interact(panel: Panel, interacted: Result<Answer, InteractRefusal>) -> Panel
    ensures { result ≡ after_interact panel interacted }
{
    match interacted {
        Err(_) => panel,
        Ok(answer) => Panel {
            interaction: answer.interaction,
            tally: answer.tally,
            ..panel
        },
    }
}
