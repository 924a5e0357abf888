// A pass. It reads and writes no interaction and no tally.
ghost use Rattle.input_state.specs.View.{lent};
ghost use Rattle.input_pass.specs.Begun.{Begun as BegunAs};

use data::refusal::PassRefusal;
use emath_history::history::{MAX_LEN, PARTS};
use input_pass::begin::{Begun, begin_pass};
use input_state::input::PassInput;
use input_state::state::InputState;
use key_state::keys::PRESSES;
use pointer_events::{CODES, PLACES};
use touch_state::devices::Devices;

// Kept (C): lent one by one, as C lends them at the door: of a struct that holds a `&mut` each clause would have to say what stands behind it.
// Refused, with every lent place as before, the state and the devices being the caller's; or taken, and then every lent place is stated too.
pub fn pass(
    input: InputState,
    devices: Devices,
    times: &mut [f64; MAX_LEN],
    positions: &mut [f32; PARTS],
    codes: &mut [u32; CODES],
    places: &mut [f32; PLACES],
    presses: &mut [u8; PRESSES],
    given: PassInput,
    feed: &[u32],
) -> Result<Begun, PassRefusal>
    ensures { BegunAs
        given feed.now
        (lent times.old positions.old codes.old places.old presses.old) input devices
        (lent times.new positions.new codes.new places.new presses.new) result }
{
    begin_pass(
        input, devices, times, positions, codes, places, presses, given, feed,
    )
}
