// A pass: refused with all left as before, or taken.
ghost use Rattle.input_state.specs.View.{lent};
ghost use Rattle.input_pass.specs.Begun.{Begun as BegunAs};

use data::refusal::PassRefusal;
use emath_history::history::{MAX_LEN, PARTS};
use event_loop::lists::{Lists, Reader};
use input_state::input::{PassInput, own_refusal, time_of};
use input_state::state::{InputState, act};
use key_state::keys::PRESSES;
use pointer_events::{CODES, PLACES};
use survey::reading::read;
use touch_ends::pass::touch_pass;
use touch_state::devices::Devices;

// The state and the devices after a pass that is taken.
#[derive(Clone, Copy)]
pub struct Begun {
    pub state: InputState,
    pub devices: Devices,
}

// egui's `begin_pass`. Refused, every place is as before: "2 for its own numbers, 3, then event by event 4, 1, 2, 5".
// A gesture starts at the interact position of the pass before.
// Kept (plain): lent one by one: of a struct that holds a `&mut` each clause would have to say what stands behind it afterwards.
pub fn begin_pass(
    s: InputState,
    ds: Devices,
    times: &mut [f64; MAX_LEN],
    positions: &mut [f32; PARTS],
    codes: &mut [u32; CODES],
    places: &mut [f32; PLACES],
    presses: &mut [u8; PRESSES],
    i: PassInput,
    feed: &[u32],
) -> Result<Begun, PassRefusal>
    ensures { BegunAs
        i feed.now
        (lent times.old positions.old codes.old places.old presses.old) s ds
        (lent times.new positions.new codes.new places.new presses.new) result }
{
    own_refusal(i, s.clock.time)?;
    let time = time_of(i.time, i.predicted_dt, s.clock.time);
    let pos = s.pointer.place.interact_pos;
    let mut lists = Lists::new();
    let later = read(feed, &mut lists);
    let touches = lists.places(Reader::Touches);
    let devices = touch_pass(ds, feed, touches, later, time, pos)?;
    let state = act(s, times, positions, codes, places, presses, i, feed, &lists);
    Ok(Begun { state, devices })
}
