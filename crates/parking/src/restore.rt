// Reading an image.
ghost use Rattle.std.specs.Prelude.{◌≡◌, [], None};
ghost use Rattle.image.specs.Places.{bad_at};
ghost use Rattle.image_form.specs.Form.{panel_code};
ghost use Rattle.image_form.specs.Placed.{groups_place};
ghost use Rattle.input_state.specs.View.{lent};
ghost use Rattle.parking.specs.Restored.{PointerHeld, InputHeld, Held, RestoredAs};

use crate::check::{ImageRefusal, check, devices_place, events_place};
use crate::park::HISTORY;
use data::limits::MAX_EVENTS;
use emath_history::history::{MAX_LEN, PARTS};
use image_clock::clock_at;
use image_devices::devices_at;
use image_events::events_at;
use image_history::history_at;
use image_interaction::{interaction_at, sums_at, tally_at};
use image_keys::group::keys_at;
use image_pointer::place::place_at;
use image_pointer::press::{last_move_time_at, press_at, started_at};
use image_screen::screen_at;
use image_wheel::wheel_at;
use input_state::pointer::Pointer;
use input_state::state::InputState;
use key_state::keys::PRESSES;
use panel::state::Panel;
use pointer_events::{CODES, PLACES};

// Kept (plain): lent one by one: of a struct that holds a `&mut` each clause would have to say what stands behind it afterwards.
fn pointer_at(
    times: &mut [f64; MAX_LEN],
    positions: &mut [f32; PARTS],
    codes: &mut [u32; CODES],
    places: &mut [f32; PLACES],
    words: &[u32],
) -> Pointer
    requires { bad_at panel_code words.now groups_place ≡ None }
    ensures { PointerHeld words.now
        (lent times.old positions.old codes.old places.old []) result
        (lent times.new positions.new codes.new places.new []) }
{
    let history = history_at(times, positions, words, HISTORY);
    let count = events_at(codes, places, words, events_place(words), MAX_EVENTS as u32);
    let place = place_at(words, history);
    let press = press_at(words, count);
    let last_move_time = last_move_time_at(words);
    Pointer {
        place,
        press,
        started_decidedly_dragging: started_at(words),
        last_move_time,
    }
}

// Kept (plain): lent one by one: of a struct that holds a `&mut` each clause would have to say what stands behind it afterwards.
fn input_at(
    times: &mut [f64; MAX_LEN],
    positions: &mut [f32; PARTS],
    codes: &mut [u32; CODES],
    places: &mut [f32; PLACES],
    presses: &mut [u8; PRESSES],
    words: &[u32],
) -> InputState
    requires { bad_at panel_code words.now groups_place ≡ None }
    ensures { InputHeld words.now
        (lent times.old positions.old codes.old places.old presses.old) result
        (lent times.new positions.new codes.new places.new presses.new) }
{
    let clock = clock_at(words);
    let screen = screen_at(words);
    let pointer = pointer_at(times, positions, codes, places, words);
    let wheel = wheel_at(words);
    let keys = keys_at(words, presses);
    let sums = sums_at(words);
    InputState {
        clock,
        screen,
        pointer,
        wheel,
        keys,
        sums,
    }
}

// Kept (plain): lent one by one: of a struct that holds a `&mut` each clause would have to say what stands behind it afterwards.
fn panel_at(
    times: &mut [f64; MAX_LEN],
    positions: &mut [f32; PARTS],
    codes: &mut [u32; CODES],
    places: &mut [f32; PLACES],
    presses: &mut [u8; PRESSES],
    words: &[u32],
) -> Panel
    requires { bad_at panel_code words.now groups_place ≡ None }
    ensures { Held words.now
        (lent times.old positions.old codes.old places.old presses.old) result
        (lent times.new positions.new codes.new places.new presses.new) }
{
    let input = input_at(times, positions, codes, places, presses, words);
    let devices = devices_at(words, devices_place(words, events_place(words)));
    let interaction = interaction_at(words);
    Panel {
        input,
        devices,
        interaction,
        tally: tally_at(words),
    }
}

// The state that an image holds. All words are checked first: refused, every lent place is as before.
// Kept (plain): lent one by one: of a struct that holds a `&mut` each clause would have to say what stands behind it afterwards.
pub fn restore(
    times: &mut [f64; MAX_LEN],
    positions: &mut [f32; PARTS],
    codes: &mut [u32; CODES],
    places: &mut [f32; PLACES],
    presses: &mut [u8; PRESSES],
    words: &[u32],
) -> Result<Panel, ImageRefusal>
    ensures { RestoredAs words.now
        (lent times.old positions.old codes.old places.old presses.old) result
        (lent times.new positions.new codes.new places.new presses.new) }
{
    check(words)?;
    Ok(panel_at(times, positions, codes, places, presses, words))
}
