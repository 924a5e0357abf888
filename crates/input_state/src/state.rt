// The state between passes, without the touch devices and the lent arrays.
ghost use Rattle.std.specs.Prelude.{◌≡◌};
ghost use Rattle.model.specs.Wheel.{wheel_pass};
ghost use Rattle.model.specs.Pass.{rect_or};
ghost use Rattle.event_loop.specs.Lists.{listed, listed_events, wheel_list};
ghost use Rattle.input_state.specs.View.{Fresh, Ready, Acted, lent};

use crate::clock::{Clock, clock_pass, fresh_clock};
use crate::input::{PassInput, time_of};
use crate::pointer::{Pointer, pointer_pass};
use crate::screen::{Screen, fresh_screen, screen_pass};
use crate::sums::{Sums, fresh_sums, sums_of};
use data::mouse_wheel::WheelState;
use emath_history::history::{MAX_LEN, PARTS};
use event_loop::lists::{Lists, Reader};
use key_state::keys::{Keys, PRESSES, keys_pass};
use pointer_events::{CODES, PLACES};
use pointer_place::Place;
use pointer_state::press::Press;
use wheel_event::Measures;
use wheel_loop::wheel_pass;

#[derive(Clone, Copy)]
pub struct InputState {
    pub clock: Clock,
    pub screen: Screen,
    pub pointer: Pointer,
    pub wheel: WheelState,
    pub keys: Keys,
    pub sums: Sums,
}

// egui's `Default for InputState`; the lent arrays may hold anything but presses.
pub fn fresh() -> InputState
    ensures { Fresh result }
{
    let clock = fresh_clock();
    let screen = fresh_screen();
    let place = Place::fresh();
    let press = Press::fresh();
    let pointer = Pointer {
        place,
        press,
        started_decidedly_dragging: false,
        last_move_time: None,
    };
    let wheel = wheel_state::default();
    let keys = key_state::keys::fresh();
    let sums = fresh_sums();
    InputState {
        clock,
        screen,
        pointer,
        wheel,
        keys,
        sums,
    }
}

// The wheel's part, over the screen of the pass.
fn wheel_part(s: InputState, i: PassInput, time: f64, feed: &[u32], lists: &Lists) -> WheelState
    ensures { result ≡ wheel_pass (rect_or i.screen_rect s.screen.viewport_rect) i.options time i.smoothing_factor (listed_events feed.now (listed lists.now wheel_list)) s.wheel }
{
    let by = Measures {
        viewport_rect: i.screen_rect.unwrap_or(s.screen.viewport_rect),
        options: i.options,
        time,
    };
    let scrolls = lists.places(Reader::Wheel);
    wheel_pass(s.wheel, by, i.smoothing_factor, feed, scrolls)
}

// A pass that is taken, for all but the devices.
// Kept (plain): lent one by one: of a struct that holds a `&mut` each clause would have to say what stands behind it afterwards.
pub fn act(
    s: InputState,
    times: &mut [f64; MAX_LEN],
    positions: &mut [f32; PARTS],
    codes: &mut [u32; CODES],
    places: &mut [f32; PLACES],
    presses: &mut [u8; PRESSES],
    i: PassInput,
    feed: &[u32],
    lists: &Lists,
) -> InputState
    requires { Ready feed.now lists.now }
    ensures { Acted
        i feed.now
        (lent times.old positions.old codes.old places.old presses.old) s
        (lent times.new positions.new codes.new places.new presses.new) result }
{
    let time = time_of(i.time, i.predicted_dt, s.clock.time);
    let pointer = pointer_pass(
        s.pointer,
        times,
        positions,
        codes,
        places,
        s.screen.options,
        s.clock.pointer_time,
        i.options,
        time,
        feed,
        lists,
    );
    let wheel = wheel_part(s, i, time, feed, lists);
    let zooms = lists.places(Reader::Sums);
    InputState {
        clock: clock_pass(s.clock, i, time),
        screen: screen_pass(s.screen, i),
        pointer,
        wheel,
        keys: keys_pass(s.keys, presses, feed, lists),
        sums: sums_of(i.options, feed, zooms, wheel),
    }
}
