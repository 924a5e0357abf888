// Groups 1 to 9 of an image (02 A.6) together: those of one length, at constant places.
#![tactic(auto)]

ghost use Rattle.std.specs.Prelude.{◌≡◌, ◌≤◌, length, [], ◌++◌};
ghost use Rattle.std.proofs.lemmas.List.Edits.{sets};
ghost use Rattle.image.specs.Codes.{write, In};
ghost use Rattle.image.specs.Places.{bad_at};
ghost use Rattle.image_words.specs.Leaves.{found};
ghost use Rattle.input_state.specs.View as view;
ghost use Rattle.pointer_place.specs.View.{place as view_place};
ghost use Rattle.pointer_state.specs.View.{press as view_press};
ghost use Rattle.key_state.specs.View.{keys as view_keys};
ghost use Rattle.interaction_state.specs.View.{interaction_of};
ghost use Rattle.image_clock.specs.Clock.{clock_place, clock_code, clock_el, ClockOk};
ghost use Rattle.image_screen.specs.Screen.{screen_code, screen_el, ScreenOk};
ghost use Rattle.image_pointer.specs.Place.{place_place, place_code, place_el};
ghost use Rattle.image_pointer.specs.Press.{press_code, press_el};
ghost use Rattle.image_wheel.specs.Wheel.{wheel_place, wheel_code, wheel_el};
ghost use Rattle.image_keys.specs.Keys.{keys_code, keys_el};
ghost use Rattle.image_interaction.specs.Groups.{sums_place, sums_code, sums_el, interaction_code, interaction_el, tally_code};
ghost use Rattle.image_fixed.specs.Fixed.{fixed_place, fixed_end, fixed_code, Puts};

use data::mouse_wheel::WheelState;
use image_clock::{clock_bad, clock_words};
use image_interaction::{
    interaction_bad, interaction_words, sums_bad, sums_words, tally_bad, tally_words,
};
use image_keys::group::{keys_bad, keys_put};
use image_pointer::place::{place_bad, place_words};
use image_pointer::press::{press_bad, press_words};
use image_screen::{screen_bad, screen_words};
use image_wheel::{wheel_bad, wheel_words};
use image_words::copy;
use input_state::clock::Clock;
use input_state::screen::Screen;
use input_state::sums::Sums;
use interaction_state::state::Interaction;
use key_state::keys::Keys;
use pointer_place::Place;
use pointer_state::press::Press;

// The places of the groups.
const CLOCK: usize = 1;

const SCREEN: usize = 9;

const PLACE: usize = 26;

const PRESS: usize = 42;

const WHEEL: usize = 62;

const SUMS: usize = 225;

const INTERACTION: usize = 231;

const TALLY: usize = 241;

// Groups 1 and 2.
pub fn screen_put(clock: Clock, screen: Screen, out: &mut [u32])
    requires { fixed_end ≤ length out.old }
    ensures { Puts clock_place (write clock_code (clock_el (view.clock clock)) ++ write screen_code (screen_el (view.screen screen))) out.old out.new
        × (ClockOk (view.clock clock) → In clock_code (clock_el (view.clock clock))) × (ScreenOk (view.screen screen) → In screen_code (screen_el (view.screen screen))) }
{
    let c = clock_words(clock);
    let s = screen_words(screen);
    copy(out, CLOCK, &c);
    copy(out, SCREEN, &s);
}

// Groups 3 and 4.
pub fn pointer_put(place: Place, press: Press, started: bool, moved: Option<f64>, out: &mut [u32])
    requires { fixed_end ≤ length out.old }
    ensures { Puts place_place (write place_code (place_el (view_place [] [] place)) ++ write press_code (press_el (view_press [] [] press) started moved)) out.old out.new
        × In place_code (place_el (view_place [] [] place)) × In press_code (press_el (view_press [] [] press) started moved) }
{
    let p = place_words(place);
    let q = press_words(press, started, moved);
    copy(out, PLACE, &p);
    copy(out, PRESS, &q);
}

// Groups 5 and 6.
pub fn wheel_put(wheel: WheelState, keys: Keys, presses: &[u8; 145], out: &mut [u32])
    requires { fixed_end ≤ length out.old }
    ensures { Puts wheel_place (write wheel_code (wheel_el wheel) ++ write keys_code (keys_el (view_keys presses.now keys))) out.old out.new
        × In wheel_code (wheel_el wheel) × In keys_code (keys_el (view_keys presses.now keys)) }
{
    let w = wheel_words(wheel);
    copy(out, WHEEL, &w);
    keys_put(keys, presses, out);
}

// Groups 7 to 9.
pub fn sums_put(sums: Sums, interaction: Interaction, tally: u32, out: &mut [u32])
    requires { fixed_end ≤ length out.old }
    ensures { Puts sums_place (write sums_code (sums_el (view.sums sums)) ++ (write interaction_code (interaction_el (interaction_of interaction)) ++ write tally_code tally)) out.old out.new
        × In sums_code (sums_el (view.sums sums)) × In interaction_code (interaction_el (interaction_of interaction)) × In tally_code tally }
{
    let s = sums_words(sums);
    let i = interaction_words(interaction);
    let t = tally_words(tally);
    copy(out, SUMS, &s);
    copy(out, INTERACTION, &i);
    copy(out, TALLY, &t);
}

// What is wrong first with all nine.
pub fn fixed_bad(words: &[u32]) -> Result<(), usize>
    ensures { found result ≡ bad_at fixed_code words.now fixed_place }
{
    clock_bad(words)?;
    screen_bad(words)?;
    place_bad(words)?;
    press_bad(words)?;
    wheel_bad(words)?;
    keys_bad(words)?;
    sums_bad(words)?;
    interaction_bad(words)?;
    tally_bad(words)
}
