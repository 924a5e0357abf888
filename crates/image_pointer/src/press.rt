// Group 4: the buttons that are down, what presses and clicks leave behind, and the last movement. The pass's pointer events are a group of their own.
ghost use Rattle.std.specs.Prelude.{◌≡◌, List, ℕ, ◌<◌, Float};
ghost use Rattle.image.specs.Codes.{write, In};
ghost use Rattle.image.specs.Places.{bad_at, value_at};
ghost use Rattle.image_words.specs.Leaves.{found};
ghost use Rattle.pointer_events.specs.Events.{events};
ghost use Rattle.pointer_state.specs.View.{press};
ghost use Rattle.image_pointer.specs.Press.{press_place, press_code, press_el, press_of, started_of, moved_of, buttons_number, buttons_of};

use data::bits::bit_number;
use data::pointer::ButtonsDown;
use image_options::{maybe_at, maybe_pair_bad, maybe_time_bad, maybe_words, pos_at};
use image_words::{
    double_at, double_bad, double_word, flag_bad, header_bad, high, low, word_at, word_bad,
};
use pointer_clicks::{ClickPast, Held, buttons};
use pointer_state::press::Press;

// The group's leading word, the places of its fields, and the most of a word of flags.
const PRESS: u32 = 0x4000_0013;

const PRESS_PLACE: usize = 42;

const DOWN: usize = 43;

const PRESS_ORIGIN: usize = 44;

const PRESS_START_TIME: usize = 47;

const HAS_MOVED: usize = 50;

const LAST_CLICK_POS: usize = 51;

const LAST_CLICK_TIME: usize = 54;

const LAST_LAST_CLICK_TIME: usize = 56;

const STARTED: usize = 58;

const LAST_MOVE_TIME: usize = 59;

const FIVE_BITS: u32 = 31;

// Bit k is button k.
fn buttons_number(d: ButtonsDown) -> u32
    ensures { (result ≡ buttons_number d) × (result < 32) }
{
    let primary = bit_number(d.primary);
    let secondary = bit_number(d.secondary);
    let middle = bit_number(d.middle);
    let extra1 = bit_number(d.extra1);
    let extra2 = bit_number(d.extra2);
    primary + 2 * secondary + 4 * middle + 8 * extra1 + 16 * extra2
}

// Their number is worked out.
// Kept (plain): no From for a number. A word may hold any number, of which only the last five bits are buttons, and the type is another crate's.
fn buttons_of(w: u32) -> ButtonsDown
    ensures { result ≡ buttons_of w }
{
    let primary = w / 1 % 2 == 1;
    let secondary = w / 2 % 2 == 1;
    let middle = w / 4 % 2 == 1;
    let extra1 = w / 8 % 2 == 1;
    let extra2 = w / 16 % 2 == 1;
    buttons(primary, secondary, middle, extra1, extra2)
}

pub fn press_words(p: Press, started: bool, moved: Option<f64>) -> [u32; 20]
    ensures { (codes : List ℕ) (places : List Float) → (result ≡ write press_code (press_el (press codes places p) started moved)) × In press_code (press_el (press codes places p) started moved) }
{
    let o = maybe_words(p.held.press_origin);
    let s = maybe_words(p.held.press_start_time);
    let c = maybe_words(p.past.last_click_pos);
    let m = maybe_words(moved);
    let last = double_word(p.past.last_click_time);
    let before = double_word(p.past.last_last_click_time);
    [
        PRESS,
        buttons_number(p.held.down),
        o[0],
        o[1],
        o[2],
        s[0],
        s[1],
        s[2],
        bit_number(p.past.has_moved_too_much_for_a_click),
        c[0],
        c[1],
        c[2],
        high(last),
        low(last),
        high(before),
        low(before),
        bit_number(started),
        m[0],
        m[1],
        m[2],
    ]
}

#[tactic(auto, unfolding(image::specs::Places::bad_at, image::specs::Places::span, image::specs::Places::or_else, image::specs::Codes::size, image_words::specs::Leaves::found))]
pub fn press_bad(words: &[u32]) -> Result<(), usize>
    ensures { found result ≡ bad_at press_code words.now press_place }
{
    header_bad(words, PRESS_PLACE, PRESS)?;
    word_bad(words, DOWN, FIVE_BITS)?;
    maybe_pair_bad(words, PRESS_ORIGIN)?;
    maybe_time_bad(words, PRESS_START_TIME)?;
    flag_bad(words, HAS_MOVED)?;
    maybe_pair_bad(words, LAST_CLICK_POS)?;
    double_bad(words, LAST_CLICK_TIME)?;
    double_bad(words, LAST_LAST_CLICK_TIME)?;
    flag_bad(words, STARTED)?;
    maybe_time_bad(words, LAST_MOVE_TIME)
}

// With the number of pointer events, which are read by themselves.
pub fn press_at(words: &[u32], event_count: usize) -> Press
    ensures { (codes : List ℕ) (places : List Float) → press codes places result ≡ press_of (value_at press_code words.now press_place) (events codes places event_count) }
{
    let down = buttons_of(word_at(words, DOWN));
    let press_origin = maybe_at(words, PRESS_ORIGIN, pos_at(words, PRESS_ORIGIN + 1));
    let press_start_time = maybe_at(
        words,
        PRESS_START_TIME,
        double_at(words, PRESS_START_TIME + 1),
    );
    let last_click_pos = maybe_at(words, LAST_CLICK_POS, pos_at(words, LAST_CLICK_POS + 1));
    let held = Held {
        down,
        press_origin,
        press_start_time,
        event_count,
    };
    let past = ClickPast {
        has_moved_too_much_for_a_click: word_at(words, HAS_MOVED) == 1,
        last_click_pos,
        last_click_time: double_at(words, LAST_CLICK_TIME),
        last_last_click_time: double_at(words, LAST_LAST_CLICK_TIME),
    };
    Press { held, past }
}

pub fn started_at(words: &[u32]) -> bool
    ensures { result ≡ started_of (value_at press_code words.now press_place) }
{
    word_at(words, STARTED) == 1
}

pub fn last_move_time_at(words: &[u32]) -> Option<f64>
    ensures { result ≡ moved_of (value_at press_code words.now press_place) }
{
    maybe_at(words, LAST_MOVE_TIME, double_at(words, LAST_MOVE_TIME + 1))
}
