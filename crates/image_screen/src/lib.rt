// Group 2 of an image (02 A.6), the screen and the options: written, checked, read.
#![tactic(auto)]

ghost use Rattle.std.specs.Prelude.{◌≡◌, T};
ghost use Rattle.data.specs.Limits.{options_ok, rect_ok, coordinate_ok, duration_ok, length_ok, scale_ok, unit_interval_ok};
ghost use Rattle.image.specs.Codes.{write, In, single_ok, double_ok};
ghost use Rattle.image.specs.Places.{bad_at, value_at};
ghost use Rattle.image.specs.Places as places;
ghost use Rattle.image_words.specs.Leaves.{found};
ghost use Rattle.input_state.specs.View.{screen};
ghost use Rattle.image_screen.specs.Screen.{screen_place, rect_place, options_place, screen_code, rect_code, options_code, screen_el, screen_of, rect_el, rect_of, options_el, options_of, ScreenOk};

use data::bits::bit_number;
use data::modifiers::Modifiers;
use data::options::InputOptions;
use domain::{coordinate_ok, duration_ok, length_ok, scale_ok, unit_interval_ok};
use emath::pos2::Pos2;
use emath::rect::Rect;
use image_words::{
    double_at, double_in_bad, double_word, flag_bad, header_bad, high, low, single_at,
    single_in_bad, single_word, word_at, word_bad,
};
use input_state::screen::Screen;

// The group's leading word, the places of its fields, and the most of a word of flags.
const SCREEN: u32 = 0x2000_0010;

const SCREEN_PLACE: usize = 9;

const MIN_X: usize = 10;

const MIN_Y: usize = 11;

const MAX_X: usize = 12;

const MAX_Y: usize = 13;

const PIXELS_PER_POINT: usize = 14;

const FOCUSED: usize = 15;

const LINE_SCROLL_SPEED: usize = 16;

const SCROLL_ZOOM_SPEED: usize = 17;

const MAX_CLICK_DIST: usize = 18;

const MAX_CLICK_DURATION: usize = 19;

const MAX_DOUBLE_CLICK_DELAY: usize = 21;

const ZOOM_MODIFIER: usize = 23;

const HORIZONTAL_SCROLL_MODIFIER: usize = 24;

const VERTICAL_SCROLL_MODIFIER: usize = 25;

const FIVE_BITS: u32 = 31;

fn rect_words(r: Rect) -> [u32; 4]
    ensures { (result ≡ write rect_code (rect_el r)) × (T (rect_ok r) → In rect_code (rect_el r)) }
{
    [
        single_word(r.min.x),
        single_word(r.min.y),
        single_word(r.max.x),
        single_word(r.max.y),
    ]
}

fn options_words(o: InputOptions) -> [u32; 10]
    ensures { (result ≡ write options_code (options_el o)) × (T (options_ok o) → In options_code (options_el o)) }
{
    let duration = double_word(o.max_click_duration);
    let delay = double_word(o.max_double_click_delay);
    [
        single_word(o.line_scroll_speed),
        single_word(o.scroll_zoom_speed),
        single_word(o.max_click_dist),
        high(duration),
        low(duration),
        high(delay),
        low(delay),
        o.zoom_modifier.number(),
        o.horizontal_scroll_modifier.number(),
        o.vertical_scroll_modifier.number(),
    ]
}

pub fn screen_words(s: Screen) -> [u32; 17]
    ensures { (result ≡ write screen_code (screen_el (screen s))) × (ScreenOk (screen s) → In screen_code (screen_el (screen s))) }
{
    let r = rect_words(s.viewport_rect);
    let o = options_words(s.options);
    [
        SCREEN,
        r[0],
        r[1],
        r[2],
        r[3],
        single_word(s.pixels_per_point),
        bit_number(s.focused),
        o[0],
        o[1],
        o[2],
        o[3],
        o[4],
        o[5],
        o[6],
        o[7],
        o[8],
        o[9],
    ]
}

// ---- a field in its range
fn coordinate_bad(words: &[u32], at: usize) -> Result<(), usize>
    ensures { found result ≡ places.word_bad (single_ok coordinate_ok) words.now at }
{
    single_in_bad(words, at, coordinate_ok)
}

fn scale_bad(words: &[u32], at: usize) -> Result<(), usize>
    ensures { found result ≡ places.word_bad (single_ok scale_ok) words.now at }
{
    single_in_bad(words, at, scale_ok)
}

fn length_bad(words: &[u32], at: usize) -> Result<(), usize>
    ensures { found result ≡ places.word_bad (single_ok length_ok) words.now at }
{
    single_in_bad(words, at, length_ok)
}

fn unit_interval_bad(words: &[u32], at: usize) -> Result<(), usize>
    ensures { found result ≡ places.word_bad (single_ok unit_interval_ok) words.now at }
{
    single_in_bad(words, at, unit_interval_ok)
}

fn duration_bad(words: &[u32], at: usize) -> Result<(), usize>
    ensures { found result ≡ places.two_bad (double_ok duration_ok) words.now at }
{
    double_in_bad(words, at, duration_ok)
}

#[tactic(auto, unfolding(image::specs::Places::bad_at, image::specs::Places::span, image::specs::Places::or_else, image::specs::Codes::size, image_words::specs::Leaves::found))]
fn rect_bad(words: &[u32]) -> Result<(), usize>
    ensures { found result ≡ bad_at rect_code words.now rect_place }
{
    coordinate_bad(words, MIN_X)?;
    coordinate_bad(words, MIN_Y)?;
    coordinate_bad(words, MAX_X)?;
    coordinate_bad(words, MAX_Y)
}

#[tactic(auto, unfolding(image::specs::Places::bad_at, image::specs::Places::span, image::specs::Places::or_else, image::specs::Codes::size, image_words::specs::Leaves::found))]
fn options_bad(words: &[u32]) -> Result<(), usize>
    ensures { found result ≡ bad_at options_code words.now options_place }
{
    length_bad(words, LINE_SCROLL_SPEED)?;
    unit_interval_bad(words, SCROLL_ZOOM_SPEED)?;
    length_bad(words, MAX_CLICK_DIST)?;
    duration_bad(words, MAX_CLICK_DURATION)?;
    duration_bad(words, MAX_DOUBLE_CLICK_DELAY)?;
    word_bad(words, ZOOM_MODIFIER, FIVE_BITS)?;
    word_bad(words, HORIZONTAL_SCROLL_MODIFIER, FIVE_BITS)?;
    word_bad(words, VERTICAL_SCROLL_MODIFIER, FIVE_BITS)
}

#[tactic(auto, unfolding(image::specs::Places::bad_at, image::specs::Places::span, image::specs::Places::or_else, image::specs::Codes::size, image_words::specs::Leaves::found))]
pub fn screen_bad(words: &[u32]) -> Result<(), usize>
    ensures { found result ≡ bad_at screen_code words.now screen_place }
{
    header_bad(words, SCREEN_PLACE, SCREEN)?;
    rect_bad(words)?;
    scale_bad(words, PIXELS_PER_POINT)?;
    flag_bad(words, FOCUSED)?;
    options_bad(words)
}

fn rect_at(words: &[u32]) -> Rect
    ensures { result ≡ rect_of (value_at rect_code words.now rect_place) }
{
    let min = Pos2 {
        x: single_at(words, MIN_X),
        y: single_at(words, MIN_Y),
    };
    let max = Pos2 {
        x: single_at(words, MAX_X),
        y: single_at(words, MAX_Y),
    };
    Rect { min, max }
}

fn options_at(words: &[u32]) -> InputOptions
    ensures { result ≡ options_of (value_at options_code words.now options_place) }
{
    let zoom_modifier = Modifiers::of(word_at(words, ZOOM_MODIFIER));
    let horizontal_scroll_modifier = Modifiers::of(word_at(words, HORIZONTAL_SCROLL_MODIFIER));
    let vertical_scroll_modifier = Modifiers::of(word_at(words, VERTICAL_SCROLL_MODIFIER));
    InputOptions {
        line_scroll_speed: single_at(words, LINE_SCROLL_SPEED),
        scroll_zoom_speed: single_at(words, SCROLL_ZOOM_SPEED),
        max_click_dist: single_at(words, MAX_CLICK_DIST),
        max_click_duration: double_at(words, MAX_CLICK_DURATION),
        max_double_click_delay: double_at(words, MAX_DOUBLE_CLICK_DELAY),
        zoom_modifier,
        horizontal_scroll_modifier,
        vertical_scroll_modifier,
    }
}

pub fn screen_at(words: &[u32]) -> Screen
    ensures { screen result ≡ screen_of (value_at screen_code words.now screen_place) }
{
    let viewport_rect = rect_at(words);
    let options = options_at(words);
    Screen {
        viewport_rect,
        pixels_per_point: single_at(words, PIXELS_PER_POINT),
        focused: word_at(words, FOCUSED) == 1,
        options,
    }
}
