// What a pass is given beside its feed, and the answer that it gives, as they cross to and from the host.
// Kept (C): flags beside values, modifiers as bits, and the number of a refusal: C writes the one record and reads the other.
#![tactic(auto)]

ghost use Rattle.std.specs.Prelude.{◌≡◌, None};
ghost use Rattle.host_pass.specs.Given.{rect_of, given_of, index_of, refusal_of, answer_of};

use data::modifiers::Modifiers;
use data::options::InputOptions;
use data::refusal::PassRefusal;
use emath::pos2::Pos2;
use emath::rect::Rect;
use input_state::input::PassInput;

// RawInput and the options. A time and a rectangle count where they are given. Modifiers are 01's five bits: alt, ctrl, shift, mac_cmd, command.
#[repr(C)]
#[derive(Clone, Copy)]
pub struct HostPass {
    pub time: f64,
    pub max_click_duration: f64,
    pub max_double_click_delay: f64,
    pub min_x: f32,
    pub min_y: f32,
    pub max_x: f32,
    pub max_y: f32,
    pub predicted_dt: f32,
    pub smoothing_factor: f32,
    pub pixels_per_point: f32,
    pub line_scroll_speed: f32,
    pub scroll_zoom_speed: f32,
    pub max_click_dist: f32,
    pub zoom_modifier: u32,
    pub horizontal_scroll_modifier: u32,
    pub vertical_scroll_modifier: u32,
    pub time_given: bool,
    pub screen_rect_given: bool,
    pub focused: bool,
    pub requested_repaint: bool,
}

// 0, 0: taken. Else 01's number of the refusal, and the index where 01 returns one, or 0.
#[repr(C)]
#[derive(Clone, Copy)]
pub struct HostRefusal {
    pub number: u32,
    pub index: usize,
}

fn rect(given: bool, min_x: f32, min_y: f32, max_x: f32, max_y: f32) -> Option<Rect>
    ensures { result ≡ rect_of given min_x min_y max_x max_y }
{
    let min = Pos2 { x: min_x, y: min_y };
    let max = Pos2 { x: max_x, y: max_y };
    given.then_some(Rect { min, max })
}

pub fn pass_input(g: HostPass) -> PassInput
    ensures { result ≡ given_of g }
{
    let options = InputOptions {
        line_scroll_speed: g.line_scroll_speed,
        scroll_zoom_speed: g.scroll_zoom_speed,
        max_click_dist: g.max_click_dist,
        max_click_duration: g.max_click_duration,
        max_double_click_delay: g.max_double_click_delay,
        zoom_modifier: Modifiers::of(g.zoom_modifier),
        horizontal_scroll_modifier: Modifiers::of(g.horizontal_scroll_modifier),
        vertical_scroll_modifier: Modifiers::of(g.vertical_scroll_modifier),
    };
    PassInput {
        time: g.time_given.then_some(g.time),
        screen_rect: rect(g.screen_rect_given, g.min_x, g.min_y, g.max_x, g.max_y),
        predicted_dt: g.predicted_dt,
        smoothing_factor: g.smoothing_factor,
        pixels_per_point: g.pixels_per_point,
        focused: g.focused,
        requested_repaint: g.requested_repaint,
        options,
    }
}

fn index(q: PassRefusal) -> usize
    ensures { result ≡ index_of q }
{
    match q {
        PassRefusal::Malformed(i)
        | PassRefusal::OutsideDomain(i)
        | PassRefusal::TooManyEvents(i)
        | PassRefusal::NoPlace(i) => i,
        PassRefusal::TimeBelow => 0,
    }
}

pub fn refused(q: PassRefusal) -> HostRefusal
    ensures { result ≡ refusal_of q }
{
    HostRefusal {
        number: q.number(),
        index: index(q),
    }
}

pub fn taken() -> HostRefusal
    ensures { result ≡ answer_of None }
{
    HostRefusal {
        number: 0,
        index: 0,
    }
}
