// The pointer in a pass.
ghost use Rattle.event_loop.specs.Lists.{listed, listed_events, pointer_list};
ghost use Rattle.input_state.specs.View.{PointerPassed};

use data::options::InputOptions;
use emath_history::history::{MAX_LEN, PARTS};
use event_loop::lists::{Lists, Reader};
use place_loop::place_pass;
use pointer_clicks::{is_decidedly_dragging, last_move_time, started_decidedly_dragging};
use pointer_events::{CODES, PLACES};
use pointer_place::Place;
use pointer_state::press::Press;
use press_loop::press_pass;

#[derive(Clone, Copy)]
pub struct Pointer {
    pub place: Place,
    pub press: Press,
    pub started_decidedly_dragging: bool,
    // none before any movement
    pub last_move_time: Option<f64>,
}

// Of the events in the pointer's list. `before` and `old` are the pointer's time and the options before the pass.
// Kept (plain): lent one by one: of a struct that holds a `&mut` each clause would have to say what stands behind it afterwards.
pub fn pointer_pass(
    p: Pointer,
    times: &mut [f64; MAX_LEN],
    positions: &mut [f32; PARTS],
    codes: &mut [u32; CODES],
    places: &mut [f32; PLACES],
    old: InputOptions,
    before: f64,
    options: InputOptions,
    time: f64,
    feed: &[u32],
    lists: &Lists,
) -> Pointer
    ensures { PointerPassed
        old before options time (listed_events feed.now (listed lists.now pointer_list))
        times.old positions.old codes.old places.old p
        times.new positions.new codes.new places.new result }
{
    let moved = p.press.past.has_moved_too_much_for_a_click;
    let was = is_decidedly_dragging(p.press.held, codes, old, before, moved);
    let events = lists.places(Reader::Pointer);
    let place = place_pass(p.place, times, positions, time, feed, events);
    let press = press_pass(p.press, codes, places, options, time, feed, lists);
    let spoilt = press.past.has_moved_too_much_for_a_click;
    let started = started_decidedly_dragging(press.held, codes, options, time, spoilt, was);
    let last = last_move_time(press.held, codes, place.velocity, time, p.last_move_time);
    Pointer {
        place,
        press,
        started_decidedly_dragging: started,
        last_move_time: last,
    }
}
