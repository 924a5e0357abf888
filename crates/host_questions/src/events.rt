// The pass's pointer events.
// Kept (C): C calls each question by its own name and lends the arrays one by one: questions alike in their steps stand apart.
ghost use Rattle.panel.specs.Answers.{OfEventAt, OfEventCount};
ghost use Rattle.host_answers.specs.Answers.{event_of};
ghost use Rattle.host_input.specs.Held.{press_of};

use host_answers::HostPointerEvent;
use host_input::places::{COUNTS, FLAGS, FLOATS, SECONDS};
use pointer_events::{CODES, PLACES};

// How many there were.
#[unsafe(no_mangle)]
pub extern "C" fn fivvarul_pointer_event_count(
    seconds: &[f64; SECONDS],
    floats: &[f32; FLOATS],
    counts: &[usize; COUNTS],
    flags: &[bool; FLAGS],
) -> usize
    ensures { OfEventCount (press_of seconds.now floats.now counts.now flags.now) result }
{
    let press = host_input::read::press(seconds, floats, counts, flags);
    panel::buttons::pointer_event_count(press)
}

// Event `i`, if there were so many.
#[unsafe(no_mangle)]
pub extern "C" fn fivvarul_pointer_event(
    seconds: &[f64; SECONDS],
    floats: &[f32; FLOATS],
    counts: &[usize; COUNTS],
    flags: &[bool; FLAGS],
    codes: &[u32; CODES],
    places: &[f32; PLACES],
    i: usize,
) -> HostPointerEvent
    ensures { OfEventAt (press_of seconds.now floats.now counts.now flags.now) codes.now places.now i (event_of result) }
{
    let press = host_input::read::press(seconds, floats, counts, flags);
    panel::buttons::pointer_event(press, codes, places, i).into()
}
