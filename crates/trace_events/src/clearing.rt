// Whether a feed is that of a clearing pass: "End for each touch held ..; release of buttons 0 to 4 at one position; one relative motion; wheel End;
// focus lost; pointer gone". Which touches are held is not looked at.
use crate::events::fold_events;
use data::kinds::{
    BUTTON_KIND, FOCUS_KIND, GONE_KIND, KIND_UNIT, MOTION_KIND, TOUCH_KIND, WHEEL_KIND,
};
use trace_words::request::{at, bit};

const LAST_BUTTON: u32 = 4;

// The parts in their order.
#[derive(Clone, Copy, PartialEq)]
enum Part {
    Ends,
    Release(u32),
    Motion,
    WheelEnd,
    FocusLost,
    PointerGone,
}

// The part that was last, and where, if it is a release.
#[derive(Clone, Copy)]
struct Seen {
    part: Part,
    x: u32,
    y: u32,
}

// The release of a button; a press is none.
// Kept (plain): see `part_of`.
fn release_of(head: u32) -> Option<Part> {
    let button = head / 32 % 8;
    (!bit(head, 256) && button <= LAST_BUTTON).then_some(Part::Release(button))
}

// The part that an event is, by its first word.
// Kept (plain): refused feeds are read here too, and of those the decoder gives no Event; a part is made of a word's bits and not of its number.
fn part_of(head: u32) -> Option<Part> {
    match head / KIND_UNIT {
        MOTION_KIND => Some(Part::Motion),
        BUTTON_KIND => release_of(head),
        GONE_KIND => Some(Part::PointerGone),
        TOUCH_KIND => (head % 4 == 2).then_some(Part::Ends),
        WHEEL_KIND => (head / 128 % 4 == 2).then_some(Part::WheelEnd),
        FOCUS_KIND => (!bit(head, 1)).then_some(Part::FocusLost),
        _ => None,
    }
}

// Ends follow each other; every other part follows the one before it.
fn follows(last: Part, part: Part) -> bool {
    match part {
        Part::Ends => last == Part::Ends,
        Part::Release(0) => last == Part::Ends,
        Part::Release(button) => last == Part::Release(button - 1),
        Part::Motion => last == Part::Release(LAST_BUTTON),
        Part::WheelEnd => last == Part::Motion,
        Part::FocusLost => last == Part::WheelEnd,
        Part::PointerGone => last == Part::FocusLost,
    }
}

// A release after the first is where that is.
fn is_there(last: Seen, now: Seen) -> bool {
    match now.part {
        Part::Release(button) => button == 0 || last.x == now.x && last.y == now.y,
        _ => true,
    }
}

// None: an event that is no part, or out of its order.
fn after_event(seen: Option<Seen>, e: &[u32]) -> Option<Seen> {
    let last = seen?;
    let now = Seen {
        part: part_of(at(e, 0))?,
        x: at(e, 1),
        y: at(e, 2),
    };
    (follows(last.part, now.part) && is_there(last, now)).then_some(now)
}

// The feed of a clearing pass.
pub fn is_clearing(feed: &[u32]) -> bool {
    let first = Seen {
        part: Part::Ends,
        x: 0,
        y: 0,
    };
    let last = fold_events(feed, Some(first), after_event);
    last.is_some_and(|s| s.part == Part::PointerGone)
}
