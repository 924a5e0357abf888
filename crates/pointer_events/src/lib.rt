// The pass's pointer events, in order. The caller lends the places for `MAX_EVENTS` of them: specs/Events.antt says what stands where.
// The codes and their count stand apart: C lends the codes, and the count is a field of a record by value.
#![tactic(auto)]

ghost use Rattle.std.specs.Prelude.{◌≡◌, Bool, List, ◌+◌, ◌*◌, ◌<◌, length, Float, None, Some};
ghost use Rattle.emath_history.specs.Ring.{set_position};
ghost use Rattle.data.specs.Limits.{max_events};
ghost use Rattle.model.specs.Types.{Click, PointerEvent, Released};
ghost use Rattle.model.specs.Pointer.{any};
ghost use Rattle.pointer_events.specs.Types.{Entry};
ghost use Rattle.pointer_events.specs.Events.{event_of, entry_of, entry_at, events, counted, event_or_none, kind_of, Tests, codes_with, Pushed};

use data::limits::MAX_EVENTS;
use data::modifiers::Modifiers;
use data::pointer::{Click, PointerButton, PointerEvent};
use emath::pos2::Pos2;
use feed::fields::button_of;

// Four codes and two parts of a position for each event.
pub const CODES: usize = 4 * MAX_EVENTS;

pub const PLACES: usize = 2 * MAX_EVENTS;

// Kept (plain): the four numbers as they stand between the lent codes and the enum (docs/DECISIONS.md, 28).
#[derive(Clone, Copy)]
pub struct Entry {
    // 0 moved, 1 pressed, 2 released, 3 released with a click
    pub kind: u32,
    pub button: u32,
    // of a click
    pub count: u32,
    pub flags: u32,
    pub pos: Pos2,
}

// What an event is, but for where: what the questions look at.
#[derive(Clone, Copy)]
pub enum EventKind {
    Moved,
    Pressed(PointerButton),
    // the count of its click, if it is one
    Released(Option<u32>, PointerButton),
}

pub fn counted(count: usize) -> usize
    ensures { result ≡ counted count }
{
    count.min(MAX_EVENTS)
}

// Any numbers mean some event.
// Kept (plain): no From: the name says the definition's, by which the contracts above speak of an event in numbers.
#[tactic(auto, unfolding(crate::specs::Events::event_of, crate::specs::Events::click_of))]
pub fn event_of(x: Entry) -> PointerEvent
    ensures { result ≡ event_of x }
{
    let button = button_of(x.button);
    match x.kind {
        0 => PointerEvent::Moved(x.pos),
        1 => PointerEvent::Pressed(x.pos, button),
        2 => PointerEvent::Released(None, button),
        _ => {
            let click = Click {
                pos: x.pos,
                count: x.count,
                modifiers: Modifiers::of(x.flags),
            };
            PointerEvent::Released(Some(click), button)
        }
    }
}

#[tactic(auto, unfolding(crate::specs::Events::entry_of))]
fn released_entry(click: Option<Click>, button: PointerButton) -> Entry
    ensures { result ≡ entry_of (Released click button) }
{
    match click {
        None => Entry {
            kind: 2,
            button: button.number(),
            count: 0,
            flags: 0,
            pos: Pos2::zero(),
        },
        Some(k) => Entry {
            kind: 3,
            button: button.number(),
            count: k.count,
            flags: k.modifiers.number(),
            pos: k.pos,
        },
    }
}

// Kept (plain): no From, as `event_of`.
#[tactic(auto, unfolding(crate::specs::Events::entry_of))]
pub fn entry_of(e: PointerEvent) -> Entry
    ensures { result ≡ entry_of e }
{
    match e {
        PointerEvent::Moved(pos) => Entry {
            kind: 0,
            button: 0,
            count: 0,
            flags: 0,
            pos,
        },
        PointerEvent::Pressed(pos, button) => Entry {
            kind: 1,
            button: button.number(),
            count: 0,
            flags: 0,
            pos,
        },
        PointerEvent::Released(click, button) => released_entry(click, button),
    }
}

// The numbers of event `i`: four codes and two parts of a position.
// Kept (plain): `any` takes the codes alone; a struct with the positions would be made for this one read. Both are plain numbers, as C lends them.
#[tactic(auto, unfolding(crate::specs::Events::entry_at, emath_history::specs::Ring::position_at))]
pub fn entry_at(codes: &[u32; CODES], positions: &[f32; PLACES], i: usize) -> Entry
    requires { i < max_events }
    ensures { result ≡ entry_at codes.now positions.now i }
{
    Entry {
        kind: codes[i * 4],
        button: codes[i * 4 + 1],
        count: codes[i * 4 + 2],
        flags: codes[i * 4 + 3],
        pos: Pos2 {
            x: positions[i * 2],
            y: positions[i * 2 + 1],
        },
    }
}

// Event `i` of `count`.
// Kept (plain): two arrays, as `entry_at` reads them.
#[tactic(auto, using(crate::proofs::Stored::read_event, crate::proofs::Stored::read_none))]
pub fn event_at(
    codes: &[u32; CODES],
    positions: &[f32; PLACES],
    count: usize,
    i: usize,
) -> Option<PointerEvent>
    ensures { result ≡ event_or_none (events codes.now positions.now count) i }
{
    if i < counted(count) {
        return Some(event_of(entry_at(codes, positions, i)));
    }
    None
}

fn set_codes(codes: &mut [u32], i: usize, x: Entry)
    requires { i * 4 + 3 < length codes.old }
    ensures { codes.new ≡ codes_with i x codes.old }
{
    let at = i * 4;
    codes[at..at + 4].copy_from_slice(&[x.kind, x.button, x.count, x.flags]);
}

fn set_position(positions: &mut [f32], i: usize, pos: Pos2)
    requires { i * 2 + 1 < length positions.old }
    ensures { positions.new ≡ set_position positions.old i pos }
{
    let at = i * 2;
    positions[at..at + 2].copy_from_slice(&[pos.x, pos.y]);
}

// One event more, and the new count; where there are `MAX_EVENTS` all stays.
// Kept (plain): lent one by one: of a struct that holds a `&mut` each clause would have to say what stands behind it afterwards.
pub fn push(
    codes: &mut [u32; CODES],
    positions: &mut [f32; PLACES],
    count: usize,
    e: PointerEvent,
) -> usize
    ensures { Pushed e count codes.old positions.old result codes.new positions.new }
{
    if count < MAX_EVENTS {
        let x = entry_of(e);
        set_codes(codes, count, x);
        set_position(positions, count, x.pos);
        return count + 1;
    }
    count
}

// Event `i` without its position: a question and an interact are lent the codes alone.
// Kept (C): the codes are plain numbers that C lends, four an event.
#[tactic(auto, unfolding(crate::specs::Events::kind_of, crate::specs::Events::event_of, crate::specs::Events::click_of, crate::specs::Events::entry_at))]
pub fn kind_at(codes: &[u32; CODES], i: usize) -> EventKind
    requires { i < max_events }
    ensures { (positions : List Float) → result ≡ kind_of (event_of (entry_at codes.now positions i)) }
{
    let button = button_of(codes[i * 4 + 1]);
    match codes[i * 4] {
        0 => EventKind::Moved,
        1 => EventKind::Pressed(button),
        2 => EventKind::Released(None, button),
        _ => EventKind::Released(Some(codes[i * 4 + 2]), button),
    }
}

// Does one of the events pass the test: egui's `pointer_events.iter().any(test)`.
pub fn any<F: Fn(EventKind) -> bool>(codes: &[u32; CODES], count: usize, test: F) -> bool
    requires { F.IsAlwaysCallable test }
    ensures { (f : PointerEvent → Bool) → Tests (F.post test) f → (positions : List Float) → result ≡ any f (events codes.now positions count) }
{
    let n = counted(count);
    for i in 0..n {
        if test(kind_at(codes, i)) {
            return true;
        }
    }
    false
}
