// The touches that a device holds, by ascending id in the first `count` places: egui's BTreeMap.
#![tactic(auto)]

pub mod sorted;

ghost use Rattle.std.specs.Prelude.{◌≡◌, [], length};
ghost use Rattle.model.specs.Touch.{insert_touch, move_touch, remove_touch, holds, touch_id_of};
ghost use Rattle.touches.specs.Touches.{list, if_room, on_touch_if_room};

use data::limits::MAX_TOUCHES;
use data::touch::{ActiveTouch, TouchPhase};
use emath::pos2::Pos2;
use sorted::{HasId, find, is_at, place_of, put_in};

// Kept (01): a sorted array with its count, no map: the memory is fixed, and there is no heap.
#[derive(Clone, Copy)]
pub struct Touches {
    pub count: usize,
    pub places: [ActiveTouch; MAX_TOUCHES],
}

pub fn none() -> Touches
    ensures { list result ≡ [] }
{
    let touch = ActiveTouch {
        id: 0,
        pos: Pos2::zero(),
        force: None,
    };
    Touches {
        count: 0,
        places: [touch; MAX_TOUCHES],
    }
}

// The number of touches: a count beyond the places means that all are taken.
pub fn len(ts: Touches) -> usize
    ensures { result ≡ length (list ts) }
{
    ts.count.min(MAX_TOUCHES)
}

impl HasId for ActiveTouch {
    ghost id_of = { touch_id_of };

    fn id(&self) -> u64 {
        self.id
    }
}

// The touches, without the places that are free.
fn held(ts: &Touches) -> &[ActiveTouch]
    ensures { result.now ≡ list ts.now }
{
    // The count is read where it stands: `len` is handed a copy of the record.
    &ts.places[..ts.count.min(MAX_TOUCHES)]
}

pub fn holds(ts: Touches, id: u64) -> bool
    ensures { result ≡ holds id (list ts) }
{
    find(held(&ts), id).is_some()
}

// A held id is replaced; else the touches with a greater one move up by one. A touch for which there is no place is left out.
fn insert(ts: Touches, t: ActiveTouch) -> Touches
    ensures { list result ≡ if_room (insert_touch t (list ts)) (list ts) }
{
    let n = len(ts);
    let mut s = ts;
    let at = place_of(held(&s), t.id);
    if is_at(held(&s), at, t.id) {
        s.places[at] = t;
        return s;
    }
    if n >= MAX_TOUCHES {
        return s;
    }
    put_in(&mut s.places, n, at, t);
    s.count = n + 1;
    s
}

// An unheld id does nothing.
fn move_to(ts: Touches, t: ActiveTouch) -> Touches
    ensures { list result ≡ move_touch t (list ts) }
{
    let mut s = ts;
    if let Some(i) = find(held(&s), t.id) {
        s.places[i] = t;
    }
    s
}

fn remove(ts: Touches, id: u64) -> Touches
    ensures { list result ≡ remove_touch id (list ts) }
{
    // Kept (plain): the host's memory may hold an id twice, and all of them go: one `copy_within` takes out one.
    let n = len(ts);
    let mut s = ts;
    let mut kept: usize = 0;
    for i in 0..n {
        let x = s.places[i];
        if x.id != id {
            s.places[kept] = x;
            kept += 1;
        }
    }
    s.count = kept;
    s
}

pub fn on_touch(ts: Touches, phase: TouchPhase, t: ActiveTouch) -> Touches
    ensures { list result ≡ on_touch_if_room phase t (list ts) }
{
    match phase {
        TouchPhase::Start => insert(ts, t),
        TouchPhase::Move => move_to(ts, t),
        TouchPhase::End | TouchPhase::Cancel => remove(ts, t.id),
    }
}

// What the first touch event of a device leaves: with a Start every place has the touch, also those that are free.
pub fn first(phase: TouchPhase, t: ActiveTouch) -> Touches
    ensures { list result ≡ on_touch_if_room phase t [] }
{
    match phase {
        TouchPhase::Start => Touches {
            count: 1,
            places: [t; MAX_TOUCHES],
        },
        TouchPhase::Move | TouchPhase::End | TouchPhase::Cancel => none(),
    }
}
