// One insertion: what it decides, and the set after it. The lent slice is not touched here.
// Kept (plain): lent one by one: of a struct that holds a `&mut` each clause would have to say what stands behind it afterwards.
#![tactic(auto)]

ghost use Rattle.std.specs.Prelude.{◌≡◌, ◌+◌, ◌-◌, ◌<◌, ◌≤◌};
ghost use Rattle.model.specs.Widgets.{updated, well_shaped, some_id_zero, edges_ok, record_refusal};
ghost use Rattle.widget_index.specs.Table.{widgets_of};
ghost use Rattle.widget_append.specs.Append.{Gives, with_edges, with_traits};
ghost use Rattle.widget_insert.specs.Numbers.{refusal_of};
ghost use Rattle.widget_insert.specs.Insert.{fallen, fall, at_least, take_update, moved_numbers, insert_known, insert_checked, decide};

use data::limits::MAX_ORDER;
use data::refusal::InsertRefusal;
use data::sense::{bitor, sense_ok};
use data::widget::WidgetRect;
use domain::rect_ok;
use widget_append::{Insertion, insert_new, put_edges, put_traits};
use widget_index::index::Table;
use widget_index::table::{
    Edges, Numbers, PLACES, WidgetRects, Words, count_at, layer_of, place, position_of, same_layer,
    widgets_of,
};

// ---- refusals 1, 9, 2

#[tactic(auto, unfolding(model::specs::Widgets::well_shaped))]
fn well_shaped(w: WidgetRect) -> bool
    ensures { result ≡ well_shaped w }
{
    (w.layer_id.order <= MAX_ORDER) & sense_ok(w.sense)
}

#[tactic(auto, unfolding(model::specs::Widgets::some_id_zero))]
fn some_id_zero(w: WidgetRect) -> bool
    ensures { result ≡ some_id_zero w }
{
    (w.id == 0) | ((w.parent_id == 0) | (w.layer_id.id == 0))
}

#[tactic(auto, unfolding(model::specs::Widgets::edges_ok))]
fn edges_ok(w: WidgetRect) -> bool
    ensures { result ≡ edges_ok w }
{
    rect_ok(w.rect) & rect_ok(w.interact_rect)
}

#[tactic(auto, unfolding(model::specs::Widgets::record_refusal, crate::specs::Numbers::refusal_of))]
fn record_refusal(w: WidgetRect) -> Result<(), InsertRefusal>
    ensures { refusal_of result ≡ record_refusal w }
{
    if !well_shaped(w) {
        return Err(InsertRefusal::Malformed);
    }
    if some_id_zero(w) {
        return Err(InsertRefusal::ZeroId);
    }
    if edges_ok(w) {
        return Ok(());
    }
    Err(InsertRefusal::OutsideDomain)
}

// ---- a known widget

// A known id takes the new rectangles and the union of sense, enabled and visible.
#[tactic(auto, unfolding(model::specs::Widgets::updated))]
fn updated(old: WidgetRect, new: WidgetRect) -> WidgetRect
    ensures { result ≡ updated old new }
{
    WidgetRect {
        rect: new.rect,
        interact_rect: new.interact_rect,
        sense: bitor(old.sense, new.sense),
        enabled: old.enabled | new.enabled,
        visible: old.visible | new.visible,
        ..old
    }
}

#[tactic(auto, unfolding(crate::specs::Insert::fallen))]
fn fallen(after: u32, before: u32, p: u32) -> u32
    ensures { result ≡ fallen after before p }
{
    if after < p && p < before {
        return p - 1;
    }
    p
}

// Every later position of the layer falls by one.
#[tactic(auto, unfolding(crate::specs::Insert::fall))]
fn fall(numbers: &mut Numbers, n: usize, after: u32, before: u32)
    requires { n ≤ 1024 }
    ensures { numbers.new ≡ fall n after before numbers.old }
{
    for s in 0..n {
        numbers[PLACES + s] = fallen(after, before, numbers[PLACES + s]);
    }
}

#[tactic(auto, unfolding(crate::specs::Insert::at_least))]
fn at_least(low: usize, n: usize) -> usize
    ensures { (result ≡ at_least low n) × (low ≤ result) × (low ≤ 2048 → n ≤ 2048 → result ≤ 2048) }
{
    n.max(low)
}

fn take_update(
    h: WidgetRects,
    position: usize,
    count: usize,
    from: usize,
    to: usize,
    w: WidgetRect,
) -> Insertion
    ensures { result ≡ take_update h position count from to w }
{
    Insertion {
        position,
        count,
        set: h,
        from,
        to,
        widget: w,
    }
}

fn replace(
    h: WidgetRects,
    numbers: &mut Numbers,
    edges: &mut Edges,
    w: WidgetRect,
    s: usize,
    position: usize,
    count: usize,
) -> Insertion
    requires { (s < 1024) × (position < 2048) }
    ensures { (result ≡ take_update h position count position (position + 1) w) × (numbers.new ≡ with_traits s w numbers.old) × (edges.new ≡ with_edges s w edges.old) }
{
    put_traits(numbers, s, w);
    put_edges(edges, s, w);
    take_update(h, position, count, position, position + 1, w)
}

#[tactic(auto, unfolding(crate::specs::Insert::moved_numbers))]
fn move_to_top(
    h: WidgetRects,
    numbers: &mut Numbers,
    edges: &mut Edges,
    w: WidgetRect,
    s: usize,
    l: usize,
    position: usize,
    count: usize,
) -> Insertion
    requires { (s < 1024) × (l < 32) × (position < count) × (count ≤ 2048) }
    ensures { (result ≡ take_update h (count - 1) count position count w) × (numbers.new ≡ moved_numbers (widgets_of h) s l position count w numbers.old) × (edges.new ≡ with_edges s w edges.old) }
{
    let after = place(l, position);
    let last = place(l, count - 1);
    let end = place(l, 2048);
    put_traits(numbers, s, w);
    fall(numbers, widgets_of(h), after, end);
    numbers[PLACES + s] = last;
    put_edges(edges, s, w);
    take_update(h, count - 1, count, position, count, w)
}

// 7, then 8.
fn insert_known(
    h: WidgetRects,
    words: &Words,
    numbers: &mut Numbers,
    edges: &mut Edges,
    lent: usize,
    w: WidgetRect,
    s: usize,
    top: bool,
) -> Result<Insertion, InsertRefusal>
    requires { s < 1024 }
    ensures { Gives (insert_known h words.now numbers.old edges.old lent w s top) result words.now numbers.new edges.new }
{
    let table = Table {
        set: h,
        words,
        numbers,
    };
    let old = table.widget_at(edges, s);
    if !same_layer(w.layer_id, old.layer_id) {
        return Err(InsertRefusal::OtherLayer);
    }
    let p = numbers[PLACES + s];
    let l = layer_of(p);
    let position = position_of(p);
    let count = at_least(position + 1, count_at(numbers, l));
    if lent < count {
        return Err(InsertRefusal::ShortSlice);
    }
    let new = updated(old, w);
    if top {
        return Ok(move_to_top(h, numbers, edges, new, s, l, position, count));
    }
    Ok(replace(h, numbers, edges, new, s, position, count))
}

// ---- an insertion

fn insert_checked(
    h: WidgetRects,
    words: &mut Words,
    numbers: &mut Numbers,
    edges: &mut Edges,
    lent: usize,
    w: WidgetRect,
    top: bool,
) -> Result<Insertion, InsertRefusal>
    ensures { Gives (insert_checked h words.old numbers.old edges.old lent w top) result words.new numbers.new edges.new }
{
    let table = Table {
        set: h,
        words,
        numbers,
    };
    match table.find(w.id) {
        None => insert_new(h, words, numbers, edges, lent, w),
        Some(s) => insert_known(h, words, numbers, edges, lent, w, s, top),
    }
}

// Decides an insertion with `lent` places in the slice, and does it in the set. Refused, all is as before.
pub fn decide(
    h: WidgetRects,
    words: &mut Words,
    numbers: &mut Numbers,
    edges: &mut Edges,
    lent: usize,
    w: WidgetRect,
    top: bool,
) -> Result<Insertion, InsertRefusal>
    ensures { Gives (decide h words.old numbers.old edges.old lent w top) result words.new numbers.new edges.new }
{
    record_refusal(w)?;
    insert_checked(h, words, numbers, edges, lent, w, top)
}
