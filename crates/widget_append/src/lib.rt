// What an insertion answers, the stores of one record, and the insertion of a new widget. The lent slice is not touched here.
// Kept (plain): the set's three arrays of plain numbers, lent one by one: of a struct that holds a `&mut` each clause would have to say what stands behind it.
#![tactic(auto)]

ghost use Rattle.std.specs.Prelude.{◌≡◌, ◌<◌, ◌≤◌, Ok};
ghost use Rattle.widget_index.specs.Table.{layers_of, find_layer};
ghost use Rattle.widget_index.specs.Layout.{entry_of};
ghost use Rattle.widget_append.specs.Append.{Gives, with_edges, with_traits, number_of, count_of, layers_after, append, insert_new};

use data::layers::LayerId;
use data::limits::{MAX_LAYERS, MAX_WIDGETS};
use data::refusal::InsertRefusal;
use data::widget::WidgetRect;
use widget_index::index::{Table, bucket};
use widget_index::table::{
    COUNTS, Edges, LAYER_IDS, LINKS, Numbers, ORDERS, PARENTS, PLACES, TRAITS, WidgetRects, Words,
    count_at, layers_of, packed, place,
};

// An insertion that is taken: the widget's position in its layer, how many widgets the layer has now, and the set after it. In the lent
// slice, the record at `from` goes, each after it up to `to` falls by one, and `widget` comes last.
#[derive(Clone, Copy)]
pub struct Insertion {
    pub position: usize,
    // Kept (C): the layer's records are lent by C in a slice that may be longer, so their number stands here
    pub count: usize,
    pub set: WidgetRects,
    pub from: usize,
    pub to: usize,
    pub widget: WidgetRect,
}

// ---- stores of one record

// The eight edges of a slot.
pub fn put_edges(edges: &mut Edges, s: usize, w: WidgetRect)
    requires { s < 1024 }
    ensures { edges.new ≡ with_edges s w edges.old }
{
    edges[s * 8] = w.rect.min.x;
    edges[s * 8 + 1] = w.rect.min.y;
    edges[s * 8 + 2] = w.rect.max.x;
    edges[s * 8 + 3] = w.rect.max.y;
    edges[s * 8 + 4] = w.interact_rect.min.x;
    edges[s * 8 + 5] = w.interact_rect.min.y;
    edges[s * 8 + 6] = w.interact_rect.max.x;
    edges[s * 8 + 7] = w.interact_rect.max.y;
}

pub fn put_traits(numbers: &mut Numbers, s: usize, w: WidgetRect)
    requires { s < 1024 }
    ensures { numbers.new ≡ with_traits s w numbers.old }
{
    numbers[TRAITS + s] = packed(w.sense, w.enabled, w.visible);
}

// ---- a new widget

// The number of the layer, and how many widgets it has: a new layer comes last, with none.
#[tactic(auto, unfolding(crate::specs::Append::number_of, crate::specs::Append::count_of))]
fn layer_for(table: Table<'_>, layer: LayerId) -> (usize, usize)
    ensures number { (result.0 ≡ number_of (find_layer table.entry.words.now table.entry.numbers.now layer (layers_of table.entry.set)) (layers_of table.entry.set)) × (result.0 ≤ 32) }
    ensures counted { (result.1 ≡ count_of table.entry.numbers.now (find_layer table.entry.words.now table.entry.numbers.now layer (layers_of table.entry.set))) × (result.1 < 2048) }
{
    match table.find_layer(layer) {
        Some(l) => (l, count_at(table.numbers, l)),
        None => (layers_of(table.set), 0),
    }
}

// What stands for a slot in the lent array: the slot plus one, and 0 for none.
fn entry(slot: Option<usize>) -> u32
    requires { entry_of slot ≤ 1024 }
    ensures { result ≡ entry_of slot }
{
    match slot {
        Some(s) => (s + 1) as u32,
        None => 0,
    }
}

#[tactic(auto, unfolding(crate::specs::Append::layers_after))]
fn layers_after(n: usize, l: usize) -> usize
    requires { l < 32 }
    ensures { result ≡ layers_after n l }
{
    if l < n {
        return n;
    }
    l + 1
}

// The slot after the last, in the layer's last position.
fn append(
    h: WidgetRects,
    words: &mut Words,
    numbers: &mut Numbers,
    edges: &mut Edges,
    w: WidgetRect,
    l: usize,
    count: usize,
) -> Insertion
    requires { (h.widgets < 1024) × (l < 32) × (count < 2048) }
    ensures { Gives (append h words.old numbers.old edges.old w l count) (Ok result) words.new numbers.new edges.new }
{
    let s = h.widgets;
    let table = Table {
        set: h,
        words,
        numbers,
    };
    let e = entry(table.head(w.id));
    let b = bucket(w.id);
    let p = place(l, count);
    words[s] = w.id;
    words[PARENTS + s] = w.parent_id;
    words[LAYER_IDS + l] = w.layer_id.id;
    numbers[LINKS + s] = e;
    numbers[b] = (s + 1) as u32;
    numbers[PLACES + s] = p;
    numbers[ORDERS + l] = w.layer_id.order;
    numbers[COUNTS + l] = (count + 1) as u32;
    put_traits(numbers, s, w);
    put_edges(edges, s, w);
    let set = WidgetRects {
        widgets: s + 1,
        layers: layers_after(h.layers, l),
    };
    Insertion {
        position: count,
        count: count + 1,
        set,
        from: count,
        to: count + 1,
        widget: w,
    }
}

// 6, then 8.
pub fn insert_new(
    h: WidgetRects,
    words: &mut Words,
    numbers: &mut Numbers,
    edges: &mut Edges,
    lent: usize,
    w: WidgetRect,
) -> Result<Insertion, InsertRefusal>
    ensures { Gives (insert_new h words.old numbers.old edges.old lent w) result words.new numbers.new edges.new }
{
    if MAX_WIDGETS <= h.widgets {
        return Err(InsertRefusal::Full);
    }
    let table = Table {
        set: h,
        words,
        numbers,
    };
    let (l, count) = layer_for(table, w.layer_id);
    if MAX_LAYERS <= l {
        return Err(InsertRefusal::Full);
    }
    if lent < count + 1 {
        return Err(InsertRefusal::ShortSlice);
    }
    Ok(append(h, words, numbers, edges, w, l, count))
}
