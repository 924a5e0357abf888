// The widgets of DUMP: by layer what the caller lent, then the set's own records by id.
ghost use Rattle.std.specs.Prelude.{◌<◌, IfSome};

use crate::lent::SetArrays;
use data::layers::LayerId;
use data::limits::MAX_WIDGETS;
use trace_words::records::Lent;
use trace_words::request::WIDGET_WORDS;
use trace_words::words::Answer;
use widget_index::index::Table;
use widget_index::table::{
    Edges, PLACES, SPAN, WidgetRects, count_at, layer_of, layers_of, position_of, widgets_of,
};

// ---- layers

// The number of the least layer after `last`, if there is one; after none, the least of all.
fn next_layer(table: Table<'_>, last: Option<LayerId>) -> Option<usize>
    ensures { IfSome result (λ l. l < 32) }
{
    (0..layers_of(table.set))
        .filter(|l| last.is_none_or(|y| y < table.layer_at(*l)))
        .min_by_key(|l| table.layer_at(*l))
}

const WIDGETS: u32 = MAX_WIDGETS as u32;

// The positions of a layer.
const SLOTS: usize = SPAN as usize;

// The slot of each position of a layer.
// Kept (plain): no conversion: it is worked out over all slots, from two values
fn slots_of(table: Table<'_>, l: usize) -> [u32; SLOTS] {
    let mut slots = [0u32; SLOTS];
    for s in 0..widgets_of(table.set) {
        let place = table.numbers[PLACES + s];
        if layer_of(place) == l {
            slots[position_of(place)] = s as u32;
        }
    }
    slots
}

// The `WIDGET_WORDS` words of a slot.
fn lent_record(a: &mut Answer, lent: &Lent, slot: u32) {
    let from = (slot % WIDGETS) as usize * WIDGET_WORDS;
    a.all(&lent[from..from + WIDGET_WORDS]);
}

fn layer(a: &mut Answer, table: Table<'_>, lent: &Lent, l: usize)
    requires { l < 32 }
{
    let x = table.layer_at(l);
    let len = count_at(table.numbers, l);
    a.word(x.order);
    a.id(x.id);
    a.count(len);
    for slot in slots_of(table, l).iter().take(len) {
        lent_record(a, lent, *slot);
    }
}

fn layers(a: &mut Answer, table: Table<'_>, lent: &Lent) {
    let len = layers_of(table.set);
    a.count(len);
    let mut last = None;
    for _ in 0..len {
        if let Some(l) = next_layer(table, last) {
            layer(a, table, lent, l);
            last = Some(table.layer_at(l));
        }
    }
}

// ---- the set's records

// The slot with the least id above `last`, if there is one. No id is 0.
fn next_slot(table: Table<'_>, last: u64) -> Option<usize>
    ensures { IfSome result (λ s. s < 1024) }
{
    (0..widgets_of(table.set))
        .filter(|s| last < table.words[*s])
        .min_by_key(|s| table.words[*s])
}

fn known(a: &mut Answer, table: Table<'_>, edges: &Edges) {
    let len = widgets_of(table.set);
    a.count(len);
    let mut last: u64 = 0;
    for _ in 0..len {
        if let Some(s) = next_slot(table, last) {
            a.count(position_of(table.numbers[PLACES + s]));
            a.widget(table.widget_at(edges, s));
            last = table.words[s];
        }
    }
}

pub fn widgets(a: &mut Answer, set: WidgetRects, kept: &SetArrays) {
    let table = Table {
        set,
        words: &kept.words,
        numbers: &kept.numbers,
    };
    layers(a, table, &kept.lent);
    known(a, table, &kept.edges);
}
