// What the slices lent for the insertions hold: `WIDGET_WORDS` words for each widget that is known, by its slot in the set. A record that moves in
// its layer stays with its slot.
ghost use Rattle.std.specs.Prelude.{◌≤◌};

use data::bits::bit_number;
use data::limits::MAX_WIDGETS;
use data::widget::WidgetRect;
use emath::rect::Rect;
use trace_words::records::{LENT, Lent};
use trace_words::request::{WIDGET_WORDS, widget};
use widget_index::index::Table;
use widget_index::table::{
    EDGES, Edges, NUMBERS, Numbers, PLACES, WORDS, Words, layer_of, position_of, widgets_of,
};

// The arrays beside a set: its own three, and what the slices lent for the insertions hold.
// Kept (C): the set's three, as `decide` takes them: C lends it each.
#[derive(Drop)]
pub struct SetArrays {
    pub words: Words,
    pub numbers: Numbers,
    pub edges: Edges,
    pub lent: Lent,
}

impl Default for SetArrays {
    fn default() -> SetArrays {
        SetArrays {
            words: [0; WORDS],
            numbers: [0; NUMBERS],
            edges: [0.0; EDGES],
            lent: [0; LENT],
        }
    }
}

// The record of a slot.
fn record(lent: &[u32], slot: usize) -> WidgetRect {
    let from = slot % MAX_WIDGETS * WIDGET_WORDS;
    if from < lent.len() {
        return widget(&lent[from..]);
    }
    widget(lent)
}

// Two words, the low one first.
// Kept (plain): by index: the lent record is plain words, and a shift and a cast would be no plainer
fn put_id(lent: &mut Lent, at: usize, d: u64)
    requires { at ≤ 17406 }
{
    lent[at] = (d % 0x1_0000_0000) as u32;
    lent[at + 1] = (d / 0x1_0000_0000) as u32;
}

fn put_rect(lent: &mut Lent, at: usize, r: Rect)
    requires { at ≤ 17404 }
{
    lent[at] = ieee::bits::to_bits32(r.min.x);
    lent[at + 1] = ieee::bits::to_bits32(r.min.y);
    lent[at + 2] = ieee::bits::to_bits32(r.max.x);
    lent[at + 3] = ieee::bits::to_bits32(r.max.y);
}

fn put_record(lent: &mut Lent, slot: usize, w: WidgetRect) {
    let at = slot % MAX_WIDGETS * WIDGET_WORDS;
    put_id(lent, at, w.id);
    put_id(lent, at + 2, w.parent_id);
    lent[at + 4] = w.layer_id.order;
    put_id(lent, at + 5, w.layer_id.id);
    put_rect(lent, at + 7, w.rect);
    put_rect(lent, at + 11, w.interact_rect);
    lent[at + 15] = w.sense;
    lent[at + 16] = bit_number(w.enabled) + 2 * bit_number(w.visible);
}

// The layer's records by position, in the first places of `a`.
pub fn gathered(
    a: [WidgetRect; MAX_WIDGETS],
    table: Table<'_>,
    lent: &Lent,
    l: usize,
) -> [WidgetRect; MAX_WIDGETS] {
    let mut b = a;
    for s in 0..widgets_of(table.set) {
        let place = table.numbers[PLACES + s];
        let position = position_of(place);
        if (layer_of(place) == l) & (position < MAX_WIDGETS) {
            b[position % MAX_WIDGETS] = record(lent, s);
        }
    }
    b
}

// The first `k` places hold the records given, 17 words each.
pub fn given(a: [WidgetRect; MAX_WIDGETS], k: usize, w: &[u32]) -> [WidgetRect; MAX_WIDGETS] {
    let mut b = a;
    for i in 0..k.min(MAX_WIDGETS) {
        let from = i * WIDGET_WORDS;
        if w.len() <= from {
            return b;
        }
        b[i] = widget(&w[from..]);
    }
    b
}

// The layer's records go back to their slots.
pub fn scatter(lent: &mut Lent, table: Table<'_>, a: [WidgetRect; MAX_WIDGETS], l: usize) {
    for s in 0..widgets_of(table.set) {
        let place = table.numbers[PLACES + s];
        let position = position_of(place);
        if (layer_of(place) == l) & (position < MAX_WIDGETS) {
            put_record(lent, s, a[position % MAX_WIDGETS]);
        }
    }
}
