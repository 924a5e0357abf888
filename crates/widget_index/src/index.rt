// Finding an id: the slots of a bucket are chained from the last to the first, so a link always falls.
ghost use Rattle.std.specs.Prelude.{◌≡◌, ◌<◌, ◌≤◌};
ghost use Rattle.widget_index.specs.Layout.{link_at, entry_of};
ghost use Rattle.widget_index.specs.Table.{layers_of, layer_at, rect_at, widget_at, bucket, head, find, find_layer};

use crate::table::{
    BUCKETS, Edges, LAYER_IDS, LINKS, Numbers, ORDERS, PARENTS, PLACES, TRAITS, WidgetRects, Words,
    layer_of, layers_of, same_layer, widgets_of,
};
use data::layers::LayerId;
use data::widget::WidgetRect;
use emath::pos2::Pos2;
use emath::rect::Rect;

// The widget set with the two lent arrays that ids and layers are found in.
#[derive(Clone, Copy)]
pub struct Table<'a> {
    pub set: WidgetRects,
    // Kept (C): C lends the arrays, each by itself, as plain numbers
    pub words: &'a Words,
    pub numbers: &'a Numbers,
}

pub fn bucket(id: u64) -> usize
    ensures { (result ≡ bucket id) × (result < 2048) }
{
    (id % BUCKETS) as usize
}

// An entry of the lent array: a slot plus one, and 0 is none.
fn slot(e: u32) -> Option<usize>
    ensures { entry_of result ≡ e }
{
    (e as usize).checked_sub(1)
}

// The slot before this one in its bucket. What stands in an array that was never written may be any number: a link that rises is none.
#[tactic(auto, unfolding(crate::specs::Layout::link_at))]
fn link(numbers: &Numbers, s: usize) -> Option<usize>
    requires { s < 1024 }
    ensures { (entry_of result ≡ link_at numbers.now s) × (entry_of result ≤ s) }
{
    let e = numbers[LINKS + s];
    if e as usize <= s { slot(e) } else { None }
}

// The rectangle whose four edges begin at place j of a slot.
fn rect_at(edges: &Edges, s: usize, j: usize) -> Rect
    requires { (s < 1024) × (j ≤ 4) }
    ensures { result ≡ rect_at edges.now s j }
{
    let min = Pos2 {
        x: edges[s * 8 + j],
        y: edges[s * 8 + (j + 1)],
    };
    let max = Pos2 {
        x: edges[s * 8 + (j + 2)],
        y: edges[s * 8 + (j + 3)],
    };
    Rect { min, max }
}

impl<'a> Table<'a> {
    // The last slot of the id's bucket. An array that was never written may hold anything: that is no slot.
    #[tactic(auto, unfolding(crate::specs::Table::head))]
    pub fn head(self, id: u64) -> Option<usize>
        ensures { (entry_of result ≡ head self.entry.set self.entry.words.now self.entry.numbers.now id) × (entry_of result ≤ 1024) }
    {
        let b = bucket(id);
        let s = slot(self.numbers[b])?;
        if s < widgets_of(self.set) && bucket(self.words[s]) == b {
            return Some(s);
        }
        None
    }

    // The slot of an id.
    pub fn find(self, id: u64) -> Option<usize>
        ensures { (entry_of result ≡ find self.entry.set self.entry.words.now self.entry.numbers.now id) × (entry_of result ≤ 1024) }
    {
        // Kept (plain): `while`: it goes along links, and no count says how many there are
        let mut at = self.head(id);
        while let Some(s) = at {
            if id == self.words[s] {
                return Some(s);
            }
            at = link(self.numbers, s);
        }
        None
    }

    pub fn layer_at(self, l: usize) -> LayerId
        requires { l < 32 }
        ensures { result ≡ layer_at self.entry.words.now self.entry.numbers.now l }
    {
        LayerId {
            order: self.numbers[ORDERS + l],
            id: self.words[LAYER_IDS + l],
        }
    }

    // The record of a slot.
    pub fn widget_at(self, edges: &Edges, s: usize) -> WidgetRect
        requires { s < 1024 }
        ensures { result ≡ widget_at self.entry.words.now self.entry.numbers.now edges.now s }
    {
        let layer_id = self.layer_at(layer_of(self.numbers[PLACES + s]));
        let traits = self.numbers[TRAITS + s];
        WidgetRect {
            id: self.words[s],
            parent_id: self.words[PARENTS + s],
            layer_id,
            rect: rect_at(edges, s, 0),
            interact_rect: rect_at(edges, s, 4),
            sense: traits / 4,
            enabled: traits / 2 % 2 == 1,
            visible: traits % 2 == 1,
        }
    }

    // The number of a layer.
    pub fn find_layer(self, layer: LayerId) -> Option<usize>
        ensures { (entry_of result ≡ find_layer self.entry.words.now self.entry.numbers.now layer (layers_of self.entry.set)) × (entry_of result ≤ 32) }
    {
        for l in (0..layers_of(self.set)).rev() {
            if same_layer(layer, self.layer_at(l)) {
                return Some(l);
            }
        }
        None
    }
}
