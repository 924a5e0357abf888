// What a widget set is asked.
ghost use Rattle.std.specs.Prelude.{◌≡◌};
ghost use Rattle.widget_rect.specs.Questions.{Empty, Contains, Gets, Orders, Counts, Layers};

use data::layers::LayerId;
use data::widget::WidgetRect;
use widget_index::index::Table;
use widget_index::table::{Edges, PLACES, WidgetRects, count_at, layers_of, position_of};

// An empty set, over arrays that may hold anything: a new one, or one that is emptied.
// Kept (plain): no twin: another type with two zeros in it is like it but for the names
pub fn empty() -> WidgetRects
    ensures { Empty result }
{
    WidgetRects {
        widgets: 0,
        layers: 0,
    }
}

pub fn contains(table: Table<'_>, id: u64) -> bool
    ensures { Contains table.entry.set table.entry.words.now table.entry.numbers.now id result }
{
    table.find(id).is_some()
}

pub fn get(table: Table<'_>, edges: &Edges, id: u64) -> Option<WidgetRect>
    ensures { Gets table.entry.set table.entry.words.now table.entry.numbers.now edges.now id result }
{
    let s = table.find(id)?;
    Some(table.widget_at(edges, s))
}

// In which layer, and in which order in that layer?
pub fn order(table: Table<'_>, edges: &Edges, id: u64) -> Option<(LayerId, usize)>
    ensures { Orders table.entry.set table.entry.words.now table.entry.numbers.now edges.now id result }
{
    let s = table.find(id)?;
    let w = table.widget_at(edges, s);
    Some((w.layer_id, position_of(table.numbers[PLACES + s])))
}

// How many widgets the set counts in a layer.
pub fn layer_count(table: Table<'_>, layer: LayerId) -> usize
    ensures { Counts table.entry.set table.entry.words.now table.entry.numbers.now layer result }
{
    // Kept (plain): a match: a closure for `map_or` would have to ask for l < 32, as `count_at` does
    match table.find_layer(layer) {
        None => 0,
        Some(l) => count_at(table.numbers, l),
    }
}

// The layers in the order of their first insertion: the one at i, if there is one.
pub fn layer_id(table: Table<'_>, i: usize) -> Option<LayerId>
    ensures { Layers table.entry.set table.entry.words.now table.entry.numbers.now i result }
{
    if i < layers_of(table.set) {
        return Some(table.layer_at(i));
    }
    None
}
