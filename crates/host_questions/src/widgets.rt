// What a widget set is asked. The host keeps the counts of its widgets and layers, and its three arrays.
// Kept (C): C calls each question by its own name, and lends the set's counts and arrays one by one: questions alike in their steps stand apart.
ghost use Rattle.widget_rect.specs.Questions.{Empty, Contains, Gets, Orders, Counts, Layers};
ghost use Rattle.host_answers.specs.Answers.{widget_of, order_of, layer_of};
ghost use Rattle.host_interact.specs.Interact.{set_of};
ghost use Rattle.host_widgets.specs.Insert as Insert;

use data::layers::LayerId;
use host_answers::{HostLayer, HostOrder, HostWidget};
use host_widgets::HostSet;
use widget_index::table::{Edges, Numbers, WidgetRects, Words};

// A new set, or one that is emptied. Its arrays may hold anything.
#[unsafe(no_mangle)]
pub extern "C" fn fivvarul_empty() -> HostSet
    ensures { Empty (Insert.set_of result) }
{
    let set = panel::widgets::empty();
    HostSet {
        widgets: set.widgets,
        layers: set.layers,
    }
}

#[unsafe(no_mangle)]
pub extern "C" fn fivvarul_contains(
    widgets: usize,
    layers: usize,
    words: &Words,
    numbers: &Numbers,
    id: u64,
) -> bool
    ensures { Contains (set_of widgets layers) words.now numbers.now id result }
{
    let set = WidgetRects { widgets, layers };
    panel::widgets::contains(set, words, numbers, id)
}

#[unsafe(no_mangle)]
pub extern "C" fn fivvarul_get(
    widgets: usize,
    layers: usize,
    words: &Words,
    numbers: &Numbers,
    edges: &Edges,
    id: u64,
) -> HostWidget
    ensures { Gets (set_of widgets layers) words.now numbers.now edges.now id (widget_of result) }
{
    let set = WidgetRects { widgets, layers };
    panel::widgets::get(set, words, numbers, edges, id).into()
}

// In which layer, and in which order in that layer?
#[unsafe(no_mangle)]
pub extern "C" fn fivvarul_order(
    widgets: usize,
    layers: usize,
    words: &Words,
    numbers: &Numbers,
    edges: &Edges,
    id: u64,
) -> HostOrder
    ensures { Orders (set_of widgets layers) words.now numbers.now edges.now id (order_of result) }
{
    let set = WidgetRects { widgets, layers };
    panel::widgets::order(set, words, numbers, edges, id).into()
}

// How many widgets the set counts in a layer.
#[unsafe(no_mangle)]
pub extern "C" fn fivvarul_layer_count(
    widgets: usize,
    layers: usize,
    words: &Words,
    numbers: &Numbers,
    layer: LayerId,
) -> usize
    ensures { Counts (set_of widgets layers) words.now numbers.now layer result }
{
    let set = WidgetRects { widgets, layers };
    panel::widgets::layer_count(set, words, numbers, layer)
}

// The layers in the order of their first insertion: the one at i, if there is one.
#[unsafe(no_mangle)]
pub extern "C" fn fivvarul_layer_id(
    widgets: usize,
    layers: usize,
    words: &Words,
    numbers: &Numbers,
    i: usize,
) -> HostLayer
    ensures { Layers (set_of widgets layers) words.now numbers.now i (layer_of result) }
{
    let set = WidgetRects { widgets, layers };
    panel::widgets::layer_id(set, words, numbers, i).into()
}
