// The widget set: a header by value, with its table in three lent arrays. Fresh arrays may hold anything.
// Calls handed on: the clauses are what this door adds.
// Kept (C): C lends the arrays of the set, each by itself, so they are parameters here, and one table from here on
ghost use Rattle.widget_rect.specs.Told.{Inserts};
ghost use Rattle.widget_rect.specs.Questions.{Empty, Contains, Gets, Orders, Counts, Layers};

use data::layers::LayerId;
use data::refusal::InsertRefusal;
use data::widget::WidgetRect;
use widget_append::Insertion;
use widget_index::index::Table;
use widget_index::table::{Edges, Numbers, WidgetRects, Words};

// A new set, or one that is emptied.
pub fn empty() -> WidgetRects
    ensures { Empty result }
{
    widget_rect::questions::empty()
}

// Inserts a widget into its own layer, whose widgets are lent in `layer`: refused, with all as before; or taken, with the widget's position
// and the count of its layer.
pub fn insert(
    set: WidgetRects,
    words: &mut Words,
    numbers: &mut Numbers,
    edges: &mut Edges,
    layer: &mut [WidgetRect],
    widget: WidgetRect,
    move_to_top: bool,
) -> Result<Insertion, InsertRefusal>
    ensures { Inserts
        «set» words.old numbers.old edges.old layer.old widget move_to_top
        result words.new numbers.new edges.new layer.new }
{
    widget_rect::insert::insert(set, words, numbers, edges, layer, widget, move_to_top)
}

pub fn contains(set: WidgetRects, words: &Words, numbers: &Numbers, id: u64) -> bool
    ensures { Contains «set» words.now numbers.now id result }
{
    widget_rect::questions::contains(
        Table {
            set,
            words,
            numbers,
        },
        id,
    )
}

pub fn get(
    set: WidgetRects,
    words: &Words,
    numbers: &Numbers,
    edges: &Edges,
    id: u64,
) -> Option<WidgetRect>
    ensures { Gets «set» words.now numbers.now edges.now id result }
{
    widget_rect::questions::get(
        Table {
            set,
            words,
            numbers,
        },
        edges,
        id,
    )
}

// In which layer, and in which order in that layer?
pub fn order(
    set: WidgetRects,
    words: &Words,
    numbers: &Numbers,
    edges: &Edges,
    id: u64,
) -> Option<(LayerId, usize)>
    ensures { Orders «set» words.now numbers.now edges.now id result }
{
    widget_rect::questions::order(
        Table {
            set,
            words,
            numbers,
        },
        edges,
        id,
    )
}

// How many widgets the set counts in a layer.
pub fn layer_count(set: WidgetRects, words: &Words, numbers: &Numbers, layer: LayerId) -> usize
    ensures { Counts «set» words.now numbers.now layer result }
{
    widget_rect::questions::layer_count(
        Table {
            set,
            words,
            numbers,
        },
        layer,
    )
}

// The layers in the order of their first insertion: the one at i, if there is one.
pub fn layer_id(set: WidgetRects, words: &Words, numbers: &Numbers, i: usize) -> Option<LayerId>
    ensures { Layers «set» words.now numbers.now i result }
{
    widget_rect::questions::layer_id(
        Table {
            set,
            words,
            numbers,
        },
        i,
    )
}
