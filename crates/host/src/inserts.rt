// An insertion.
// Kept (C): a parameter for each of the set's arrays, as C lends them.
ghost use Rattle.host_widgets.specs.Insert.{Inserts};

use data::widget::WidgetRect;
use host_widgets::{HostInsertion, HostSet, decided};
use widget_index::table::{Edges, Numbers, Words};
use widget_rect::slice::settle;

// Inserts a widget into its own layer, whose widgets are lent in `layer`. Refused, every place is as before; taken, the answer has the set after it.
#[unsafe(no_mangle)]
pub extern "C" fn fivvarul_insert(
    set: HostSet,
    words: &mut Words,
    numbers: &mut Numbers,
    edges: &mut Edges,
    layer: &mut [WidgetRect],
    widget: WidgetRect,
    move_to_top: bool,
) -> HostInsertion
    ensures { Inserts
        «set» words.old numbers.old edges.old layer.old widget move_to_top
        result words.new numbers.new edges.new layer.new }
{
    let d = decided(set, words, numbers, edges, layer.len(), widget, move_to_top);
    settle(layer, d.from, d.to, d.widget);
    d
}
