// One insertion: the set decides, and the lent slice follows.
ghost use Rattle.widget_rect.specs.Told.{Inserts};

use crate::slice::settle;
use data::refusal::InsertRefusal;
use data::widget::WidgetRect;
use widget_append::Insertion;
use widget_index::table::{Edges, Numbers, WidgetRects, Words};
use widget_insert::decide;

// Inserts a widget into its own layer, whose widgets are lent in `s`: answers the set after it, the widget's position and the count of its
// layer, which places of `s` changed and the record as it is now; or why it is refused, with all as before.
// Kept (plain): lent one by one: of a struct that holds a `&mut` each clause would have to say what stands behind it afterwards.
pub fn insert(
    h: WidgetRects,
    words: &mut Words,
    numbers: &mut Numbers,
    edges: &mut Edges,
    s: &mut [WidgetRect],
    w: WidgetRect,
    move_to_top: bool,
) -> Result<Insertion, InsertRefusal>
    ensures { Inserts
        h words.old numbers.old edges.old s.old w move_to_top
        result words.new numbers.new edges.new s.new }
{
    let i = decide(h, words, numbers, edges, s.len(), w, move_to_top)?;
    settle(s, i.from, i.to, i.widget);
    Ok(i)
}
