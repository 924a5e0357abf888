// A widget set and an insertion as they cross to and from the host, which keeps the counts of the set and its three arrays.
// Kept (C): counts, and the number of a refusal beside them: C reads the records, and lends the arrays one by one.
#![tactic(auto)]

ghost use Rattle.std.specs.Prelude.{◌≡◌};
ghost use Rattle.host_widgets.specs.Insert.{insertion_of, Decides};

use data::refusal::InsertRefusal;
use data::widget::WidgetRect;
use widget_append::Insertion;
use widget_index::table::{Edges, Numbers, WidgetRects, Words};
use widget_insert::decide;

// How many widgets and layers a set has.
#[repr(C)]
#[derive(Clone, Copy)]
pub struct HostSet {
    pub widgets: usize,
    pub layers: usize,
}

// `number` 0: the widget's position in its layer, and how many widgets its layer has now. Else 01's number of the refusal, and zeros; its index is 0.
#[repr(C)]
#[derive(Clone, Copy)]
pub struct HostInserted {
    pub number: u32,
    pub position: usize,
    pub count: usize,
}

// The answer, the set after it, and what was done to the lent slice: the record at `from` went, each after it up to `to` fell by one, and `widget` came
// last.
#[repr(C)]
#[derive(Clone, Copy)]
pub struct HostInsertion {
    pub answer: HostInserted,
    pub set: HostSet,
    pub from: usize,
    pub to: usize,
    pub widget: WidgetRect,
}

// What crosses of an insertion of `w` into `before`.
fn crossed(before: HostSet, w: WidgetRect, a: Result<Insertion, InsertRefusal>) -> HostInsertion
    ensures { result ≡ insertion_of before w a }
{
    match a {
        Err(why) => HostInsertion {
            answer: HostInserted {
                number: why.number(),
                position: 0,
                count: 0,
            },
            set: before,
            from: 0,
            to: 0,
            widget: w,
        },
        Ok(i) => HostInsertion {
            answer: HostInserted {
                number: 0,
                position: i.position,
                count: i.count,
            },
            set: HostSet {
                widgets: i.set.widgets,
                layers: i.set.layers,
            },
            from: i.from,
            to: i.to,
            widget: i.widget,
        },
    }
}

// Decides an insertion with `lent` places in the slice, and does it in the set. The slice is the caller's to settle.
pub fn decided(
    set: HostSet,
    words: &mut Words,
    numbers: &mut Numbers,
    edges: &mut Edges,
    lent: usize,
    w: WidgetRect,
    top: bool,
) -> HostInsertion
    ensures { Decides «set» words.old numbers.old edges.old lent w top result words.new numbers.new edges.new }
{
    let h = WidgetRects {
        widgets: set.widgets,
        layers: set.layers,
    };
    crossed(set, w, decide(h, words, numbers, edges, lent, w, top))
}
