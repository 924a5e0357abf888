// INSERT: the widget goes into the set, and the lent slice follows.
ghost use Rattle.std.specs.Prelude.{◌≡◌};
ghost use Rattle.trace_widgets.specs.Insert as Insert;

use crate::lent::{SetArrays, gathered, given, scatter};
use data::limits::MAX_WIDGETS;
use data::widget::WidgetRect;
use trace_words::records::Lent;
use trace_words::reply::{Reply, malformed, refused_by, taken};
use trace_words::request::{INSERT_WORDS, WIDGET_WORDS, at, bit, widget};
use trace_words::words::Answer;
use widget_append::Insertion;
use widget_index::index::Table;
use widget_index::table::{PLACES, WidgetRects, count_at, layer_of};
use widget_insert::decide;
use widget_slices::settled;

// The set after an insertion, and the answer.
// Kept (plain): no Result: a refused insertion answers with a reply and a set too
#[derive(Clone, Copy)]
pub struct Placed {
    pub set: WidgetRects,
    pub reply: Reply,
}

// 18 words, then 17 for each record given.
fn is_well_formed(w: &[u32]) -> bool {
    if w.len() < INSERT_WORDS {
        return false;
    }
    (w.len() - INSERT_WORDS) % WIDGET_WORDS == 0
}

// The widgets of the layer as the caller lends them.
fn slice(table: Table<'_>, lent: &Lent, w: &[u32], new: WidgetRect) -> [WidgetRect; MAX_WIDGETS] {
    let blank = [new; MAX_WIDGETS];
    match table.find_layer(new.layer_id) {
        None => blank,
        Some(l) => {
            let a = gathered(blank, table, lent, l);
            if w.len() <= INSERT_WORDS {
                return a;
            }
            given(a, count_at(table.numbers, l), &w[INSERT_WORDS..])
        }
    }
}

// The slice after a taken insertion goes back to where it is kept.
fn follow(table: Table<'_>, lent: &mut Lent, a: [WidgetRect; MAX_WIDGETS], i: Insertion) {
    if i.to > MAX_WIDGETS {
        return;
    }
    if let Some(s) = table.find(i.widget.id) {
        let b = settled(a, i.from, i.to, i.widget);
        scatter(lent, table, b, layer_of(table.numbers[PLACES + s]));
    }
}

fn answered(a: &mut Answer, i: Insertion) -> Reply
    ensures { result.code ≡ 0 }
{
    a.count(i.position);
    a.count(i.count);
    a.widget(i.widget);
    taken(a.len())
}

fn insert_into(a: &mut Answer, h: WidgetRects, kept: &mut SetArrays, w: &[u32]) -> Placed
    ensures { Insert.Insertion h kept.old result kept.new }
{
    let new = widget(w);
    let table = Table {
        set: h,
        words: &kept.words,
        numbers: &kept.numbers,
    };
    let before = slice(table, &kept.lent, w, new);
    let many = at(w, 17) as usize;
    match decide(
        h,
        &mut kept.words,
        &mut kept.numbers,
        &mut kept.edges,
        many,
        new,
        bit(at(w, 16), 4),
    ) {
        Err(why) => Placed {
            set: h,
            reply: refused_by(a, why),
        },
        Ok(i) => {
            let table = Table {
                set: i.set,
                words: &kept.words,
                numbers: &kept.numbers,
            };
            follow(table, &mut kept.lent, before, i);
            Placed {
                set: i.set,
                reply: answered(a, i),
            }
        }
    }
}

pub fn insert(a: &mut Answer, h: WidgetRects, kept: &mut SetArrays, w: &[u32]) -> Placed
    ensures { Insert.Insertion h kept.old result kept.new }
{
    if !is_well_formed(w) {
        return Placed {
            set: h,
            reply: malformed(),
        };
    }
    insert_into(a, h, kept, w)
}
