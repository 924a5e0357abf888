// Insertions of the same widgets, round by round, each round in the same order; they stand in turn in each of some layers.
ghost use Rattle.std.specs.Prelude.{◌≤◌};
ghost use Rattle.data.specs.Limits.{max_widgets};

use crate::sums::mix;
use data::layers::LayerId;
use data::limits::MAX_WIDGETS;
use data::widget::WidgetRect;
use emath::pos2::Pos2;
use emath::rect::Rect;
use widget_index::index::Table;
use widget_index::table::{EDGES, Edges, NUMBERS, Numbers, WORDS, WidgetRects, Words};
use widget_insert::decide;
use widget_rect::questions::{empty, order};
use widget_slices::settled;

const WIDGETS: u32 = MAX_WIDGETS as u32;

#[derive(Clone, Copy)]
pub struct Step {
    pub set: WidgetRects,
    pub from: usize,
    pub to: usize,
    pub widget: WidgetRect,
}

// The ids spread over all 64 bits, as hashes do.
// Kept (plain): a number made of another, as `layer_of` below, and no conversion of a type.
fn id_of(i: u32) -> u64 {
    (i as u64 + 1) * 0x9e37_79b1 % 0x1_0000_0000 * 0x1_0000_0001
}

// Kept (plain): see `id_of`.
fn layer_of(i: u32, layers: u32) -> u32 {
    if layers == 0 {
        return 0;
    }
    i % layers
}

// Kept (plain): std's min, so that its bound is said once for six uses.
fn place(n: usize) -> usize
    ensures { result ≤ max_widgets }
{
    n.min(MAX_WIDGETS)
}

// The places of a layer.
fn span(layers: u32) -> usize {
    if layers == 0 {
        return 0;
    }
    (WIDGETS / layers) as usize
}

// Where the slots of a widget's layer start: one array holds those of all layers.
fn base(i: u32, layers: u32) -> usize
    ensures { result ≤ max_widgets }
{
    if layers == 0 {
        return 0;
    }
    place((i % layers % WIDGETS * WIDGETS / layers) as usize)
}

fn widget(i: u32, layers: u32) -> WidgetRect {
    let min = Pos2 { x: 10.0, y: 20.0 };
    let max = Pos2 { x: 30.0, y: 40.0 };
    let rect = Rect { min, max };
    let layer_id = LayerId {
        order: 1,
        id: layer_of(i, layers) as u64 + 100,
    };
    WidgetRect {
        id: id_of(i),
        parent_id: 7,
        layer_id,
        rect,
        interact_rect: rect,
        sense: 3,
        enabled: true,
        visible: true,
    }
}

// What an insertion is, by the request's number.
#[derive(Clone, Copy, PartialEq, Eq)]
pub enum Mode {
    New,
    Known,
    ToTop,
    // no insertion: the slots are copied in and out, and nothing else
    Nothing,
}

impl From<u32> for Mode {
    fn from(number: u32) -> Mode {
        match number {
            0 => Mode::New,
            2 => Mode::ToTop,
            3 => Mode::Nothing,
            _ => Mode::Known,
        }
    }
}

// The set and the slots as they are.
fn no_step(set: WidgetRects, widget: WidgetRect) -> Step {
    Step {
        set,
        from: 0,
        to: 0,
        widget,
    }
}

// The arrays beside a set.
#[derive(Drop)]
struct SetArrays {
    words: Words,
    numbers: Numbers,
    edges: Edges,
}

fn next_step(h: WidgetRects, arrays: &mut SetArrays, i: u32, layers: u32, mode: Mode) -> Step {
    let w = widget(i, layers);
    if mode == Mode::Nothing {
        return no_step(h, w);
    }
    match decide(
        h,
        &mut arrays.words,
        &mut arrays.numbers,
        &mut arrays.edges,
        span(layers),
        w,
        mode == Mode::ToTop,
    ) {
        Ok(i) => Step {
            set: i.set,
            from: i.from,
            to: i.to,
            widget: i.widget,
        },
        Err(_) => no_step(h, w),
    }
}

// A round of new widgets starts with an empty set.
fn started(h: WidgetRects, i: u32, mode: Mode) -> WidgetRects {
    if mode == Mode::New && i == 0 {
        return empty();
    }
    h
}

// The first round makes the widgets known.
fn mode_at(left: u64, times: u32, mode: Mode) -> Mode {
    if left > u64::from(times) {
        return Mode::New;
    }
    mode
}

fn following(i: u32, widgets: u32) -> u32 {
    let n = i.wrapping_add(1);
    if n < widgets {
        return n;
    }
    0
}

// Of each widget's position, and of the id that the slot there holds.
fn digest(
    table: Table<'_>,
    edges: &Edges,
    slots: [WidgetRect; MAX_WIDGETS],
    widgets: u32,
    layers: u32,
) -> u64 {
    let mut sum: u64 = 0;
    for i in 0..widgets {
        let p = order(table, edges, id_of(i)).map_or(0, |(_, p)| p);
        let at = (base(i, layers) + place(p)) % MAX_WIDGETS;
        let w = slots[at];
        sum = mix(mix(sum, p as u64), w.id);
    }
    sum
}

// `times` insertions after a round of new ones. One before that: see interacts.
pub fn run(times: u32, widgets: u32, layers: u32, mode: Mode) -> u64 {
    let mut arrays = SetArrays {
        words: [77; WORDS],
        numbers: [77; NUMBERS],
        edges: [77.0; EDGES],
    };
    let first = widget(0, 1);
    let mut slots = [first; MAX_WIDGETS];
    let one = next_step(empty(), &mut arrays, 0, layers, Mode::New);
    let mut h = one.set;
    let mut i: u32 = 0;
    for left in (1..=u64::from(times) + u64::from(widgets)).rev() {
        let m = mode_at(left, times, mode);
        let s = next_step(started(h, i, m), &mut arrays, i, layers, m);
        let at = base(i, layers);
        let after = settled(
            slots,
            place(at + place(s.from)),
            place(at + place(s.to)),
            s.widget,
        );
        slots = after;
        h = s.set;
        i = following(i, widgets);
    }
    let table = Table {
        set: h,
        words: &arrays.words,
        numbers: &arrays.numbers,
    };
    digest(table, &arrays.edges, slots, widgets, layers)
}
