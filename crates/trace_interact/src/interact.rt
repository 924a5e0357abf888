// INTERACT: the hit lists of a request, and the words of the answer.
ghost use Rattle.std.specs.Prelude.{◌<◌};

use data::refusal::InteractRefusal;
use hit_lists::{Hit, WORDS, WidgetHits};
use interaction_state::state::InteractionSnapshot;
use panel::state::{Panel, after_interact};
use trace_state::lent::Arrays;
use trace_words::reply::{Reply, malformed, refused_by, taken};
use trace_words::request::{at, id};
use trace_words::words::Answer;
use widget_index::index::Table;

// The panel after an interact, and the answer.
// Kept (plain): no Result: a refused interact has both too
#[derive(Clone, Copy)]
pub struct Stepped {
    pub panel: Panel,
    pub reply: Reply,
}

const HEAD: usize = 5;

// More than the 65th entry of a list is never read, nor more than 66 places of an id buffer.
const ENTRIES: usize = 66;

const LIST: usize = 132;

const IDS: usize = 80;

// Kept (plain): no method of an Option: a bit of the request's word
fn is_given(w: &[u32], bit: u32) -> bool {
    trace_words::request::bit(at(w, 4), bit)
}

// Five words, then three for each entry.
fn is_well_formed(w: &[u32]) -> bool {
    let given = usize::from(is_given(w, 1)) + usize::from(is_given(w, 2));
    let entries = at(w, 2) as usize + at(w, 3) as usize + given;
    w.len() == HEAD + entries * 3
}

// An entry of the lists or, behind them, one that is given.
fn entry(w: &[u32], i: usize) -> Hit
    requires { i < 17179869184 }
{
    let j = HEAD + i * 3;
    Hit {
        id: id(w, j, j + 1),
        sense: u64::from(at(w, j + 2)),
    }
}

// The list of `n` entries from entry `first` on, two words each.
fn list(w: &[u32], first: usize, n: usize) -> [u64; LIST]
    requires { first < 4294967296 }
{
    let mut words = [0u64; LIST];
    for (i, two) in words
        .chunks_exact_mut(WORDS)
        .enumerate()
        .take(n.min(ENTRIES))
    {
        let hit = entry(w, first + i);
        two[0] = hit.id;
        two[1] = hit.sense;
    }
    words
}

fn hit(w: &[u32], is_given: bool, i: usize) -> Option<Hit>
    requires { i < 17179869184 }
{
    if is_given { Some(entry(w, i)) } else { None }
}

// The number of ids, and the ids.
fn ids(a: &mut Answer, list: &[u64], many: usize) {
    a.count(many);
    for d in list.iter().take(many) {
        a.id(*d);
    }
}

fn snapshot(a: &mut Answer, s: InteractionSnapshot, tally: u32, top: &[u64], all: &[u64]) {
    a.maybe_id(s.clicked);
    a.maybe_id(s.long_touched);
    a.maybe_id(s.drag_started);
    a.maybe_id(s.dragged);
    a.maybe_id(s.drag_stopped);
    ids(a, top, s.hovered);
    ids(a, all, s.contains_pointer);
    a.word(tally);
}

// Kept (plain): no conversion: it writes the answer's words too
fn reply_of(
    a: &mut Answer,
    out: Result<interaction_state::state::Answer, InteractRefusal>,
    top: &[u64],
    all: &[u64],
) -> Reply {
    match out {
        Err(why) => refused_by(a, why),
        Ok(x) => {
            snapshot(a, x.snapshot, x.tally, top, all);
            taken(a.len())
        }
    }
}

fn interact_with(
    a: &mut Answer,
    p: Panel,
    lent: &Arrays,
    table: Table<'_>,
    hits: WidgetHits<'_>,
    top: &mut [u64],
    all: &mut [u64],
) -> Stepped {
    let out = panel::interact::interact(
        p.input.clock,
        p.input.screen,
        p.input.pointer,
        p.devices,
        &lent.codes,
        &lent.presses,
        p.interaction,
        p.tally,
        table.set,
        table.words,
        table.numbers,
        hits.close,
        hits.contains_pointer,
        hits.click,
        hits.drag,
        top,
        all,
    );
    Stepped {
        panel: after_interact(p, out),
        reply: reply_of(a, out, top, all),
    }
}

// As many entries and places as the request says.
pub fn interact(a: &mut Answer, p: Panel, lent: &Arrays, table: Table<'_>, w: &[u32]) -> Stepped {
    if !is_well_formed(w) {
        return Stepped {
            panel: p,
            reply: malformed(),
        };
    }
    let (first, second) = (at(w, 2) as usize, at(w, 3) as usize);
    let close = list(w, 0, first);
    let within = list(w, first, second);
    let click_given = is_given(w, 1);
    let hits = WidgetHits {
        close: &close[..LIST.min(first * WORDS)],
        contains_pointer: &within[..LIST.min(second * WORDS)],
        click: hit(w, click_given, first + second),
        drag: hit(w, is_given(w, 2), first + second + usize::from(click_given)),
    };
    let mut top = [0u64; IDS];
    let mut all = [0u64; IDS];
    let top_places = IDS.min(at(w, 0) as usize);
    let all_places = IDS.min(at(w, 1) as usize);
    interact_with(
        a,
        p,
        lent,
        table,
        hits,
        &mut top[..top_places],
        &mut all[..all_places],
    )
}
