// Interacts while the pointer hovers, each from the state that the last one left. An entry's id and sense are two words.

use crate::sums::mix;
use data::limits::{ID_PLACES, MAX_HITS};
use data::refusal::InteractRefusal;
use hit_lists::{Hit, WidgetHits};
use interaction::interact::interact;
use interaction_state::state::{Answer, Interaction, Seen};
use pointer_events::CODES;
use trace_words::request::bit;
use widget_index::index::Table;
use widget_index::table::{NUMBERS, WORDS, WidgetRects};

// The words of a list of hits: two for each.
const HITS: usize = 2 * MAX_HITS;

#[derive(Clone, Copy)]
pub struct Going {
    pub interaction: Interaction,
    pub tally: u32,
    pub sum: u64,
}

// Kept (plain): a number made of another, and no conversion of a type.
fn id_of(w: u32) -> u64 {
    u64::from(w) * 0x1_0000_0001
}

// Entry `n` of the words, counted from 1; 0 is none.
fn hit(words: &[u32], n: u32) -> Option<Hit> {
    let at = n.checked_sub(1)? as usize * 2;
    Some(Hit {
        id: id_of(*words.get(at)?),
        sense: u64::from(*words.get(at + 1)?),
    })
}

// As many as there is room for.
fn fill(list: &mut [u64; HITS], words: &[u32]) {
    for (to, entry) in list.chunks_exact_mut(2).zip(words.chunks_exact(2)) {
        to[0] = id_of(entry[0]);
        to[1] = u64::from(entry[1]);
    }
}

fn answered(sum: u64, a: Answer) -> Going {
    Going {
        interaction: a.interaction,
        tally: a.tally,
        sum: mix(
            mix(sum, a.snapshot.hovered as u64),
            a.snapshot.contains_pointer as u64,
        ),
    }
}

fn next(g: Going, out: Result<Answer, InteractRefusal>) -> Going {
    match out {
        Err(r) => Going {
            sum: mix(g.sum, u64::from(r.number())),
            ..g
        },
        Ok(a) => answered(g.sum, a),
    }
}

// What the interact is told of the input, in the low bits of a number: 32 while the pointer hovers.
// Kept (plain): here and below no From: the number is a request's word, and the type is of another crate.
fn seen_of(n: u32) -> Seen {
    Seen {
        escape_pressed: bit(n, 1),
        is_long_touch: bit(n, 2),
        is_decidedly_dragging: bit(n, 4),
        could_any_button_be_click: bit(n, 8),
        any_down: bit(n, 16),
        has_pointer: bit(n, 32),
    }
}

// In the further bits: the number of pointer events, all of them moves, and of widgets.
// Kept (plain): see `seen_of`.
fn count_of(n: u32) -> usize {
    (n / 64 % 64) as usize
}

// Kept (plain): see `seen_of`.
fn set_of(n: u32) -> WidgetRects {
    WidgetRects {
        widgets: (n / 4096) as usize,
        layers: 1,
    }
}

fn start() -> Going {
    Going {
        interaction: Interaction::default(),
        tally: 0,
        sum: 0,
    }
}

fn set_sense(list: &mut [u64; HITS], left: u32) {
    list[1] = (left % 2) as u64;
}

fn ends(g: Going, top: &[u64; ID_PLACES], all: &[u64; ID_PLACES]) -> u64 {
    mix(mix(g.sum, top[1]), all[2])
}

fn call(
    g: Going,
    told: u32,
    codes: &[u32; CODES],
    table: Table<'_>,
    hits: WidgetHits<'_>,
    top: &mut [u64],
    all: &mut [u64],
) -> Going {
    let out = interact(
        seen_of(told),
        codes,
        count_of(told),
        table,
        g.interaction,
        g.tally,
        hits,
        top,
        all,
    );
    next(g, out)
}

// The first entry's sense changes from call to call, so that no call is the same as the last. One call before the others: what is called at two places
// stays a function of its own, whose stack can be read off.
pub fn run(times: u32, given: &[u32], click: u32, drag: u32, told: u32) -> u64 {
    let mut close = [0u64; HITS];
    let mut within = [0u64; HITS];
    let mut top = [0u64; ID_PLACES];
    let mut all = [0u64; ID_PLACES];
    let codes = [0u32; CODES];
    let words = [0u64; WORDS];
    let numbers = [0u32; NUMBERS];
    let n = MAX_HITS.min(given.len() / 2) * 2;
    fill(&mut close, given);
    fill(&mut within, given);
    let click = hit(given, click);
    let drag = hit(given, drag);
    let table = Table {
        set: set_of(told),
        words: &words,
        numbers: &numbers,
    };
    let hits = WidgetHits {
        close: &close[..n],
        contains_pointer: &within[..n],
        click,
        drag,
    };
    let mut g = call(start(), told, &codes, table, hits, &mut top, &mut all);
    for left in (1..=times).rev() {
        set_sense(&mut close, left);
        set_sense(&mut within, left);
        let hits = WidgetHits {
            close: &close[..n],
            contains_pointer: &within[..n],
            click,
            drag,
        };
        g = call(g, told, &codes, table, hits, &mut top, &mut all);
    }
    ends(g, &top, &all)
}
