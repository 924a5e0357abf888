// `interact`: all checks first, then the answer, then the writes.
ghost use Rattle.std.specs.Prelude.{◌≡◌, false, ◌&&◌, List, ◌+◌, ◌≤◌, leb, Float, length, None};
ghost use Rattle.data.specs.Limits.{max_tally, max_hits, id_places};
ghost use Rattle.hit_lists.specs.Hits.{hits_of};
ghost use Rattle.hit_refusals.specs.Refusals.{input};
ghost use Rattle.pointer_events.specs.Events.{events};
ghost use Rattle.model.specs.Pass.{Panel};
ghost use Rattle.model.specs.Interact.{InteractInput, is_some, one_if, interact_seen, interact_by};
ghost use Rattle.interaction_state.specs.View.{interaction_of};
ghost use Rattle.interaction_state.specs.Lookup.{lookup};
ghost use Rattle.interaction_events.specs.View.{seen_of, Looks};
ghost use Rattle.interaction.specs.Post.{Answers, Answered, Interacts};

use data::limits::MAX_TALLY;
use data::refusal::InteractRefusal;
use hit_lists::WidgetHits;
use hit_refusals::input_refusal;
use id_lists::{contains_pointer, hovered};
use interaction_events::walked;
use interaction_state::drag::interaction_after;
use interaction_state::state::{
    Answer, Interaction, InteractionSnapshot, Outcome, Seen, if_changed,
};
use pointer_events::CODES;
use widget_index::index::Table;

// The snapshot but for the two id sets.
fn outcome(
    view: Seen,
    codes: &[u32; CODES],
    count: usize,
    table: Table<'_>,
    hits: WidgetHits<'_>,
    s: Interaction,
) -> Outcome
    ensures { (positions : List Float) (x : InteractInput) → Looks x table.entry.set table.entry.words.now table.entry.numbers.now hits.entry.click hits.entry.drag
        → x.contains_pointer ≡ hits_of hits.entry.contains_pointer.now → Answers (seen_of view (events codes.now positions count)) x (interaction_of s) result }
{
    let g = walked(view, codes, count, hits, table, s);
    let after = interaction_after(view, hits, table, g.interaction);
    let before = s.dragged;
    let dragged = after.dragged;
    Outcome {
        clicked: g.clicked,
        long_touched: g.long_touched,
        drag_started: if_changed(before, dragged, dragged),
        drag_stopped: if_changed(before, dragged, before),
        interaction: after,
    }
}

fn full(tally: u32, started: Option<u64>) -> bool
    ensures { result ≡ (is_some started && leb max_tally tally) }
{
    started.is_some() & (MAX_TALLY <= tally)
}

// A start is counted.
fn tally_after(tally: u32, started: Option<u64>) -> u32
    requires { (is_some started && leb max_tally tally) ≡ false }
    ensures { result ≡ tally + one_if started }
{
    tally + u32::from(started.is_some())
}

// The id sets are written, and the answer made.
fn answered(
    o: Outcome,
    tally: u32,
    hits: WidgetHits<'_>,
    top: &mut [u64],
    all: &mut [u64],
) -> Answer
    requires { (3 ≤ length top.old) × (2 + length (hits_of hits.contains_pointer.now) ≤ length top.old) × (2 + length (hits_of hits.contains_pointer.now) ≤ length all.old) }
    ensures { Answered o tally hits.entry.close.now hits.entry.contains_pointer.now hits.entry.click hits.entry.drag top.old all.old result top.new all.new }
{
    let dragged = o.interaction.dragged;
    let snapshot = InteractionSnapshot {
        clicked: o.clicked,
        long_touched: o.long_touched,
        drag_started: o.drag_started,
        dragged,
        drag_stopped: o.drag_stopped,
        hovered: hovered(hits, o.clicked, dragged, o.long_touched, top),
        contains_pointer: contains_pointer(hits, all),
    };
    Answer {
        snapshot,
        interaction: o.interaction,
        tally,
    }
}

// No entry and no buffer is refused: 10, or taken.
// Kept (plain): the id buffers are lent one by one: of a struct that holds a `&mut` each clause would have to say what stands behind it afterwards. The
// codes come whole with their count, by which `pointer_events` says what the events are: a slice cut off before would need that said once more
fn unless_full(
    view: Seen,
    codes: &[u32; CODES],
    count: usize,
    table: Table<'_>,
    s: Interaction,
    tally: u32,
    hits: WidgetHits<'_>,
    top: &mut [u64],
    all: &mut [u64],
) -> Result<Answer, InteractRefusal>
    requires { (id_places ≤ length top.old) × (id_places ≤ length all.old) × (length (hits_of hits.contains_pointer.now) ≤ max_hits) }
    ensures { (positions edges : List Float) (p : Panel) → p.interaction ≡ interaction_of s → p.tally ≡ tally
        → Interacts p
        (interact_by None (seen_of view (events codes.now positions count)) p
        (input (lookup table.entry.set table.entry.words.now table.entry.numbers.now edges)
        hits.entry.close.now hits.entry.contains_pointer.now hits.entry.click hits.entry.drag (length top.old) (length all.old)))
        result top.old all.old top.new all.new }
{
    let o = outcome(view, codes, count, table, hits, s);
    if full(tally, o.drag_started) {
        return Err(InteractRefusal::TallyFull);
    }
    let n = tally_after(tally, o.drag_started);
    Ok(answered(o, n, hits, top, all))
}

// `interact` of whatever is seen of the input, of every panel with this interaction state and tally: refused, or taken as the model takes it. `top` gets
// the hovered ids, `all` those that contain the pointer.
// Kept (plain): the id buffers are lent one by one: of a struct that holds a `&mut` each clause would have to say what stands behind it afterwards. The
// codes come whole with their count, by which `pointer_events` says what the events are: a slice cut off before would need that said once more
pub fn interact(
    view: Seen,
    codes: &[u32; CODES],
    count: usize,
    table: Table<'_>,
    s: Interaction,
    tally: u32,
    hits: WidgetHits<'_>,
    top: &mut [u64],
    all: &mut [u64],
) -> Result<Answer, InteractRefusal>
    ensures { (positions edges : List Float) (p : Panel) → p.interaction ≡ interaction_of s → p.tally ≡ tally
        → Interacts p
        (interact_seen (seen_of view (events codes.now positions count)) p
        (input (lookup table.entry.set table.entry.words.now table.entry.numbers.now edges)
        hits.entry.close.now hits.entry.contains_pointer.now hits.entry.click hits.entry.drag (length top.old) (length all.old)))
        result top.old all.old top.new all.new }
{
    input_refusal(hits, top.len(), all.len())?;
    unless_full(view, codes, count, table, s, tally, hits, top, all)
}
