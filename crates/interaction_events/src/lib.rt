// InteractionState of egui's interaction.rs: what the input does to the potential ids, before the drag is decided.
#![tactic(auto)]

ghost use Rattle.std.specs.Prelude.{◌≡◌, Bool, true, false, List, ℕ, Float, Option, None, Some};
ghost use Rattle.hit_lists.specs.Hits.{view};
ghost use Rattle.pointer_events.specs.Events.{kind_of, events};
ghost use Rattle.model.specs.Types.{Pos2, PointerButton, PointerEvent, Click, Pressed, Released, WidgetRect};
ghost use Rattle.model.specs.Interact.{InteractInput, forget_gone_click, abort_if, long_touch_if, pointer_event, pointer_events, walked};
ghost use Rattle.interaction_state.specs.View.{interaction_of};
ghost use Rattle.interaction_state.specs.Lookup.{lookup};
ghost use Rattle.interaction_events.specs.View.{going_of, seen_of, Looks};

use hit_lists::WidgetHits;
use id_lists::hit_id;
use interaction_state::lookup::known_id;
use interaction_state::state::{Going, Interaction, Seen};
use pointer_events::{CODES, EventKind, counted, kind_at};
use widget_index::index::Table;

// The widget that might be clicked is gone, and so is the click. One that might be dragged, or is dragged, stays.
fn forget_gone_click(table: Table<'_>, s: Interaction) -> Interaction
    ensures { (edges : List Float) → interaction_of result ≡ forget_gone_click (lookup table.entry.set table.entry.words.now table.entry.numbers.now edges) (interaction_of s) }
{
    Interaction {
        potential_click_id: known_id(table, s.potential_click_id),
        ..s
    }
}

// "Abort dragging on escape"
#[tactic(auto, unfolding(model::specs::Interact::abort_if, interaction_state::specs::View::interaction_of))]
fn abort_if(escape: bool, s: Interaction) -> Interaction
    ensures { interaction_of result ≡ abort_if escape (interaction_of s) }
{
    if escape {
        return Interaction {
            potential_click_id: s.potential_click_id,
            ..Interaction::default()
        };
    }
    s
}

#[tactic(auto, unfolding(model::specs::Interact::long_touch_if, crate::specs::View::going_of))]
fn going(s: Interaction) -> Going
    ensures { (widgets : ℕ → Option WidgetRect) → going_of result ≡ long_touch_if false widgets (interaction_of s) }
{
    Going {
        interaction: s,
        ..Going::default()
    }
}

// Press-and-hold for the context menu, on the widget that might be clicked.
fn long_touch_if(long: bool, table: Table<'_>, s: Interaction) -> Going
    ensures { (edges : List Float) → going_of result ≡ long_touch_if long (lookup table.entry.set table.entry.words.now table.entry.numbers.now edges) (interaction_of s) }
{
    if !long {
        return going(s);
    }
    let touched = known_id(table, s.potential_click_id);
    if touched.is_some() {
        return Going {
            interaction: Interaction::default(),
            clicked: touched,
            long_touched: touched,
        };
    }
    going(s)
}

// A press may name what is clicked or dragged.
fn pressed(hits: WidgetHits<'_>, g: Going) -> Going
    ensures { (x : InteractInput) → x.click ≡ view hits.entry.click → x.drag ≡ view hits.entry.drag
        → (dragging : Bool) (v : Pos2) (b : PointerButton) → going_of result ≡ pointer_event x dragging (Pressed v b) (going_of g) }
{
    let s = g.interaction;
    Going {
        interaction: Interaction {
            potential_click_id: s.potential_click_id.or(hit_id(hits.click)),
            potential_drag_id: s.potential_drag_id.or(hit_id(hits.drag)),
            ..s
        },
        ..g
    }
}

// A release ends both.
#[tactic(auto, unfolding(model::specs::Interact::pointer_event, model::specs::Interact::has_click, model::specs::Pass::no_interaction, interaction_state::specs::View::interaction_of, crate::specs::View::going_of))]
fn released(g: Going) -> Going
    ensures { (x : InteractInput) (dragging : Bool) (b : PointerButton) → going_of result ≡ pointer_event x dragging (Released None b) (going_of g) }
{
    Going {
        interaction: Interaction::default(),
        ..g
    }
}

// A release that is a click, on the widget that might be clicked.
fn clicked(table: Table<'_>, g: Going) -> Going
    ensures { (x : InteractInput) (edges : List Float) → x.widgets ≡ lookup table.entry.set table.entry.words.now table.entry.numbers.now edges
        → (k : Click) (b : PointerButton) → going_of result ≡ pointer_event x false (Released (Some k) b) (going_of g) }
{
    let known = known_id(table, g.interaction.potential_click_id);
    Going {
        interaction: Interaction::default(),
        clicked: known.or(g.clicked),
        ..g
    }
}

// A release that is a click is none while something is dragged.
fn pointer_event(
    kind: EventKind,
    dragging: bool,
    hits: WidgetHits<'_>,
    table: Table<'_>,
    g: Going,
) -> Going
    ensures { (x : InteractInput) → Looks x table.entry.set table.entry.words.now table.entry.numbers.now hits.entry.click hits.entry.drag
        → (e : PointerEvent) → kind_of e ≡ kind → going_of result ≡ pointer_event x dragging e (going_of g) }
{
    match kind {
        EventKind::Moved => g,
        EventKind::Pressed(_) => pressed(hits, g),
        EventKind::Released(click, _) => {
            if click.is_some() & !dragging {
                clicked(table, g)
            } else {
                released(g)
            }
        }
    }
}

fn pointer_events(
    codes: &[u32; CODES],
    count: usize,
    dragging: bool,
    hits: WidgetHits<'_>,
    table: Table<'_>,
    g: Going,
) -> Going
    ensures { (positions : List Float) (x : InteractInput) → Looks x table.entry.set table.entry.words.now table.entry.numbers.now hits.entry.click hits.entry.drag
        → going_of result ≡ pointer_events x dragging (events codes.now positions count) (going_of g) }
{
    // Kept (plain): by index: the contract finds an event by its number in the codes and in the positions
    let mut h = g;
    for i in 0..counted(count) {
        h = pointer_event(kind_at(codes, i), dragging, hits, table, h);
    }
    h
}

// All that comes before the drag is decided.
pub fn walked(
    seen: Seen,
    codes: &[u32; CODES],
    count: usize,
    hits: WidgetHits<'_>,
    table: Table<'_>,
    s: Interaction,
) -> Going
    ensures { (positions : List Float) (x : InteractInput) → Looks x table.entry.set table.entry.words.now table.entry.numbers.now hits.entry.click hits.entry.drag
        → going_of result ≡ walked (seen_of seen (events codes.now positions count)) x (interaction_of s) }
{
    let known = forget_gone_click(table, s);
    let kept = abort_if(seen.escape_pressed, known);
    let g = long_touch_if(seen.is_long_touch, table, kept);
    pointer_events(codes, count, seen.is_decidedly_dragging, hits, table, g)
}
