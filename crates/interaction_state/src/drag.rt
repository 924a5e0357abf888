// Whom an interact leaves dragged, and what is kept for the next one.
ghost use Rattle.std.specs.Prelude.{◌≡◌, List, Float, Some};
ghost use Rattle.hit_lists.specs.Hits.{hits_of, view};
ghost use Rattle.model.specs.Types.{WidgetRect};
ghost use Rattle.model.specs.Interact.{InteractInput, get, could_still_be_clicked, is_dragged, new_drag, dragged_after};
ghost use Rattle.interaction_state.specs.View.{interaction_of, kept_after};
ghost use Rattle.interaction_state.specs.Lookup.{lookup, found_of};

use crate::lookup::{Found, look_up};
use crate::state::{Interaction, Seen, kept_if};
use data::sense::{senses_click, senses_drag};
use hit_lists::{WidgetHits, has_hit, is_hit};
use widget_index::index::Table;

#[tactic(auto, unfolding(model::specs::Interact::could_still_be_clicked))]
fn could_still_be_clicked(hits: WidgetHits<'_>, id: u64) -> bool
    ensures { (x : InteractInput) → x.contains_pointer ≡ hits_of hits.entry.contains_pointer.now → x.click ≡ view hits.entry.click → result ≡ could_still_be_clicked x id }
{
    has_hit(hits.contains_pointer, id) | is_hit(hits.click, id)
}

// A widget that senses clicks too is dragged once that is decided.
fn is_dragged(f: Found, dragging: bool, hits: WidgetHits<'_>, id: u64) -> bool
    ensures { (x : InteractInput) → x.contains_pointer ≡ hits_of hits.entry.contains_pointer.now → x.click ≡ view hits.entry.click
        → (w : WidgetRect) → w.id ≡ id → found_of (Some w) ≡ Some f → result ≡ is_dragged x dragging w }
{
    if !f.enabled {
        return false;
    }
    if !senses_drag(f.sense) {
        return false;
    }
    if !senses_click(f.sense) {
        return true;
    }
    if dragging {
        return true;
    }
    !could_still_be_clicked(hits, id)
}

fn new_drag(dragging: bool, hits: WidgetHits<'_>, table: Table<'_>, id: Option<u64>) -> Option<u64>
    ensures { (x : InteractInput) (edges : List Float) → x.contains_pointer ≡ hits_of hits.entry.contains_pointer.now → x.click ≡ view hits.entry.click
        → result ≡ new_drag x dragging (get id (lookup table.entry.set table.entry.words.now table.entry.numbers.now edges)) }
{
    let d = id?;
    let f = look_up(table, d)?;
    is_dragged(f, dragging, hits, d).then_some(d)
}

// One that is dragged stays so.
fn dragged_after(
    dragging: bool,
    hits: WidgetHits<'_>,
    table: Table<'_>,
    s: Interaction,
) -> Option<u64>
    ensures { (x : InteractInput) (edges : List Float) → x.widgets ≡ lookup table.entry.set table.entry.words.now table.entry.numbers.now edges
        → x.contains_pointer ≡ hits_of hits.entry.contains_pointer.now → x.click ≡ view hits.entry.click → result ≡ dragged_after x dragging (interaction_of s) }
{
    // Kept (proof): a match: tried, `or_else`: the closure's contract does not say what `new_drag` ensures of every input. `or` would ask the table while one
    // is dragged, too
    match s.dragged {
        Some(d) => Some(d),
        None => new_drag(dragging, hits, table, s.potential_drag_id),
    }
}

// The potential ids stay while a button is down and the pointer is there, the click's while it could still be one.
pub fn interaction_after(
    seen: Seen,
    hits: WidgetHits<'_>,
    table: Table<'_>,
    s: Interaction,
) -> Interaction
    ensures { (x : InteractInput) (edges : List Float) → x.widgets ≡ lookup table.entry.set table.entry.words.now table.entry.numbers.now edges
        → x.contains_pointer ≡ hits_of hits.entry.contains_pointer.now → x.click ≡ view hits.entry.click → interaction_of result ≡ kept_after seen x (interaction_of s) }
{
    let dragged = dragged_after(seen.is_decidedly_dragging, hits, table, s);
    Interaction {
        potential_click_id: kept_if(
            seen.could_any_button_be_click & seen.any_down & seen.has_pointer,
            s.potential_click_id,
        ),
        potential_drag_id: kept_if(seen.any_down & seen.has_pointer, s.potential_drag_id),
        dragged,
    }
}
