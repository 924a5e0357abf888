// What an interact asks of the widget set: is an id's widget known, is it enabled, what does it sense.
ghost use Rattle.std.specs.Prelude.{◌≡◌, List, Float};
ghost use Rattle.model.specs.Interact.{get, widget_id};
ghost use Rattle.interaction_state.specs.Lookup.{lookup, found_of};

use widget_index::index::Table;
use widget_index::table::TRAITS;

#[derive(Clone, Copy)]
pub struct Found {
    pub enabled: bool,
    pub sense: u32,
}

pub fn look_up(table: Table<'_>, id: u64) -> Option<Found>
    ensures { (edges : List Float) → result ≡ found_of (lookup table.entry.set table.entry.words.now table.entry.numbers.now edges id) }
{
    let s = table.find(id)?;
    let traits = table.numbers[TRAITS + s];
    Some(Found {
        enabled: traits / 2 % 2 == 1,
        sense: traits / 4,
    })
}

// The id, if its widget is known.
pub fn known_id(table: Table<'_>, id: Option<u64>) -> Option<u64>
    ensures { (edges : List Float) → result ≡ widget_id (get id (lookup table.entry.set table.entry.words.now table.entry.numbers.now edges)) }
{
    let d = id?;
    look_up(table, d)?;
    Some(d)
}
