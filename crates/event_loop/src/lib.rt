// A feed read for one component of the panel: it decodes only its own events, whose places are in its list.
// Floats are not tested again: a pass is surveyed before.
#![tactic(auto)]

ghost use Rattle.std.specs.Prelude.{◌≡◌, get_or};
ghost use Rattle.feed.specs.Split.{kind};

use data::kinds::KIND_UNIT;

pub mod lists;

// The kind of the event at `at`; 0 past the end.
pub fn kind_at(feed: &[u32], at: usize) -> u32
    ensures { result ≡ kind (get_or feed.now at 0) }
{
    feed.get(at).copied().unwrap_or(0) / KIND_UNIT
}
