// What the interacts have left.
ghost use Rattle.model.specs.Questions.{settled, count, widget};
ghost use Rattle.model.specs.Questions as ask;
ghost use Rattle.panel.specs.Answers.{OfInteraction, OfTally};

use crate::state::Panel;
use interaction_state::state::Interaction;

pub fn dragged(interaction: Interaction) -> Option<u64>
    ensures { OfInteraction (settled ask.dragged) interaction (widget result) }
{
    interaction.dragged
}

pub fn potential_click_id(interaction: Interaction) -> Option<u64>
    ensures { OfInteraction (settled ask.potential_click_id) interaction (widget result) }
{
    interaction.potential_click_id
}

pub fn potential_drag_id(interaction: Interaction) -> Option<u64>
    ensures { OfInteraction (settled ask.potential_drag_id) interaction (widget result) }
{
    interaction.potential_drag_id
}

// How many drags were started.
pub fn tally(panel: Panel) -> u32
    ensures { OfTally ask.tally panel (count result) }
{
    panel.tally
}
