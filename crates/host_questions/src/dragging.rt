// What the interacts have left.
// Kept (C): C calls each question by its own name and lends the arrays one by one: questions alike in their steps stand apart.
ghost use Rattle.host_answers.specs.Answers.{id_of};
ghost use Rattle.host_interact.specs.Held.{interaction_at};
ghost use Rattle.std.specs.Prelude.{◌≡◌, get_or};
ghost use Rattle.model.specs.Pass.{Panel};
ghost use Rattle.model.specs.Questions as ask;
ghost use Rattle.model.specs.Questions.{settled, widget};
ghost use Rattle.panel.specs.Answers.{OfInteraction};

use host_answers::HostId;
use host_interact::HELD;

#[unsafe(no_mangle)]
pub extern "C" fn fivvarul_dragged(held_ids: &[u64; HELD], held_flags: &[bool; HELD]) -> HostId
    ensures { OfInteraction (settled ask.dragged) (interaction_at held_ids.now held_flags.now) (widget (id_of result)) }
{
    let interaction = host_interact::interaction(held_ids, held_flags);
    panel::dragging::dragged(interaction).into()
}

#[unsafe(no_mangle)]
pub extern "C" fn fivvarul_potential_click_id(
    held_ids: &[u64; HELD],
    held_flags: &[bool; HELD],
) -> HostId
    ensures { OfInteraction (settled ask.potential_click_id) (interaction_at held_ids.now held_flags.now) (widget (id_of result)) }
{
    let interaction = host_interact::interaction(held_ids, held_flags);
    panel::dragging::potential_click_id(interaction).into()
}

#[unsafe(no_mangle)]
pub extern "C" fn fivvarul_potential_drag_id(
    held_ids: &[u64; HELD],
    held_flags: &[bool; HELD],
) -> HostId
    ensures { OfInteraction (settled ask.potential_drag_id) (interaction_at held_ids.now held_flags.now) (widget (id_of result)) }
{
    let interaction = host_interact::interaction(held_ids, held_flags);
    panel::dragging::potential_drag_id(interaction).into()
}

// How many drags were started.
#[unsafe(no_mangle)]
pub extern "C" fn fivvarul_tally(tally: &[u32; 1]) -> u32
    ensures { (p : Panel) → p.tally ≡ get_or tally.now 0 0 → ask.ask ask.tally p ≡ ask.count result }
{
    tally[0]
}
