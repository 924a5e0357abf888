// What an interact is given and what it leaves, as small values.
ghost use Rattle.std.specs.Prelude.{◌≡◌};
ghost use Rattle.model.specs.Interact.{kept_if, if_changed};

// `InteractionState`, with the widget that is dragged.
#[derive(Clone, Copy, Default)]
pub struct Interaction {
    pub potential_click_id: Option<u64>,
    pub potential_drag_id: Option<u64>,
    pub dragged: Option<u64>,
}

// What an interact reads of the input, but for the pointer events.
#[derive(Clone, Copy)]
pub struct Seen {
    // `key_pressed(Key::Escape)`
    pub escape_pressed: bool,
    pub is_long_touch: bool,
    pub is_decidedly_dragging: bool,
    pub could_any_button_be_click: bool,
    pub any_down: bool,
    // `latest_pos().is_some()`
    // Kept (plain): the answer to a question: an interact reads no position
    pub has_pointer: bool,
}

// Between two steps of an interact.
#[derive(Clone, Copy, Default)]
pub struct Going {
    pub interaction: Interaction,
    pub clicked: Option<u64>,
    pub long_touched: Option<u64>,
}

// The two id sets are in the lent buffers: these are their lengths.
#[derive(Clone, Copy)]
pub struct InteractionSnapshot {
    pub clicked: Option<u64>,
    pub long_touched: Option<u64>,
    pub drag_started: Option<u64>,
    pub dragged: Option<u64>,
    pub drag_stopped: Option<u64>,
    pub hovered: usize,
    pub contains_pointer: usize,
}

// What an interact comes to, before anything is written.
#[derive(Clone, Copy)]
pub struct Outcome {
    pub clicked: Option<u64>,
    pub long_touched: Option<u64>,
    pub drag_started: Option<u64>,
    pub drag_stopped: Option<u64>,
    pub interaction: Interaction,
}

// A taken interact: its answer, and what is kept for the next one.
#[derive(Clone, Copy)]
pub struct Answer {
    pub snapshot: InteractionSnapshot,
    pub interaction: Interaction,
    pub tally: u32,
}

#[tactic(auto, unfolding(model::specs::Interact::kept_if))]
pub fn kept_if(keep: bool, id: Option<u64>) -> Option<u64>
    ensures { result ≡ kept_if keep id }
{
    // Kept (plain): an if: `filter` would take a closure that reads no id
    if keep { id } else { None }
}

// `drag_changed.then_some(..)`
#[tactic(auto, using(crate::proofs::Looked::option_eq_is), unfolding(model::specs::Interact::if_changed))]
pub fn if_changed(before: Option<u64>, after: Option<u64>, id: Option<u64>) -> Option<u64>
    ensures { result ≡ if_changed before after id }
{
    if after == before { None } else { id }
}
