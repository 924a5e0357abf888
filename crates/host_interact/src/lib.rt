// What an interact is given and what it answers, as they cross to and from the host, and the interaction as the host's memory holds it.
// Kept (C): flags beside ids, and the number of a refusal: C reads the records and lends the arrays.
#![tactic(auto)]

ghost use Rattle.std.specs.Prelude.{◌≡◌};
ghost use Rattle.host_interact.specs.Held.{hit_of, interaction_at, ids_of, flags_of};
ghost use Rattle.host_interact.specs.Answers.{index_of, refusal_of, snapshot_of};

use data::refusal::InteractRefusal;
use hit_lists::Hit;
use host_answers::HostId;
use interaction_state::state::{Interaction, InteractionSnapshot};

// The places of the interaction in the two arrays.
pub const HELD: usize = 3;

const CLICK: usize = 0;

const DRAG: usize = 1;

const DRAGGED: usize = 2;

// The answer of an interact. `number` 0: taken, and the counts are those of the two id buffers. Else 01's number of the refusal, and the index where 01
// returns one, or 0; every other field is 0.
#[repr(C)]
#[derive(Clone, Copy)]
pub struct HostSnapshot {
    pub number: u32,
    pub index: usize,
    pub clicked: HostId,
    pub long_touched: HostId,
    pub drag_started: HostId,
    pub dragged: HostId,
    pub drag_stopped: HostId,
    pub hovered: usize,
    pub contains_pointer: usize,
}

// ---- read

pub fn hit(given: bool, id: u64, sense: u64) -> Option<Hit>
    ensures { result ≡ hit_of given id sense }
{
    given.then_some(Hit { id, sense })
}

pub fn interaction(ids: &[u64; HELD], flags: &[bool; HELD]) -> Interaction
    ensures { result ≡ interaction_at ids.now flags.now }
{
    Interaction {
        potential_click_id: flags[CLICK].then_some(ids[CLICK]),
        potential_drag_id: flags[DRAG].then_some(ids[DRAG]),
        dragged: flags[DRAGGED].then_some(ids[DRAGGED]),
    }
}

// ---- written

pub fn ids(n: Interaction) -> [u64; HELD]
    ensures { result ≡ ids_of n }
{
    [
        n.potential_click_id.unwrap_or(0),
        n.potential_drag_id.unwrap_or(0),
        n.dragged.unwrap_or(0),
    ]
}

pub fn flags(n: Interaction) -> [bool; HELD]
    ensures { result ≡ flags_of n }
{
    [
        n.potential_click_id.is_some(),
        n.potential_drag_id.is_some(),
        n.dragged.is_some(),
    ]
}

// ---- answers

fn index(q: InteractRefusal) -> usize
    ensures { result ≡ index_of q }
{
    match q {
        InteractRefusal::Malformed(i) | InteractRefusal::TooManyHits(i) => i,
        InteractRefusal::ShortBuffer | InteractRefusal::ZeroId | InteractRefusal::TallyFull => 0,
    }
}

impl From<InteractRefusal> for HostSnapshot {
    ghost from_gives = { λ q r. r ≡ refusal_of q };

    fn from(q: InteractRefusal) -> HostSnapshot {
        let none = HostId {
            id: 0,
            given: false,
        };
        HostSnapshot {
            number: q.number(),
            index: index(q),
            clicked: none,
            long_touched: none,
            drag_started: none,
            dragged: none,
            drag_stopped: none,
            hovered: 0,
            contains_pointer: 0,
        }
    }
}

impl From<InteractionSnapshot> for HostSnapshot {
    ghost from_gives = { λ s r. (r.number ≡ 0) × (snapshot_of r ≡ s) };

    fn from(s: InteractionSnapshot) -> HostSnapshot {
        HostSnapshot {
            number: 0,
            index: 0,
            clicked: s.clicked.into(),
            long_touched: s.long_touched.into(),
            drag_started: s.drag_started.into(),
            dragged: s.dragged.into(),
            drag_stopped: s.drag_stopped.into(),
            hovered: s.hovered,
            contains_pointer: s.contains_pointer,
        }
    }
}
