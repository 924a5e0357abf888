// The places of a feed's events, a list for each component that reads some of them.
ghost use Rattle.std.specs.Prelude.{ℕ, ◌≡◌, ◌≤◌, ◌<◌, [], get_or, length};
ghost use Rattle.data.specs.Limits.{max_events};
ghost use Rattle.event_loop.specs.Count.{list_count};

use data::limits::MAX_EVENTS;

// Who reads an event.
#[derive(Clone, Copy, PartialEq, Eq)]
pub enum Reader {
    Nobody,
    Pointer,
    Keys,
    Sums,
    Touches,
    Wheel,
}

impl Reader {
    ghost use Rattle.std.specs.Prelude.{◌≡◌, ◌<◌};
    ghost use Rattle.event_loop.specs.Lists.{number};

    // The number of its list.
    // Kept (plain): `as` in one place, with the fact that there is a list of that number.
    fn number(self) -> usize
        ensures number { result ≡ number self }
        ensures below { result < list_count }
    {
        self as usize
    }
}

pub const LIST_COUNT: usize = 6;

// A list for each reader, and how many places it has.
#[derive(Drop)]
pub struct Lists {
    places: [[u16; MAX_EVENTS]; LIST_COUNT],
    counts: [u8; LIST_COUNT],
    ghost long: { (l : ℕ) → l < list_count → length (get_or places l []) ≡ max_events },
    ghost within: { (l : ℕ) → get_or counts l 0 ≤ max_events },
}

impl Lists {
    ghost use Rattle.std.specs.Prelude.{◌≡◌, ◌<◌, [], ◌∷◌, ◌++◌, length};
    ghost use Rattle.event_loop.specs.Lists.{number, listed};

    // No event.
    pub fn new() -> Self
        ensures { (l : ℕ) → listed result l ≡ [] }
    {
        Lists {
            places: [[0; MAX_EVENTS]; LIST_COUNT],
            counts: [0; LIST_COUNT],
        }
    }

    pub fn clear(&mut self)
        ensures { (l : ℕ) → listed self.new l ≡ [] }
    {
        self.counts = [0; LIST_COUNT];
    }

    // A place more for a reader.
    pub fn push(&mut self, reader: Reader, at: u16)
        requires { length (listed self.old (number reader)) < max_events }
        ensures last { listed self.new (number reader) ≡ listed self.old (number reader) ++ (at ∷ []) }
        ensures others { (l : ℕ) → (l ≡ number reader → ⊥) → listed self.new l ≡ listed self.old l }
    {
        let list = reader.number();
        let k = self.counts[list];
        self.places[list][k as usize] = at;
        self.counts[list] = k + 1;
    }

    // A reader's places, in the feed's order.
    pub fn places(&self, reader: Reader) -> &[u16]
        ensures listed { result.now ≡ listed self.now (number reader) }
        ensures within { length result.now ≤ max_events }
    {
        let list = reader.number();
        let count = self.counts[list] as usize;
        &self.places[list][..count]
    }
}
