// What a refused call answers. Each carries the word or entry index where 01 returns one.
// Kept (01): the numbers are those of 01's rows and not the places in the enum, so a match names each.
ghost use Rattle.std.specs.Prelude.{◌≡◌};
ghost use Rattle.data.specs.Numbers.{pass_refusal_number, insert_refusal_number, interact_refusal_number};

#[derive(Clone, Copy)]
pub enum PassRefusal {
    // 1: unknown kind, field or stray bit, event cut short
    Malformed(usize),
    // 2: a float outside the domain (index 0 if not in the feed)
    OutsideDomain(usize),
    // 3: given time below the state's
    TimeBelow,
    // 4: an event past `MAX_EVENTS`
    TooManyEvents(usize),
    // 5: a device past `MAX_DEVICES`, or Start of a touch past `MAX_TOUCHES`
    NoPlace(usize),
}

impl PassRefusal {
    // 01's number of it.
    pub fn number(self) -> u32
        ensures { result ≡ pass_refusal_number self }
    {
        match self {
            PassRefusal::Malformed(_) => 1,
            PassRefusal::OutsideDomain(_) => 2,
            PassRefusal::TimeBelow => 3,
            PassRefusal::TooManyEvents(_) => 4,
            PassRefusal::NoPlace(_) => 5,
        }
    }
}

#[derive(Clone, Copy)]
pub enum InsertRefusal {
    // 1: layer order over 4, or a sense bit that sense.rs doesn't name
    Malformed,
    // 2: a rectangle edge outside the domain
    OutsideDomain,
    // 6: new widget at 1,024, or new layer at 32
    Full,
    // 7: known id on another layer
    OtherLayer,
    // 8: a lent slice too short for the layer's widgets after the insertion
    ShortSlice,
    // 9: an id of 0
    ZeroId,
}

impl InsertRefusal {
    // 01's number of it.
    pub fn number(self) -> u32
        ensures { result ≡ insert_refusal_number self }
    {
        match self {
            InsertRefusal::Malformed => 1,
            InsertRefusal::OutsideDomain => 2,
            InsertRefusal::Full => 6,
            InsertRefusal::OtherLayer => 7,
            InsertRefusal::ShortSlice => 8,
            InsertRefusal::ZeroId => 9,
        }
    }
}

#[derive(Clone, Copy)]
pub enum InteractRefusal {
    // 1: a sense bit that sense.rs doesn't name
    Malformed(usize),
    // 4: a hit entry past `MAX_HITS`
    TooManyHits(usize),
    // 8: an id buffer under 66 places
    ShortBuffer,
    // 9: an id of 0
    ZeroId,
    // 10: this call would start a drag with the tally at its maximum
    TallyFull,
}

impl InteractRefusal {
    // 01's number of it.
    pub fn number(self) -> u32
        ensures { result ≡ interact_refusal_number self }
    {
        match self {
            InteractRefusal::Malformed(_) => 1,
            InteractRefusal::TooManyHits(_) => 4,
            InteractRefusal::ShortBuffer => 8,
            InteractRefusal::ZeroId => 9,
            InteractRefusal::TallyFull => 10,
        }
    }
}
