// What a call answers.

// 11, 12, 2 with index 0, 8
#[derive(Clone, Copy, Debug, PartialEq, Eq)]
pub enum KernelRefusal {
    Length,
    SlotOutside,
    OutsideDomain,
    FeedFull,
}

// Kept (C): the number of words written, since they stand in the feed that C lends, and whether the records held a 'dropped'.
#[derive(Clone, Copy, Debug, PartialEq, Eq)]
pub struct Taken {
    pub words: usize,
    pub dropped: bool,
}
