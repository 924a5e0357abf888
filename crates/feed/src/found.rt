// What is wrong in a feed.

// Why no event of the domain stands at a place.
#[derive(Clone, Copy, PartialEq, Eq)]
pub enum FeedError {
    // refusal 1
    Malformed,
    // refusal 2
    OutsideDomain,
}
