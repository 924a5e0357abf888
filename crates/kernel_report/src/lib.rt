// The events of a report end, as words of the feed.
#![tactic(auto)]

pub mod change;
pub mod report;
pub mod touch;
