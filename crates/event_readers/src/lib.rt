// The events of a feed, each read by its own kind.
#![tactic(auto)]

pub mod readers;
