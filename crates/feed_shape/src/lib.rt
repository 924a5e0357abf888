// The event that a feed's words say, for each kind.
#![tactic(auto)]

pub mod shape;
