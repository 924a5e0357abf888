// The event at a place of a feed, or its refusal.
#![tactic(auto)]

pub mod decode;
pub mod kinds;
