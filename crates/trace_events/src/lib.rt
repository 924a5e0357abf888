// The events of a feed in plain text, and whether they are those of a clearing pass.
#![tactic(auto)]

pub mod clearing;
pub mod events;
pub mod fields;
