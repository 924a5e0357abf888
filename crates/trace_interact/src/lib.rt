// INTERACT, read from a request and answered.
#![tactic(auto)]

pub mod interact;
