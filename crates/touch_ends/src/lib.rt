// The touch devices in a pass and at its end.
#![tactic(auto)]

pub mod ends;
pub mod pass;
