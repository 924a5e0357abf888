// The state of a replay, what a call leaves of it, and PASS.
#![tactic(auto)]

pub mod given;
pub mod machine;
pub mod passes;
