// The keys of egui's input_state/mod.rs.
#![tactic(auto)]

pub mod bits;
pub mod keys;
