// The whole pass of egui's input_state/mod.rs: `begin_pass` with its refusals.
#![tactic(auto)]

pub mod begin;
