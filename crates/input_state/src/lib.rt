// InputState of egui's input_state/mod.rs: the state between passes, and its parts in a pass.
#![tactic(auto)]

pub mod clock;
pub mod input;
pub mod pointer;
pub mod screen;
pub mod state;
pub mod sums;
