// What the kernel's touch records make of the slots.
#![tactic(auto)]

pub mod answer;
pub mod slots;
pub mod step;
