// A feed's touch events against the devices and touches that are held: the first that finds no place, or the devices after them.
#![tactic(auto)]

pub mod crowd;
pub mod touch;
