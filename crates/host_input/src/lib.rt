// The input state's records as the host's memory holds them: in five arrays of plain numbers, at the places of places.rt. Any contents mean some state.
#![tactic(auto)]

pub mod kept;
pub mod places;
pub mod read;
