// Parts of the answer of DUMP.
#![tactic(auto)]

pub mod devices;
pub mod lent;
pub mod parts;
