// The answers of ASK, DUMP and RESTED: every question, and the whole state but for the widgets, in the order of compare/FORMAT.md.
#![tactic(auto)]

pub mod ask;
pub mod devices;
pub mod dump;
pub mod events;
pub mod keys;
pub mod rested;
