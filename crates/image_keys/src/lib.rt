// Group 6 of an image (02 A.6), the keys: written, checked, read. The presses are in the caller's places.
#![tactic(auto)]

pub mod down;
pub mod group;
pub mod presses;
