// Groups 3 and 4 of an image (02 A.6), the pointer: written, checked, read.
#![tactic(auto)]

pub mod place;
pub mod press;
