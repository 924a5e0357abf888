// 02 A.6: a panel is parked, its whole state written as the words of an image, and restored from them. Beside `panel`, the door to its other operations.
#![tactic(auto)]

pub mod check;
pub mod park;
pub mod restore;
