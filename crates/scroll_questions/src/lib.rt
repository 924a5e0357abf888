// The questions of InputState about zoom, rotation, scrolling and touches, as in input_questions.
#![tactic(auto)]

pub mod scrolling;
pub mod touching;
pub mod zoom;
