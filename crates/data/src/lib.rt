// egui's input data as plain values. An Option is the library's, at its type.
#![tactic(auto)]

pub mod bits;
pub mod event;
pub mod kinds;
pub mod layers;
pub mod limits;
pub mod modifiers;
pub mod mouse_wheel;
pub mod options;
pub mod pointer;
pub mod refusal;
pub mod sense;
pub mod touch;
pub mod widget;
