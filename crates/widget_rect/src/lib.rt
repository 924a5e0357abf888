// egui's widget_rect.rs without `infos`: one insertion, with the layer's widgets lent in a slice, and the set's questions.
#![tactic(auto)]

pub mod insert;
pub mod questions;
pub mod slice;
