// The widget set of egui's widget_rect.rs without `infos`: its table in lent arrays, and an index by id.
#![tactic(auto)]

pub mod index;
pub mod table;
