// INSERT: an insertion, with the layer's widgets lent.
#![tactic(auto)]

pub mod insert;
pub mod lent;
pub mod widgets;
