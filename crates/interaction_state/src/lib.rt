// InteractionState of egui's interaction.rs: its values, what is asked of the widget set, and whom an interact leaves dragged.
#![tactic(auto)]

pub mod drag;
pub mod lookup;
pub mod state;
