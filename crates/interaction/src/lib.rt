// egui's interaction.rs: an interact, refused with all as before, or answered with a snapshot.
#![tactic(auto)]

pub mod interact;
