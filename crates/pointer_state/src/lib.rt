// PointerState of egui's input_state/mod.rs: small records by value. The pass's pointer events are pointer_events, where the pointer is pointer_place.
// Options and time are parameters of the steps that read them.
#![tactic(auto)]

pub mod press;
