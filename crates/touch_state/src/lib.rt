// The map of touch devices of egui's input_state/mod.rs, by value. A device is touch_device, what is asked of them is touch_questions.
#![tactic(auto)]

pub mod devices;
