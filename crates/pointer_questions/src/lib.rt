// The questions of PointerState (egui's input_state/mod.rs), each equal to the model's reply. could_any_button_be_click and is_decidedly_dragging
// stand in pointer_clicks, since the steps ask them.
#![tactic(auto)]

pub mod buttons;
pub mod moving;
