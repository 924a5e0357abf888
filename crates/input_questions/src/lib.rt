// The questions of InputState (egui's input_state/mod.rs), each equal to the model's reply of every panel that shows what it reads.
// A question that a field answers as it stands has no function: time, unstable_dt, predicted_dt, stable_dt, focused, modifiers, viewport_rect,
// pixels_per_point, smooth_scroll_delta. is_scrolling stands in wheel_state; any_touches, has_touch_screen, multi_touch and the two questions by
// device id in touch_questions; those about zoom, rotation, scrolling and touches in scroll_questions.
#![tactic(auto)]

pub mod keys;
pub mod repaint;
pub mod screen;
