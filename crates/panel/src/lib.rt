// One door to the panel: a fresh one, a pass, an interact, an insertion, and every question. Each call takes only what it reads.
// The panel is the records of `state` and the arrays that the caller lends; nothing else writes them between two calls.
// A pass is given `input_state::input::PassInput` and a feed, and returns an `input_pass::begin::Begun` or the refusal; an interact is given hits of
// `hit_lists` and returns an `interaction_state::state::Answer` or the refusal; the widget set and its arrays are those of `widget_index::table`.
// Most functions only hand on a call: what they add is their clause, which speaks of the model's panel, and so they stay.
#![tactic(auto)]

pub mod buttons;
pub mod clock;
pub mod dragging;
pub mod interact;
pub mod keys;
pub mod pass;
pub mod pointer;
pub mod repaint;
pub mod scrolling;
pub mod state;
pub mod touching;
pub mod widgets;
pub mod zoom;
