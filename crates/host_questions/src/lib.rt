// The questions that Rust or C asks of a panel, as `host` keeps it in memory (host/src/lib.rt says which array holds what). A question writes nothing.
// Each function of `panel` is exported as fivvarul_ and its name; primary_pressed, secondary_pressed .. middle_down are fivvarul_button_pressed,
// _released, _clicked and _down, with button 0, 1, 2.
#![tactic(auto)]

pub mod buttons;
pub mod clock;
pub mod dragging;
pub mod events;
pub mod keys;
pub mod pointer;
pub mod repaint;
pub mod scrolling;
pub mod touching;
pub mod widgets;
pub mod zoom;
