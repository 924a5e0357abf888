// Positions, vectors and rectangles of f32 parts, and a history of positions.
#![tactic(auto)]

pub mod pos2;
pub mod rect;
pub mod vec2;
