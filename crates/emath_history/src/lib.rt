// emath's History of positions, in arrays that the caller lends.
#![tactic(auto)]

pub mod history;
