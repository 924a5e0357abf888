// 01's feed: 32-bit words, an event each few of them. What its words say, their lengths and their fields.
#![tactic(auto)]

pub mod fields;
pub mod found;
pub mod split;
