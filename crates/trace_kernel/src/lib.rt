// KERNEL: kernel touch records in the words of a request, and the feed's words in its answer.
#![tactic(auto)]

pub mod answer;
pub mod kernel;
pub mod records;
