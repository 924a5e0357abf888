// The words of standard input, and the bytes of standard output.
#![tactic(auto)]

pub mod input;
pub mod output;
