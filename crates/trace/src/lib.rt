// A trace of calls, replayed over the panel: compare/FORMAT.md says what stands where.
#![tactic(auto)]

pub mod call;
pub mod exponent;
pub mod memory;
pub mod run;
