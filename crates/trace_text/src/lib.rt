// An answer's checksum, and a call in plain text.
#![tactic(auto)]

pub mod counts;
pub mod numbers;
pub mod record;
pub mod sums;
pub mod text;
