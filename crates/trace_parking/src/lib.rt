// PARK, RESTORE_LAST and RESTORE: a panel's image in an answer and in a request.
#![tactic(auto)]

pub mod park;
pub mod restore;
