// The words of compare/FORMAT.md: what a request says, and the words of an answer.
#![tactic(auto)]

pub mod calls;
pub mod records;
pub mod reply;
pub mod request;
pub mod said;
pub mod touching;
pub mod words;
