// The play that an answer rests on, as a person reads it, from the initial state on.
#![tactic(auto)]

pub mod everywhere;
pub mod setting;
pub mod visit;
pub mod walk;
pub mod writer;
