// The grammar of formulas of the modal mu-calculus: from tokens to what is written.
#![tactic(auto)]

pub mod limits;
pub mod misread;
pub mod regular;
pub mod room;
pub mod state;
pub mod token;
pub mod written;
