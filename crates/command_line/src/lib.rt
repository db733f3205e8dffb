// The command line: what the program can be asked to do, what the words of a line ask for, and what the program tells of itself and its refusals.
#![tactic(auto)]

pub mod codes;
pub mod information;
pub mod inputs;
pub mod line;
pub mod names;
pub mod request;
pub mod version;
