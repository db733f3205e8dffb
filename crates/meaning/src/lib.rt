// The meaning of a formula, by sets of states.
#![tactic(auto)]

mod actions;
mod arrivals;
mod environment;
mod free;
pub mod plain;
mod regular;
mod search;
mod sets;
mod signs;
mod term;
