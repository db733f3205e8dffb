// A search for who wins each node of a normal form at each state of a system. Nothing rests on what it finds but time: that has to be tested.
#![tactic(auto)]

mod arena;
mod climb;
mod edges;
mod exits;
mod fields;
mod lift;
pub mod measures;
mod part;
pub mod ranking;
mod repair;
mod search;
mod sets;
mod table;
