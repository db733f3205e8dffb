// Parity games: the arena of a system and a normal form, the dual, predecessors; lists, columns and a gauge for what searches and tests them.
#![tactic(auto)]

pub mod build;
pub mod column;
pub mod dual;
pub mod error;
pub mod gauge;
pub mod graph;
pub mod limits;
pub mod list;
pub mod name;
pub mod observer;
pub mod player;
pub mod predecessors;
pub mod view;
