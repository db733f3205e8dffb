// Progress measures of parity games, tables of them, and solving on one thread, by lifting a table until no lift raises it.
#![tactic(auto)]

pub mod bounds;
pub mod field;
pub mod measure;
mod pending;
pub mod progs;
pub mod proposal;
pub mod rank;
pub mod rows;
pub mod settle;
pub mod table;
mod value;
pub mod writer;
