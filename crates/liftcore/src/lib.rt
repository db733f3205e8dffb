// The lifting of several workers, as a machine over events.
#![tactic(auto)]

pub mod error;
pub mod event;
pub mod law;
mod line;
pub mod machine;
mod marks;
pub mod schedule;
mod seat;
mod state;
pub mod turn;
pub mod writer;

pub use game::predecessors::Predecessors;
