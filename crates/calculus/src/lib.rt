// Formulas of the modal mu-calculus as trees: what they mean, which are admitted, their canonical text; normal forms as lists of numbered nodes.
#![tactic(auto)]

pub mod closed;
pub mod form;
pub mod label;
pub mod label_sets;
pub mod limits;
pub mod meaning_law;
pub mod node;
pub mod printer;
pub mod priorities;
pub mod tree;

pub use label::holds;
pub use printer::{put_action, put_state};
