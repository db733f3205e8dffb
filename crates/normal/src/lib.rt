// The normal form of a formula. It offers normal forms themselves under its own name.
#![tactic(auto)]

mod action;
pub mod count;
pub mod error;
pub mod law;
pub mod make;
mod part;
pub mod printer;
mod survey;
mod write;

pub use calculus::{form, limits, node, priorities};
