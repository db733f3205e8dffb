// The text of formulas of the modal mu-calculus, and the words of a formula that no label of a system has.
#![tactic(auto)]

pub mod absent;
pub mod error;
pub mod law;
pub mod printer;
pub mod strange;

pub use calculus::{closed, holds, label, meaning_law, tree};
pub use grammar::{limits, token};
pub use printer::print;

pub mod lexer;
mod meant;
mod operands;
pub mod reader;
mod scope;

pub use reader::parse;
