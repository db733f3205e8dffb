// The lines of a table: the answers of one system to many formulas, a line for each.
#![tactic(auto)]

mod expectation;
pub mod table;
