// Plays that are a path into a loop, as short as a search finds them. Nothing rests on the search: evidence is made of what it finds, and checked.
#![tactic(auto)]

mod ball;
mod field;
mod finding;
mod loops;
pub mod making;
mod order;
mod part;
