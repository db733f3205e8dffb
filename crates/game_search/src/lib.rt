// Who wins each vertex of a parity game, with moves and ranks, as one search guesses it. Nothing rests on it but time: what is guessed has to be
// tested.
#![tactic(auto)]

mod cells;
pub mod guess;
mod layers;
pub mod ranks;
mod search;
