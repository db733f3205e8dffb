// Tests of what is guessed of games and arenas, and of what tests the guesses, by what the crates offer to others.
#![tactic(auto)]

#[cfg(test)]
mod arena_searches;
#[cfg(test)]
mod common;
#[cfg(test)]
mod guessed_winners;
#[cfg(test)]
mod known_games;
#[cfg(test)]
mod questions;
#[cfg(test)]
mod rankings_by_hand;
