// Which states satisfy a formula: by sets of states, by a guessed ranking, or by the game, stored and solved, with the evidence of both players.
#![tactic(auto)]

pub mod evidence_text;
pub mod findings;
pub mod lifting;
pub mod marks;
pub mod pairs;
pub mod proposing;
pub mod ranked;
mod threads;
