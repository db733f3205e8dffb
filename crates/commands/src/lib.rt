// The engines of the commands beside `check`, `why` and `table`, over readers and writers.
#![tactic(auto)]

mod answer;
mod label_counts;
pub mod labels_text;
pub mod normal_text;
pub mod replay_text;
mod solution;
pub mod solve_text;
pub mod verify_text;
mod winner_text;
