// What a command is asked for and made from: its request, both texts, their game; what it answers: report, exit status, and why there is no answer.
#![tactic(auto)]

pub mod arena;
pub mod error;
pub mod report;
pub mod request;
pub mod solver;
pub mod status;
pub mod texts;
pub mod watch;
pub mod writers;
