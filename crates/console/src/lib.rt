// Files and the terminal: what is read and made, the line that says what is being done, notes, refusals as they are told, commands without verdicts.
#![tactic(auto)]

pub mod fault;
pub mod files;
pub mod input;
pub mod line;
mod notes;
pub mod refusal;
mod same;
mod sight;
mod size;
pub mod stats;
pub mod texts;
pub mod told;
mod wrong;
