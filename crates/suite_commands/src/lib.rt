// Tests of the commands and of the command line, by what the crates offer to others.
#![tactic(auto)]

#[cfg(test)]
mod command_lines;
#[cfg(test)]
mod common;
#[cfg(test)]
mod help;
#[cfg(test)]
mod solved_games;
#[cfg(test)]
mod written_texts;
