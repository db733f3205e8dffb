// Tests of the engines of `check`, `table` and `why`, by what the crates offer to others.
#![tactic(auto)]

#[cfg(test)]
mod common;
#[cfg(test)]
mod failed_reads;
#[cfg(test)]
mod library_checks;
#[cfg(test)]
mod named_boards;
#[cfg(test)]
mod stages;
#[cfg(test)]
mod written_texts;
