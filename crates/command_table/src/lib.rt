// The table of commands by which the words of a line are read, as `clap` is told of it.
#![tactic(auto)]

pub mod parser;
