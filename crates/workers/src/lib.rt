// Workers that lift one table in threads.
#![tactic(auto)]

pub mod error;
mod floor;
pub mod gate;
mod jobs;
mod marks;
mod rest;
pub mod runtime;
pub mod solving;
pub mod team;
mod watched;
mod worker;
