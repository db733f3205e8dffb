// The engines of `check` and `why`, over readers and writers: from both texts to the report, or to what is told of the answer. They offer the exit status
// of `requests` under their own name.
#![tactic(auto)]

pub mod engine;
mod everywhere;
pub mod named;
mod outputs;
mod parts;
mod play;
mod prepared;
pub mod reasons;

pub use requests::{error, request, status, texts, watch, writers};
