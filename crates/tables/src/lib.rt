// Tables of measures that workers share.
#![tactic(auto)]

pub mod access;
pub mod board;
pub mod error;
pub mod locked;
pub mod packed;
mod packed_board;
pub mod shard;
mod weights;
