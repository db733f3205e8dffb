// Evidence that a player wins, what it proves, and winners that are guessed and answered only where evidence of both players was found good.
#![tactic(auto)]

pub mod decide;
pub mod entries;
pub mod error;
pub mod evidence;
mod guessed;
pub mod law;
pub mod limits;
pub mod make;
pub mod pair;
pub mod reader;
mod scan;
mod short;
mod small;
pub mod verdict;
pub mod verify;
pub mod writer;
