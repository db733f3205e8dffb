// The PGSolver text of a parity game, both ways.
#![tactic(auto)]

mod ahead;
pub mod error;
mod intake;
pub mod law;
pub mod limits;
mod plain;
pub mod reader;
mod rows;
mod scan;
mod tokens;
pub mod writer;

pub use error::{PgError, PgFault};
pub use reader::read_game;
pub use text::WriteFault;
pub use writer::write_game;
