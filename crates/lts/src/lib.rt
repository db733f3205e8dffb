// The Aldebaran text of labelled transition systems. It offers the systems themselves under its own name.
#![tactic(auto)]

mod assemble;
pub mod error;
mod intake;
pub mod law;
mod packed;
mod plain;
pub mod reader;
mod recent;
mod scan;
pub mod writer;

pub use error::{AutError, AutFault};
pub use reader::read_aut;
pub use systems::{Label, LabelView, Lts, Transition, label, limits, system};
pub use text::{Memory, Piece, WriteFault, put, put_number, put_pieces};
pub use writer::{write_aut, write_part};
