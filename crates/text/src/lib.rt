// Lines, tokens and numbers of a text as they are read, and the one loop that writes.
#![tactic(auto)]

pub mod batch;
pub mod bytes;
pub mod error;
pub mod lines;
pub mod scan;
pub mod sink;
pub mod source;
pub mod stream;
pub mod write_loop;

pub use batch::{Lines, put_lines};
pub use error::{Memory, ReadFault};
pub use lines::next_line;
pub use write_loop::{Piece, WriteFault, put, put_number, put_pieces};
