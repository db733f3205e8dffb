// What is done to a board.

use measures::measure::Measure;

/// One access to a board, as clauses see it. No value of it is made.
pub enum Access {
    /// At a vertex this measure was read.
    Read(u32, Measure),
    /// A vertex that had the first measure was raised to the second, unless that isn't greater.
    Raise(u32, Measure, Measure),
}
