// What the text of a formula may have at most.

/// In bytes.
pub const LONGEST_TEXT: usize = 1_048_576;

/// How deep a formula may nest.
pub const DEEPEST: usize = 256;

/// How many parentheses may be open at once.
pub const MOST_PARENS: usize = 1_024;
