// Limits of the texts of evidence.

/// How great a count of a rank may be in a text: as great as a game may have vertices, whatever the game.
pub const GREATEST_COUNT: u32 = 16_777_216;

/// So many digits of a number are kept where a line is kept shortened: they tell that it is too great for its type.
pub(crate) const MOST_DIGITS: usize = 11;

/// A line of evidence has fewer bytes where it is shortened so.
pub(crate) const LONGEST_LINE: usize = 256;
