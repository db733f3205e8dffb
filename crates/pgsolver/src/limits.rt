// What a game's text may have at most.

pub const LONGEST_NAME: usize = 4096;
