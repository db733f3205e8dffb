// What a game may have at most.

pub const MOST_VERTICES: usize = 16_777_216;
