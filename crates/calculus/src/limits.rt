// What a normal form may have at most.

pub const MOST_NODES: usize = 4_096;

pub const GREATEST_PRIORITY: u32 = 31;
