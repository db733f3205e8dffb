// What a system may have at most.

pub const MOST_STATES: u32 = 1_000_000;

pub const MOST_TRANSITIONS: u32 = 10_000_000;

/// In bytes.
pub const LONGEST_LABEL: usize = 4_096;
