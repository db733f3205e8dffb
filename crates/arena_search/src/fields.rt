// Where the counts of a ranking stand in its numbers.

use crate::arena::{Arena, SearchNode};

/// How many priorities there are at most.
pub(crate) const PRIORITIES: u32 = 32;

// The priorities that Even counts, as bits: the odd ones.
const EVENS: u32 = 0xAAAA_AAAA;

/// The mark of a number that says that Odd wins.
pub(crate) const MARK: u64 = 1;

/// Where a player's counts stand in a number: a field for each priority that the player counts, that of the greatest one highest.
#[derive(Clone, Copy)]
pub(crate) struct Fields {
    // The priorities, as bits.
    priorities: u32,
    // How many bits are below the fields, and in each of them.
    low: u32,
    width: u32,
}

// How many bits hold all numbers up to this one.
fn bits(number: u32) -> u32 {
    u32::BITS.saturating_sub(number.leading_zeros())
}

// Two to this power, or zero where that fits no word.
fn power(bits: u32) -> u64 {
    1_u64.checked_shl(bits).unwrap_or(0)
}

impl Fields {
    /// The lowest bit of the field of a priority, or of the next one that has one.
    pub(crate) fn place(&self, priority: u32) -> u32 {
        let below = (power(priority).wrapping_sub(1) & u64::from(self.priorities)).count_ones();
        self.low.saturating_add(self.width.saturating_mul(below))
    }

    /// The fields of this priority and of all greater ones.
    pub(crate) fn above(&self, priority: u32) -> u64 {
        !power(self.place(priority)).wrapping_sub(1)
    }

    /// The field of a priority, or no bit where it has none.
    pub(crate) fn field(&self, priority: u32) -> u64 {
        self.above(priority) & !self.above(priority.wrapping_add(1))
    }

    /// What a number has in the field of a priority, if there is one.
    pub(crate) fn count(&self, priority: u32, word: u64) -> u32 {
        let count = (word & self.field(priority)).checked_shr(self.place(priority));
        u32::try_from(count.unwrap_or(0)).unwrap_or(u32::MAX)
    }
}

/// The fields of both players, in numbers of 32 bits or of 64.
#[derive(Clone, Copy)]
pub(crate) struct Layout {
    pub(crate) is_wide: bool,
    pub(crate) even: Fields,
    pub(crate) odd: Fields,
    /// How far a count is shifted to the left in a number, which has below it the mark and in a ranking the height.
    pub(crate) raised: u32,
    // How many bits are above all fields, for the group and of measures for another mark.
    group: u32,
    // The greatest height of a node.
    height: u32,
}

impl Layout {
    /// The fields that these nodes want: for a ranking those of the binders' priorities, and for measures those of all.
    pub(crate) fn of(arena: &Arena, is_wide: bool) -> Self {
        let exact = u32::from(arena.is_exact);
        let (mut priorities, mut height) = (exact.wrapping_mul(3), 0);
        for node in arena.nodes.as_slice() {
            height = node.height.max(height);
            if arena.is_exact || node.is_binder() {
                priorities |= 1_u32.checked_shl(node.priority).unwrap_or(0);
            }
        }
        let group = bits(u32::try_from(arena.count()).unwrap_or(u32::MAX)).saturating_add(exact);
        let below = if arena.is_exact { 0 } else { bits(height) };
        let below = below.saturating_add(1);
        let (low, raised, room) = if is_wide {
            let taken = below.saturating_add(group);
            (below, 0, u64::BITS.saturating_sub(taken))
        } else {
            (0, below, u32::BITS)
        };
        let (evens, odds) = (priorities & EVENS, priorities & !EVENS);
        let most = evens.count_ones().max(odds.count_ones());
        let width = room.checked_div(most).unwrap_or(room);
        let fields = |priorities| Fields {
            priorities,
            low,
            width,
        };
        Layout {
            is_wide,
            even: fields(evens),
            odd: fields(odds),
            raised,
            group,
            height,
        }
    }

    /// What numbers have above all fields: that of a component, which is less where it is further down.
    pub(crate) fn group(&self, arena: &Arena, node: SearchNode) -> u64 {
        let group = arena.count().saturating_sub(node.root) as u64;
        let place = u64::BITS.saturating_sub(self.group);
        group.checked_shl(place).unwrap_or(0)
    }

    pub(crate) fn fields(&self, is_odd: bool) -> Fields {
        if is_odd { self.odd } else { self.even }
    }

    /// The lowest bit of the field of a priority, for the player who counts it.
    pub(crate) fn place(&self, priority: u32) -> u32 {
        self.fields(priority % 2 == 0).place(priority)
    }

    /// One in that field.
    pub(crate) fn unit(&self, priority: u32) -> u64 {
        power(self.place(priority))
    }

    /// Whether all fields hold a count, and the heights of nodes.
    pub(crate) fn holds(&self, count: u32) -> bool {
        bits(count.max(self.height)) <= self.even.width
    }
}
