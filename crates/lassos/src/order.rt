// The order of a search by steps.

use game::list::List;
use std::alloc::AllocError;

/// From which of the items that a search has found it goes on, so that the nearest are found first.
#[derive(Clone, Copy)]
pub(crate) struct SearchOrder {
    // It has gone on without a step from all items before this one.
    closed: usize,
    // It has gone on by a step from all items before this one.
    edge: usize,
}

impl SearchOrder {
    /// It has gone on from no item.
    pub(crate) const START: Self = SearchOrder { closed: 0, edge: 0 };

    /// The number of the next item from which it goes on, where so many are found, and whether it does so by a step: only where it has gone on from all
    /// without one.
    pub(crate) fn next(&mut self, found: usize) -> Option<(usize, bool)> {
        if self.closed < found {
            self.closed += 1;
            Some((self.closed - 1, false))
        } else if self.edge < found {
            self.edge += 1;
            Some((self.edge - 1, true))
        } else {
            None
        }
    }
}

/// A list, where there was memory for all of it.
pub(crate) fn whole<T: Copy + Drop>(list: List<T>) -> Result<List<T>, AllocError> {
    if list.is_whole() {
        Ok(list)
    } else {
        Err(AllocError)
    }
}
