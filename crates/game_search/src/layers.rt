// Lists of vertices, one for each priority.

use std::alloc::Global;

/// One more than the greatest priority of a game.
pub(crate) const PRIORITIES: u8 = 33;

/// Vertices by their priorities. Those for which memory is refused are left out.
#[derive(Drop)]
pub(crate) struct Layers {
    lists: Vec<Vec<u32>>,
}

impl Layers {
    pub(crate) fn none(alloc: Global) -> Self {
        let mut lists = Vec::new(alloc);
        for _ in 0..PRIORITIES {
            let _ = lists.push(Vec::new(alloc));
        }
        Layers { lists }
    }

    pub(crate) fn push(&mut self, priority: u8, v: u32) {
        if let Some(list) = self.lists.get_mut(usize::from(priority)) {
            let _ = list.push(v);
        }
    }

    /// Takes the last vertex of this priority away.
    pub(crate) fn pop(&mut self, priority: u8) -> Option<u32> {
        self.lists.get_mut(usize::from(priority))?.pop()
    }

    /// The vertex of this priority at this place.
    pub(crate) fn at(&self, priority: u8, place: usize) -> Option<u32> {
        let list = self.lists.get(usize::from(priority))?;
        list.get(place).copied()
    }
}
