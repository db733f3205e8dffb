// Items by their places.

use std::alloc::Global;

/// Items by their places. Past the last place nothing is read but a given item, and nothing is written. Where memory is refused for some items they
/// are left out, and the list tells so.
#[derive(Drop)]
pub struct List<T> {
    items: Vec<T>,
    is_whole: bool,
}

impl<T: Copy + Drop> List<T> {
    /// No item yet.
    pub fn none(alloc: Global) -> Self {
        List {
            items: Vec::new(alloc),
            is_whole: true,
        }
    }

    /// This item so many times.
    pub fn filled(alloc: Global, length: usize, item: T) -> Self {
        match vec![in alloc; item; length] {
            Ok(items) => List {
                items,
                is_whole: true,
            },
            Err(_) => List {
                items: Vec::new(alloc),
                is_whole: false,
            },
        }
    }

    /// Whether there was memory for all items.
    pub fn is_whole(&self) -> bool {
        self.is_whole
    }

    /// How many items there are.
    pub fn len(&self) -> usize {
        self.items.len()
    }

    /// Whether there are none.
    pub fn is_empty(&self) -> bool {
        self.items.is_empty()
    }

    /// All items.
    pub fn as_slice(&self) -> &[T] {
        self.items.as_slice()
    }

    /// All items, to be written.
    pub fn as_mut_slice(&mut self) -> &mut [T] {
        self.items.as_mut_slice()
    }

    /// The items of a span of places, and none where the list doesn't have all of them.
    pub fn slice(&self, from: usize, to: usize) -> &[T] {
        self.items.get(from..to).unwrap_or(&[])
    }

    /// The item at this place, or another one past the last place.
    #[inline(always)]
    pub fn get_or(&self, place: usize, other: T) -> T {
        if place < self.items.len() {
            self.items[place]
        } else {
            other
        }
    }

    /// Writes the item at this place.
    #[inline(always)]
    pub fn set(&mut self, place: usize, item: T) {
        if place < self.items.len() {
            self.items[place] = item;
        }
    }

    /// One more item.
    #[inline(always)]
    pub fn push(&mut self, item: T) {
        self.is_whole &= self.items.push(item).is_ok();
    }

    /// Takes the last item away.
    #[inline(always)]
    pub fn pop(&mut self) -> Option<T> {
        self.items.pop()
    }

    /// These items after those.
    pub fn extend(&mut self, items: &[T]) {
        for item in items {
            self.push(*item);
        }
    }

    /// Turns the order round.
    pub fn reverse(&mut self) {
        self.items.reverse();
    }

    /// Takes all items away, and keeps the memory.
    pub fn clear(&mut self) {
        self.items.clear();
    }

    /// All items, without the list around them.
    pub fn into_items(self) -> Vec<T> {
        let List { items, is_whole: _ } = self;
        items
    }
}
