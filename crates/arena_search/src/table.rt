// Lists of items by number, and of numbers by state.

use game::list::List;
use std::alloc::Global;
use std::ops::Range;

/// Rows of items by number, one after another.
#[derive(Drop)]
pub(crate) struct Rows<T> {
    /// Where each row starts, and where the last one ends.
    pub(crate) starts: List<u32>,
    pub(crate) items: List<T>,
}

impl<T: Copy + Drop> Rows<T> {
    pub(crate) fn none(alloc: Global) -> Self {
        Rows {
            starts: List::filled(alloc, 1, 0),
            items: List::none(alloc),
        }
    }

    /// Ends a row: it has the items after the row before.
    pub(crate) fn end(&mut self) {
        let end = u32::try_from(self.items.len()).unwrap_or(u32::MAX);
        self.starts.push(end);
    }

    /// Whether there was memory for all.
    pub(crate) fn is_whole(&self) -> bool {
        self.starts.is_whole() && self.items.is_whole()
    }

    /// The places of a row's items.
    pub(crate) fn places(&self, row: usize) -> Range<usize> {
        let start = self.starts.get_or(row, 0);
        let end = self.starts.get_or(row.wrapping_add(1), 0);
        start as usize..end as usize
    }

    /// A row, without so many of the first items.
    #[inline(always)]
    pub(crate) fn row(&self, row: usize, first: u32) -> &[T] {
        let start = self.starts.get_or(row, 0).saturating_add(first);
        let end = self.starts.get_or(row.wrapping_add(1), 0);
        self.items.slice(start as usize, end as usize)
    }
}

/// Lists of so many numbers. One is there from the first number on that isn't zero; before all its numbers are read as zeros.
#[derive(Drop)]
pub(crate) struct NumberLists<T> {
    alloc: Global,
    length: usize,
    zero: T,
    pub(crate) lists: Vec<Vec<T>>,
    /// Whether there was memory for all.
    pub(crate) is_whole: bool,
}

impl<T: Copy + Drop + PartialEq> NumberLists<T> {
    /// Lists of so many numbers, of which none is there yet.
    pub(crate) fn new(alloc: Global, length: usize, zero: T) -> Self {
        NumberLists {
            alloc,
            length,
            zero,
            lists: Vec::new(alloc),
            is_whole: true,
        }
    }

    pub(crate) fn has(&self, list: usize) -> bool {
        list < self.lists.len() && !self.lists[list].is_empty()
    }

    #[inline(always)]
    pub(crate) fn get(&self, list: usize, state: usize) -> T {
        if list < self.lists.len() && state < self.lists[list].len() {
            self.lists[list][state]
        } else {
            self.zero
        }
    }

    #[inline(always)]
    pub(crate) fn set(&mut self, list: usize, state: usize, item: T) {
        if item != self.zero && !self.has(list) {
            self.open(list);
        }
        if list < self.lists.len() && state < self.lists[list].len() {
            self.lists[list][state] = item;
        }
    }

    #[inline(never)]
    fn open(&mut self, list: usize) {
        for _ in self.lists.len()..=list {
            self.is_whole &= self.lists.push(Vec::new(self.alloc)).is_ok();
        }
        match vec![in self.alloc; self.zero; self.length] {
            Ok(items) if list < self.lists.len() => self.lists[list] = items,
            _ => self.is_whole = false,
        }
    }

    /// Makes all numbers of a list zeros.
    pub(crate) fn clear(&mut self, list: usize) {
        let zero = self.zero;
        if list < self.lists.len() {
            for place in 0..self.lists[list].len() {
                self.set(list, place, zero);
            }
        }
    }
}
