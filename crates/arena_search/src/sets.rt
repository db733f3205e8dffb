// Sets of states, as bits.

ghost use Rattle.std.specs.Iterator.{at_most};

use game::list::List;
use std::alloc::Global;

// How many states have their bits in one word.
const WORD: usize = 64;

/// A state's bit in its word, and that word.
pub(crate) fn bit(state: usize) -> u64 {
    1_u64 << (state % WORD)
}

pub(crate) fn word_of(state: usize) -> usize {
    state / WORD
}

/// The states of a word.
#[derive(Clone, Copy)]
pub(crate) struct States {
    first: usize,
    bits: u64,
    left: u32,
}

/// The states of these bits of a word, ascending.
#[inline(always)]
pub(crate) fn states_of(word: usize, bits: u64) -> States {
    States {
        first: word.wrapping_mul(WORD),
        bits,
        left: u64::BITS,
    }
}

impl Iterator for States {
    type Item = usize;

    ghost remaining = { λ s. at_most s.left };

    #[inline(always)]
    fn next(&mut self) -> Option<usize> {
        if self.bits == 0 || self.left == 0 {
            return None;
        }
        let place = self.bits.trailing_zeros() as usize;
        self.bits &= self.bits.wrapping_sub(1);
        self.left -= 1;
        Some(self.first.wrapping_add(place))
    }
}

/// Sets of states below a number, each in a row of its own.
#[derive(Drop)]
pub(crate) struct Sets {
    /// The words of all sets, one set after another, and how many words a set has.
    pub(crate) words: List<u64>,
    pub(crate) width: usize,
    // The bits of the last word that are states.
    tail: u64,
}

impl Sets {
    pub(crate) fn new(alloc: Global, rows: usize, states: usize) -> Self {
        let width = states.div_ceil(WORD);
        Sets {
            words: List::filled(alloc, rows.saturating_mul(width), 0),
            width,
            tail: u64::MAX >> (states.wrapping_neg() % WORD),
        }
    }

    /// All states of a word.
    pub(crate) fn all(&self, word: usize) -> u64 {
        if word.wrapping_add(1) == self.width {
            self.tail
        } else {
            u64::MAX
        }
    }

    fn place(&self, row: usize, word: usize) -> usize {
        row.wrapping_mul(self.width).wrapping_add(word)
    }

    pub(crate) fn word(&self, row: usize, word: usize) -> u64 {
        self.words.get_or(self.place(row, word), 0)
    }

    pub(crate) fn set_word(&mut self, row: usize, word: usize, bits: u64) {
        let place = self.place(row, word);
        self.words.set(place, bits)
    }

    /// Adds the states of a word.
    pub(crate) fn add(&mut self, row: usize, word: usize, bits: u64) {
        self.set_word(row, word, self.word(row, word) | bits)
    }

    /// Takes the states of a word away, and answers them.
    pub(crate) fn taken(&mut self, row: usize, word: usize) -> u64 {
        let bits = self.word(row, word);
        if bits != 0 {
            self.set_word(row, word, 0);
        }
        bits
    }

    pub(crate) fn has(&self, row: usize, state: usize) -> bool {
        self.word(row, word_of(state)) & bit(state) != 0
    }

    pub(crate) fn put(&mut self, row: usize, state: usize) {
        self.add(row, word_of(state), bit(state))
    }

    pub(crate) fn remove(&mut self, row: usize, state: usize) {
        let word = word_of(state);
        self.set_word(row, word, self.word(row, word) & !bit(state))
    }
}
