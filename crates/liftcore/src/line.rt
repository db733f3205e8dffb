// A line of a schedule, read byte by byte: its word is kept, and of each number how great it is, so that no line is.

ghost use Rattle.std.specs.Prelude.{◌≡◌, ◌≢◌, ℕ, List, [], ◌∷◌, ◌++◌, MatchBool, MatchOption, None, Some};
ghost use Rattle.text.specs.Tokens as token;
ghost use Rattle.liftcore.specs.Begun.{IsBegunLine, IsUnspaced, IsValue};
ghost use Rattle.liftcore.specs.Scan as at;
ghost use Rattle.liftcore.specs.declared.line.LinePart.TheVariants as part;

use crate::event::Event;
use arrayvec::ArrayVec;

/// What is being read of a line.
#[derive(Clone, Copy)]
pub(crate) enum LinePart {
    /// The word.
    Word,
    /// The worker: its digits so far are this number, if there are some.
    Worker { worker: Option<u32> },
    /// The vertex, the same, behind a worker.
    Vertex { worker: u32, vertex: Option<u32> },
    /// No event's line begins so.
    Faulty,
}

/// The bytes of a line that were read so far. No word of an event has more than five bytes.
#[derive(Drop)]
pub(crate) struct Line {
    pub(crate) word: ArrayVec<u8, 5>,
    pub(crate) part: LinePart,
}

// The number of the digits and one more, where they are one. A number that is too great for its type is read as the greatest one.
fn with_digit(number: Option<u32>, byte: u8) -> Option<u32>
    ensures { (digits : List ℕ) → IsValue digits number
        → MatchOption result ((rest : List ℕ) → token.whole_number (digits ++ byte ∷ rest) ≡ None)
        (λ n. token.whole_number (digits ++ byte ∷ []) ≡ Some n) }
{
    if !byte.is_ascii_digit() {
        return None;
    }
    let digit = u32::from(byte.saturating_sub(b'0'));
    let Some(number) = number else {
        return Some(digit);
    };
    if number == 0 {
        return None;
    }
    Some(number.saturating_mul(10).saturating_add(digit))
}

// What is being read behind one more byte of a word.
fn after_word(word: &mut ArrayVec<u8, 5>, byte: u8) -> LinePart
    ensures { (line : List ℕ) → (line ≡ word.old.items) → IsUnspaced word.old.items → IsBegunLine (line ++ byte ∷ []) word.new.items result }
{
    if byte == b' ' {
        return LinePart::Worker { worker: None };
    }
    match word.try_push(byte) {
        Ok(()) => LinePart::Word,
        Err(_) => LinePart::Faulty,
    }
}

// What is being read behind one more byte of a worker.
fn after_worker(worker: Option<u32>, byte: u8) -> LinePart
    ensures { (line word : List ℕ) → IsBegunLine line word (part.Worker worker) → IsBegunLine (line ++ byte ∷ []) word result }
{
    if byte == b' ' {
        return match worker {
            Some(worker) => LinePart::Vertex {
                worker,
                vertex: None,
            },
            None => LinePart::Faulty,
        };
    }
    match with_digit(worker, byte) {
        Some(number) => LinePart::Worker {
            worker: Some(number),
        },
        None => LinePart::Faulty,
    }
}

// What is being read behind one more byte of a vertex.
fn after_vertex(worker: u32, vertex: Option<u32>, byte: u8) -> LinePart
    ensures { (line word : List ℕ) → IsBegunLine line word (part.Vertex worker vertex) → IsBegunLine (line ++ byte ∷ []) word result }
{
    match with_digit(vertex, byte) {
        Some(number) => LinePart::Vertex {
            worker,
            vertex: Some(number),
        },
        None => LinePart::Faulty,
    }
}

// The event of a word with a worker alone.
fn event_of_worker(word: &[u8], worker: Option<u32>) -> Option<Event>
    ensures { (line : List ℕ) → IsBegunLine line word.now (part.Worker worker) → at.event_at token.whole_number line ≡ result }
{
    if word == b"raise".as_slice() {
        let worker = worker? as usize;
        return Some(Event::Raise { worker });
    }
    None
}

// The event of a word with a worker and a vertex.
#[tactic(auto, unfolding(crate::specs::Scan::event_with))]
fn event_with(word: &[u8], worker: usize, vertex: u32) -> Option<Event>
    ensures { at.event_with word.now worker vertex ≡ result }
{
    if word == b"take".as_slice() {
        Some(Event::Take { worker, vertex })
    } else if word == b"read".as_slice() {
        Some(Event::Read { worker, vertex })
    } else if word == b"push".as_slice() {
        Some(Event::Push { worker, vertex })
    } else {
        None
    }
}

// The event of a word with a worker and a vertex, where a vertex stands behind the worker.
fn event_of_vertex(word: &[u8], worker: u32, vertex: Option<u32>) -> Option<Event>
    ensures { (line : List ℕ) → IsBegunLine line word.now (part.Vertex worker vertex) → at.event_at token.whole_number line ≡ result }
{
    event_with(word, worker as usize, vertex?)
}

impl Line {
    /// None of its bytes.
    pub(crate) fn new() -> Self
        ensures { IsBegunLine [] result.word.items result.part }
    {
        Line {
            word: ArrayVec::new(),
            part: LinePart::Word,
        }
    }

    /// Whether none of its bytes was read.
    pub(crate) fn is_empty(&self) -> bool
        ensures { (line : List ℕ) → IsBegunLine line self.now.word.items self.now.part → MatchBool result (line ≡ []) (line ≢ []) }
    {
        match self.part {
            LinePart::Word => self.word.is_empty(),
            LinePart::Worker { .. } => false,
            LinePart::Vertex { .. } => false,
            LinePart::Faulty => false,
        }
    }

    /// Reads one more byte of it.
    pub(crate) fn take(&mut self, byte: u8)
        ensures { (line : List ℕ) → IsBegunLine line self.old.word.items self.old.part → IsBegunLine (line ++ byte ∷ []) self.new.word.items self.new.part }
    {
        match self.part {
            LinePart::Word => self.part = after_word(&mut self.word, byte),
            LinePart::Worker { worker } => self.part = after_worker(worker, byte),
            LinePart::Vertex { worker, vertex } => self.part = after_vertex(worker, vertex, byte),
            LinePart::Faulty => {}
        }
    }

    /// The event that it spells where no more bytes follow. A number that is too great for its type is read as the greatest one.
    pub(crate) fn event(&self) -> Option<Event>
        ensures { (line : List ℕ) → IsBegunLine line self.now.word.items self.now.part → at.event_at token.whole_number line ≡ result }
    {
        let word = self.word.as_slice();
        match self.part {
            LinePart::Worker { worker } => event_of_worker(word, worker),
            LinePart::Vertex { worker, vertex } => event_of_vertex(word, worker, vertex),
            LinePart::Word => None,
            LinePart::Faulty => None,
        }
    }
}
