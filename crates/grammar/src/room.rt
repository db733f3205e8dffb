// What a parser may still use.

ghost use Rattle.std.specs.Prelude.{◌≡◌, ◌-◌, ◌<◌, ◌≤◌, length, IfOk, MatchResult};

use crate::misread::Misread;
use crate::token::Placed;
use std::alloc::Global;
use text::Memory;

/// The allocator, how deep formulas may still nest, and how many parentheses may still open.
#[derive(Clone, Copy)]
pub struct Room {
    pub alloc: Global,
    pub depth: usize,
    pub parens: usize,
}

/// The value in a box.
pub fn boxed<T: Drop>(alloc: Global, value: T) -> Result<Box<T>, Memory>
    ensures { IfOk result (λ held. held.value ≡ value) }
{
    Ok(Box::new(alloc, value)?)
}

impl Room {
    /// The room below the operator that is the first of these tokens, one of whose operands nests as deep as this; the
    /// operator is refused where there is none.
    pub fn below(self, tokens: &[Placed<'_>], height: usize) -> Result<Room, Misread>
        ensures { MatchResult result
            (λ room. (height < self.depth) × (room ≡ record self { depth = self.depth - 1 }))
            (λ e. (self.depth ≤ height) × (e ≡ Misread.TooLarge (length tokens.now))) }
    {
        if self.depth <= height {
            return Err(Misread::too_large(tokens));
        }
        Ok(Room {
            alloc: self.alloc,
            depth: self.depth - 1,
            parens: self.parens,
        })
    }

    /// The room inside the parenthesis that is the first of these tokens; it is refused where there is none.
    pub fn inside(self, tokens: &[Placed<'_>]) -> Result<Room, Misread>
        ensures { MatchResult result
            (λ room. (0 < self.parens) × (room ≡ record self { parens = self.parens - 1 }))
            (λ e. (self.parens ≡ 0) × (e ≡ Misread.TooLarge (length tokens.now))) }
    {
        if self.parens == 0 {
            return Err(Misread::too_large(tokens));
        }
        Ok(Room {
            alloc: self.alloc,
            depth: self.depth,
            parens: self.parens - 1,
        })
    }
}
