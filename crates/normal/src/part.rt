// Parts of a normal form before their numbers are known.

ghost use Rattle.std.specs.Prelude.{◌≡◌};

use calculus::tree::{Reg, State};

/// The binders around a place, the innermost first, with the numbers of their nodes.
#[derive(Clone, Copy)]
pub enum NumberedScope<'a> {
    Empty,
    Binder(&'a [u8], u32, &'a NumberedScope<'a>),
}

/// A part of a normal form, as a function of the number that its first node gets. Where the flag is false, it is negated.
#[derive(Clone, Copy)]
pub enum Part<'a> {
    /// A variable, by the number of its binder.
    Variable(u32),
    /// A formula in a scope.
    Formula(bool, &'a State, &'a NumberedScope<'a>),
    /// Two operands.
    Two(bool, &'a Part<'a>, &'a Part<'a>),
    /// A modality with its operand.
    Modal(bool, &'a Reg, &'a Part<'a>),
    /// The fixpoint of an iteration, with what it ends in.
    Loop(bool, &'a Reg, &'a Part<'a>),
}

ghost use Rattle.normal.specs.Part.{binders_of};

/// The number of the innermost binder of this name, or 0.
pub fn binder_of<'a>(scope: &NumberedScope<'a>, name: &[u8]) -> u32
    ensures { result ≡ binders_of scope.now name.now }
{
    match scope {
        NumberedScope::Empty => 0,
        NumberedScope::Binder(bound, number, outer) => {
            if name == *bound {
                *number
            } else {
                binder_of(outer, name)
            }
        }
    }
}
