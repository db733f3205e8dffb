// Copies of action formulas.

ghost use Rattle.std.specs.Prelude.{◌≡◌, IfOk, map};
ghost use Rattle.calculus.specs.View.{action_of};

use calculus::tree::Act;
use std::alloc::{AllocError, Global};

// A copy of a list of names.
fn copied_names(alloc: Global, names: &[Vec<u8>]) -> Result<Vec<Vec<u8>>, AllocError>
    ensures { IfOk result (λ copy. map (λ name. name.items) copy.items ≡ map (λ name. name.items) names.now) }
{
    let mut copy = Vec::new(alloc);
    for name in names {
        copy.push(Vec::from_slice(alloc, name)?)?;
    }
    Ok(copy)
}

/// A copy of an action formula.
#[cycle(copies)]
pub fn copied_action(alloc: Global, action: &Act) -> Result<Act, AllocError>
    ensures { IfOk result (λ copy. action_of copy ≡ action_of action.now) }
{
    match action {
        Act::True => Ok(Act::True),
        Act::False => Ok(Act::False),
        Act::Names(names) => Ok(Act::Names(copied_names(alloc, names)?)),
        Act::Quoted(bytes) => Ok(Act::Quoted(Vec::from_slice(alloc, bytes)?)),
        Act::Not(operand) => Ok(Act::Not(boxed(alloc, operand)?)),
        Act::And(left, right) => Ok(Act::And(boxed(alloc, left)?, boxed(alloc, right)?)),
        Act::Or(left, right) => Ok(Act::Or(boxed(alloc, left)?, boxed(alloc, right)?)),
        Act::Implies(left, right) => Ok(Act::Implies(boxed(alloc, left)?, boxed(alloc, right)?)),
    }
}

#[cycle(copies)]
fn boxed(alloc: Global, action: &Act) -> Result<Box<Act>, AllocError>
    ensures { IfOk result (λ copy. action_of copy.value ≡ action_of action.now) }
{
    let copy = copied_action(alloc, action)?;
    Ok(Box::new(alloc, copy)?)
}
