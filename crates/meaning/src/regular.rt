// Where a regular formula leads.

ghost use Rattle.std.specs.Prelude.{◌≡◌, length, IfOk};
ghost use Rattle.systems.specs.System.{IsSystem};
ghost use Rattle.calculus.specs.Tree.{Star, Plus};
ghost use Rattle.calculus.specs.View.{regular_of};
ghost use Rattle.calculus.specs.Meaning.{MarksOf};
ghost use Rattle.meaning.specs.Into.{Into};

use crate::actions::before;
use crate::search::reaching_by;
use crate::sets::{is_within, union};
use crate::signs::{has_star, without_signs_behind};
use calculus::tree::Reg;
use std::alloc::{AllocError, Global};
use systems::system::Lts;

/// The states from which steps lead into a set: any number of them, and at least one.
#[derive(Drop)]
struct Reach {
    any: Vec<bool>,
    some: Vec<bool>,
}

/// The states from which steps of a regular formula lead into the set. It ends once one more step adds no state.
#[cycle(regular)]
fn reaching(alloc: Global, lts: &Lts, step: &Reg, marks: &[bool]) -> Result<Reach, AllocError>
    requires system { IsSystem lts.now.system }
    requires count { length marks.now ≡ lts.now.system.states }
    ensures any { IfOk result (λ reach. MarksOf lts.now.system.states reach.any.items (Into lts.now.system (Star (regular_of step.now)) marks.now)) }
    ensures some { IfOk result (λ reach. MarksOf lts.now.system.states reach.some.items (Into lts.now.system (Plus (regular_of step.now)) marks.now)) }
{
    let mut any = marks.to_vec(alloc)?;
    loop {
        let some = leading(alloc, lts, step, &any)?;
        if is_within(&some, &any) {
            return Ok(Reach { any, some });
        }
        any = union(any, &some);
    }
}

/// The states from which any number of steps of a regular formula lead into the set.
#[cycle(regular)]
fn any_number(alloc: Global, lts: &Lts, step: &Reg, marks: &[bool]) -> Result<Vec<bool>, AllocError>
    requires system { IsSystem lts.now.system }
    requires count { length marks.now ≡ lts.now.system.states }
    ensures { IfOk result (λ found. MarksOf lts.now.system.states found.items (Into lts.now.system (Star (regular_of step.now)) marks.now)) }
{
    if let Reg::Act(action) = step {
        return reaching_by(alloc, lts, action, marks);
    }
    let reach = reaching(alloc, lts, step, marks)?;
    Ok(reach.any)
}

/// The states from which at least one step of a regular formula leads into the set.
#[cycle(regular)]
fn at_least_one(
    alloc: Global,
    lts: &Lts,
    step: &Reg,
    marks: &[bool],
) -> Result<Vec<bool>, AllocError>
    requires system { IsSystem lts.now.system }
    requires count { length marks.now ≡ lts.now.system.states }
    ensures { IfOk result (λ found. MarksOf lts.now.system.states found.items (Into lts.now.system (Plus (regular_of step.now)) marks.now)) }
{
    if let Reg::Act(action) = step {
        let any = reaching_by(alloc, lts, action, marks)?;
        return before(alloc, lts, action, &any);
    }
    let reach = reaching(alloc, lts, step, marks)?;
    Ok(reach.some)
}

/// The states from which the regular formula leads into the set.
#[cycle(regular)]
pub fn leading(
    alloc: Global,
    lts: &Lts,
    regular: &Reg,
    marks: &[bool],
) -> Result<Vec<bool>, AllocError>
    requires system { IsSystem lts.now.system }
    requires count { length marks.now ≡ lts.now.system.states }
    ensures { IfOk result (λ found. MarksOf lts.now.system.states found.items (Into lts.now.system (regular_of regular.now) marks.now)) }
{
    match regular {
        Reg::Act(action) => before(alloc, lts, action, marks),
        Reg::Seq(first, second) => {
            let middle = leading(alloc, lts, second, marks)?;
            leading(alloc, lts, first, &middle)
        }
        Reg::Choice(left, right) => {
            let one = leading(alloc, lts, left, marks)?;
            let other = leading(alloc, lts, right, marks)?;
            Ok(union(one, &other))
        }
        Reg::Star(step) => any_number(alloc, lts, without_signs_behind(step), marks),
        Reg::Plus(step) => {
            if has_star(step) {
                any_number(alloc, lts, without_signs_behind(step), marks)
            } else {
                at_least_one(alloc, lts, without_signs_behind(step), marks)
            }
        }
    }
}
