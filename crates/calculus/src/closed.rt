// Admitted formulas.

ghost use Rattle.std.specs.Prelude.{◌≡◌, IfOk};
ghost use Rattle.calculus.specs.View.{formula_of};
ghost use Rattle.calculus.specs.Admitted.{IsAdmitted};

use crate::tree::State;
use std::alloc::Global;
use text::Memory;

/// A formula in which each variable may stand where it does. Its tree is in a box, so that whoever owns it owns one thing.
#[derive(Drop)]
pub struct Closed {
    tree: Box<State>,
    ghost admitted: { IsAdmitted (formula_of tree.value) },
}

impl Closed {
    /// The tree as an admitted formula. The caller has tested it, as the reader of formulas does.
    ///
    /// # Errors
    /// Out of memory.
    pub fn new(alloc: Global, tree: State) -> Result<Closed, Memory>
        requires { IsAdmitted (formula_of tree) }
        ensures { IfOk result (λ closed. formula_of closed.tree.value ≡ formula_of tree) }
    {
        let tree = Box::new(alloc, tree)?;
        Ok(Closed { tree })
    }

    /// The formula's tree.
    pub fn tree(&self) -> &State
        ensures { formula_of result.now ≡ formula_of self.now.tree.value }
    {
        &self.tree
    }
}
