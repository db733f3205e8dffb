// The nodes of a part of a normal form, written in preorder, with priorities that were found before.

ghost use Rattle.std.specs.Prelude.{◌≡◌, ◌+◌, ◌<◌, ◌≤◌, ◌++◌, ◌∷◌, [], slice_index, vec_len, OnOk};
ghost use Rattle.calculus.specs.View.{action_of, regular_of, formula_of};
ghost use Rattle.calculus.specs.NormalTree.{size, two, modal, loop_of, norm, Modality, Fixpoint, ConstantNode, JunctionNode, ModalityNode, FixpointNode};
ghost use Rattle.calculus.specs.NodeView.{shape_of, nodes_of};
ghost use Rattle.normal.specs.Part.{tree_of, binders_of};
ghost use Rattle.normal.specs.Writes.{Writes};

use crate::action::copied_action;
use crate::part::{NumberedScope, Part, binder_of};
use calculus::limits::MOST_NODES;
use calculus::node::{Kind, Node};
use calculus::tree::{Act, Reg, State};
use std::alloc::{AllocError, Global};

fn constant(flag: bool) -> Kind
    ensures { shape_of result ≡ ConstantNode flag }
{
    if flag { Kind::True } else { Kind::False }
}

fn junction_of(flag: bool, left: u32, right: u32) -> Kind
    ensures { shape_of result ≡ JunctionNode flag left right }
{
    if flag {
        Kind::Or(left, right)
    } else {
        Kind::And(left, right)
    }
}

fn modality_of(flag: bool, action: Act, child: u32) -> Kind
    ensures { shape_of result ≡ ModalityNode flag (action_of action) child }
{
    if flag {
        Kind::Dia(action, child)
    } else {
        Kind::Box(action, child)
    }
}

fn fixpoint_of(flag: bool, child: u32) -> Kind
    ensures { shape_of result ≡ FixpointNode flag child }
{
    if flag {
        Kind::Mu(child)
    } else {
        Kind::Nu(child)
    }
}

/// The nodes of a tree as they are written, in preorder.
#[derive(Drop)]
pub struct Preorder<'p> {
    alloc: Global,
    /// Those that are written.
    pub nodes: Vec<Node>,
    /// The priorities of all of them, by number.
    priorities: &'p [u32; MOST_NODES],
}

impl<'p> Preorder<'p> {
    /// No nodes yet.
    pub fn new(alloc: Global, priorities: &'p [u32; MOST_NODES]) -> Self
        ensures nodes { result.nodes.items ≡ [] }
        ensures priorities { result.priorities.now ≡ priorities.now }
    {
        Preorder {
            alloc,
            nodes: Vec::new(alloc),
            priorities,
        }
    }

    // One more node, with the priority of its number.
    fn leaf(&mut self, kind: Kind) -> Result<(), AllocError>
        requires { vec_len self.old.nodes < MOST_NODES }
        ensures nodes { OnOk result (nodes_of self.new.nodes.items ≡ nodes_of self.old.nodes.items
            ++ record { shape = shape_of kind; priority = slice_index self.old.priorities.now (vec_len self.old.nodes) } ∷ []) }
        ensures count { OnOk result (vec_len self.new.nodes ≡ vec_len self.old.nodes + 1) }
        ensures priorities { self.new.priorities ≡ self.old.priorities }
    {
        let priority = self.priorities[self.nodes.len()];
        self.nodes.push(Node { kind, priority })?;
        Ok(())
    }

    /// The nodes of a part, after those that are there, each with the priority of its number.
    #[cycle(part)]
    pub fn part<'a>(&mut self, part: &'a Part<'a>) -> Result<(), AllocError>
        requires { vec_len self.old.nodes + size (tree_of part.now (vec_len self.old.nodes)) ≤ MOST_NODES }
        ensures { OnOk result (Writes self.old self.new (tree_of part.now (vec_len self.old.nodes))) }
    {
        match part {
            Part::Variable(binder) => self.leaf(Kind::Var(*binder)),
            Part::Formula(flag, formula, scope) => self.formula(*flag, formula, scope),
            Part::Two(flag, left, right) => self.junction(*flag, left, right),
            Part::Modal(flag, regular, operand) => self.modal(*flag, regular, operand),
            Part::Loop(flag, regular, operand) => self.iteration(*flag, regular, operand),
        }
    }

    #[cycle(part)]
    fn formula<'a>(
        &mut self,
        flag: bool,
        formula: &'a State,
        scope: &'a NumberedScope<'a>,
    ) -> Result<(), AllocError>
        requires { vec_len self.old.nodes + size (norm flag (binders_of scope.now) (formula_of formula.now) (vec_len self.old.nodes)) ≤ MOST_NODES }
        ensures { OnOk result (Writes self.old self.new (norm flag (binders_of scope.now) (formula_of formula.now) (vec_len self.old.nodes))) }
    {
        let at = self.nodes.len() as u32;
        match formula {
            State::True => self.leaf(constant(flag)),
            State::False => self.leaf(constant(!flag)),
            State::Var(name) => self.leaf(Kind::Var(binder_of(scope, name))),
            State::Not(f) => self.formula(!flag, f, scope),
            State::And(f, g) => {
                let left = Part::Formula(flag, f, scope);
                self.junction(!flag, &left, &Part::Formula(flag, g, scope))
            }
            State::Or(f, g) => {
                let left = Part::Formula(flag, f, scope);
                self.junction(flag, &left, &Part::Formula(flag, g, scope))
            }
            State::Implies(f, g) => {
                let left = Part::Formula(!flag, f, scope);
                self.junction(flag, &left, &Part::Formula(flag, g, scope))
            }
            State::Dia(r, f) => self.modal(flag, r, &Part::Formula(flag, f, scope)),
            State::Box(r, f) => self.modal(!flag, r, &Part::Formula(flag, f, scope)),
            State::Mu(name, f) => {
                let scope = NumberedScope::Binder(name, at, scope);
                self.fixpoint(flag, &Part::Formula(flag, f, &scope))
            }
            State::Nu(name, f) => {
                let scope = NumberedScope::Binder(name, at, scope);
                self.fixpoint(!flag, &Part::Formula(flag, f, &scope))
            }
        }
    }

    #[cycle(part)]
    fn modal<'a>(
        &mut self,
        flag: bool,
        regular: &'a Reg,
        operand: &'a Part<'a>,
    ) -> Result<(), AllocError>
        requires { vec_len self.old.nodes + size (modal flag (regular_of regular.now) (tree_of operand.now) (vec_len self.old.nodes)) ≤ MOST_NODES }
        ensures { OnOk result (Writes self.old self.new (modal flag (regular_of regular.now) (tree_of operand.now) (vec_len self.old.nodes))) }
    {
        match regular {
            Reg::Act(action) => self.modality(flag, action, operand),
            Reg::Seq(r, s) => self.modal(flag, r, &Part::Modal(flag, s, operand)),
            Reg::Choice(r, s) => {
                let left = Part::Modal(flag, r, operand);
                self.junction(flag, &left, &Part::Modal(flag, s, operand))
            }
            Reg::Star(r) => self.iteration(flag, r, operand),
            Reg::Plus(r) => self.modal(flag, r, &Part::Loop(flag, r, operand)),
        }
    }

    #[cycle(part)]
    fn iteration<'a>(
        &mut self,
        flag: bool,
        regular: &'a Reg,
        operand: &'a Part<'a>,
    ) -> Result<(), AllocError>
        requires { vec_len self.old.nodes + size (loop_of flag (modal flag (regular_of regular.now)) (tree_of operand.now)
            (vec_len self.old.nodes)) ≤ MOST_NODES }
        ensures { OnOk result (Writes self.old self.new (loop_of flag (modal flag (regular_of regular.now)) (tree_of operand.now) (vec_len self.old.nodes))) }
    {
        let variable = Part::Variable(self.nodes.len() as u32);
        let again = Part::Modal(flag, &*regular, &variable);
        self.fixpoint(flag, &Part::Two(flag, &*operand, &again))
    }

    #[cycle(part)]
    fn junction<'a>(
        &mut self,
        flag: bool,
        left: &'a Part<'a>,
        right: &'a Part<'a>,
    ) -> Result<(), AllocError>
        requires { vec_len self.old.nodes + size (two flag (tree_of left.now) (tree_of right.now) (vec_len self.old.nodes)) ≤ MOST_NODES }
        ensures { OnOk result (Writes self.old self.new (two flag (tree_of left.now) (tree_of right.now) (vec_len self.old.nodes))) }
    {
        let at = self.nodes.len();
        self.leaf(Kind::True)?;
        self.part(left)?;
        let middle = self.nodes.len() as u32;
        self.part(right)?;
        self.nodes[at].kind = junction_of(flag, at as u32 + 1, middle);
        Ok(())
    }

    #[cycle(part)]
    fn modality<'a>(
        &mut self,
        flag: bool,
        action: &'a Act,
        operand: &'a Part<'a>,
    ) -> Result<(), AllocError>
        requires { vec_len self.old.nodes + size (Modality flag (action_of action.now) (tree_of operand.now (vec_len self.old.nodes + 1))) ≤ MOST_NODES }
        ensures { OnOk result (Writes self.old self.new (Modality flag (action_of action.now) (tree_of operand.now (vec_len self.old.nodes + 1)))) }
    {
        let at = self.nodes.len() as u32;
        let action = copied_action(self.alloc, action)?;
        self.leaf(modality_of(flag, action, at + 1))?;
        self.part(operand)
    }

    #[cycle(part)]
    fn fixpoint<'a>(&mut self, flag: bool, operand: &'a Part<'a>) -> Result<(), AllocError>
        requires { vec_len self.old.nodes + size (Fixpoint flag (tree_of operand.now (vec_len self.old.nodes + 1))) ≤ MOST_NODES }
        ensures { OnOk result (Writes self.old self.new (Fixpoint flag (tree_of operand.now (vec_len self.old.nodes + 1)))) }
    {
        let at = self.nodes.len() as u32;
        self.leaf(fixpoint_of(flag, at + 1))?;
        self.part(operand)
    }
}
