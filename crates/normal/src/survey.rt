// The priorities of a normal form's nodes, found without memory and before any node is made.

ghost use Rattle.std.specs.Prelude.{◌≡◌, ℕ, ◌+◌, ◌<◌, ◌≤◌, ◌^◌, max, ◌≢◌, Bool, true, length, slice_index, slice_set};
ghost use Rattle.calculus.specs.View.{regular_of, formula_of};
ghost use Rattle.calculus.specs.Tree.{Action};
ghost use Rattle.calculus.specs.NormalTree.{Variable, Modality, Fixpoint, size, two, modal, loop_of, norm};
ghost use Rattle.calculus.specs.Nodes.{parity_from};
ghost use Rattle.normal.specs.Part.{tree_of, binders_of};
ghost use Rattle.normal.specs.Surveys.{open_at, opened, seen_open, raised, chosen, IsFixpointOf, AreBefore, Surveys};

use crate::part::{NumberedScope, Part, binder_of};
use calculus::limits::MOST_NODES;
use calculus::priorities::Priorities;
use calculus::tree::{Reg, State};

/// A binder whose operand is being surveyed.
#[derive(Clone, Copy)]
struct OpenBinder {
    /// The number of its node.
    number: u32,
    /// The number of its variable's last node so far, or its own.
    last: u32,
    /// The greatest priority so far of the binders inside it in whose operand its variable stands.
    above: u32,
}

const CLOSED: OpenBinder = OpenBinder {
    number: 0,
    last: 0,
    above: 0,
};

/// Where a part stands.
#[derive(Clone, Copy)]
pub struct PartPlace {
    /// The number of its first node.
    at: u32,
    /// How many binders are around it.
    level: u32,
}

impl PartPlace {
    /// That of a whole tree.
    pub const ROOT: PartPlace = PartPlace { at: 0, level: 0 };

    // That of the operand of a binder.
    fn inside(self) -> Self
        requires at { self.at < MOST_NODES }
        requires level { self.level < MOST_NODES }
        ensures { result ≡ record { at = self.at + 1; level = self.level + 1 } }
    {
        PartPlace {
            at: self.at + 1,
            level: self.level + 1,
        }
    }

    // That of a part with this number, with the same binders around it.
    fn beside(self, at: u32) -> Self
        ensures { result ≡ record { at = at; level = self.level } }
    {
        PartPlace {
            at,
            level: self.level,
        }
    }
}

/// What is known of a part.
#[derive(Clone, Copy)]
pub struct Summary {
    /// The number past its nodes.
    next: u32,
    /// The greatest priority by the nested rule.
    nested: u32,
    /// The greatest priority by the chosen rule.
    pub greatest: u32,
    /// The longest chain of nested binders of alternating kinds that begins with a least fixpoint.
    from_least: u32,
    /// The longest one that begins with a greatest fixpoint.
    from_greatest: u32,
}

/// The priorities of the nodes that were seen, by number, and the binders that are open, the outermost first.
#[derive(Drop)]
pub struct Survey {
    rule: Priorities,
    pub priorities: [u32; MOST_NODES],
    opens: [OpenBinder; MOST_NODES],
}

impl Summary {
    /// The longest chain of nested binders whose kinds alternate.
    pub fn depth(self) -> u32
        ensures { result ≡ max self.from_least self.from_greatest }
    {
        self.from_least.max(self.from_greatest)
    }
}

// What is known of two parts together, of which the second follows the first.
fn together(first: Summary, second: Summary) -> Summary
    ensures { result ≡ record {
      next = second.next;
      nested = max first.nested second.nested;
      greatest = max first.greatest second.greatest;
      from_least = max first.from_least second.from_least;
      from_greatest = max first.from_greatest second.from_greatest;
    } }
{
    Summary {
        next: second.next,
        nested: first.nested.max(second.nested),
        greatest: first.greatest.max(second.greatest),
        from_least: first.from_least.max(second.from_least),
        from_greatest: first.from_greatest.max(second.from_greatest),
    }
}

// The least number of the fixpoint's parity from this one on.
fn of_parity(flag: bool, number: u32) -> u32
    requires { number < 2 ^ 31 }
    ensures { result ≡ parity_from flag number }
{
    let odd = number % 2;
    if flag {
        number + (1 - odd)
    } else {
        number + odd
    }
}

// What is known of a fixpoint of a part, where the chosen rule gives its binder this priority.
fn of_fixpoint(flag: bool, inside: Summary, priority: u32) -> Summary
    requires nested { inside.nested < 2 ^ 31 }
    requires from_least { inside.from_least < 2 ^ 31 }
    requires from_greatest { inside.from_greatest < 2 ^ 31 }
    ensures { IsFixpointOf flag inside priority result }
{
    let (from_least, from_greatest) = if flag {
        (
            inside.from_least.max(1 + inside.from_greatest),
            inside.from_greatest,
        )
    } else {
        (
            inside.from_least,
            inside.from_greatest.max(1 + inside.from_least),
        )
    };
    Summary {
        next: inside.next,
        nested: of_parity(flag, inside.nested),
        greatest: priority.max(inside.greatest),
        from_least,
        from_greatest,
    }
}

// The variable of a binder was seen.
fn see(opens: &mut [OpenBinder], level: u32, binder: u32, at: u32)
    requires { level ≤ length opens.old }
    ensures { (i : ℕ) → i < level → open_at opens.new i ≡ seen_open binder at (open_at opens.old i) }
{
    for i in 0..level as usize {
        if opens[i].number == binder {
            opens[i].last = at;
        }
    }
}

// A binder has this priority: that counts for those around it whose variables were seen inside it.
fn raise(opens: &mut [OpenBinder], level: u32, at: u32, priority: u32)
    requires { level ≤ length opens.old }
    ensures { (i : ℕ) → i < level → open_at opens.new i ≡ raised at priority (open_at opens.old i) }
{
    for i in 0..level as usize {
        if opens[i].last > at {
            opens[i].above = opens[i].above.max(priority);
        }
    }
}

impl Survey {
    /// Nothing was surveyed yet.
    pub fn new(rule: Priorities) -> Self
        ensures { result.rule ≡ rule }
    {
        Survey {
            rule,
            priorities: [0; MOST_NODES],
            opens: [CLOSED; MOST_NODES],
        }
    }

    // A node that binds nothing.
    fn leaf(&mut self, place: PartPlace) -> Summary
        requires { place.at < MOST_NODES }

        ensures priorities { self.new.priorities ≡ slice_set self.old.priorities place.at 0 }
        ensures opens { self.new.opens ≡ self.old.opens }
        ensures rule { self.new.rule ≡ self.old.rule }
        ensures summary { result ≡ record { next = place.at + 1; nested = 0; greatest = 0; from_least = 0; from_greatest = 0 } }
    {
        self.priorities[place.at as usize] = 0;
        Summary {
            next: place.at + 1,
            nested: 0,
            greatest: 0,
            from_least: 0,
            from_greatest: 0,
        }
    }

    // A variable of this binder.
    fn variable(&mut self, place: PartPlace, binder: u32) -> Summary
        requires room { place.at < MOST_NODES }
        requires level { place.level ≤ place.at }
        ensures { Surveys self.old self.new place (Variable binder) result }
    {
        see(&mut self.opens, place.level, binder, place.at);
        self.leaf(place)
    }

    /// The priorities of a part's nodes.
    #[cycle(survey)]
    pub fn part<'a>(&mut self, place: PartPlace, part: &'a Part<'a>) -> Summary
        requires room { place.at + size (tree_of part.now place.at) ≤ MOST_NODES }
        requires level { place.level ≤ place.at }
        requires before { AreBefore self.old.opens place.level place.at }
        ensures { Surveys self.old self.new place (tree_of part.now place.at) result }
    {
        match part {
            Part::Variable(binder) => self.variable(place, *binder),
            Part::Formula(flag, formula, scope) => self.formula(place, *flag, formula, scope),
            Part::Two(flag, left, right) => self.junction(place, left, right),
            Part::Modal(flag, regular, operand) => self.modal(place, *flag, regular, operand),
            Part::Loop(flag, regular, operand) => self.iteration(place, *flag, regular, operand),
        }
    }

    #[cycle(survey)]
    fn formula<'a>(
        &mut self,
        place: PartPlace,
        flag: bool,
        formula: &'a State,
        scope: &'a NumberedScope<'a>,
    ) -> Summary
        requires room { place.at + size (norm flag (binders_of scope.now) (formula_of formula.now) place.at) ≤ MOST_NODES }
        requires level { place.level ≤ place.at }
        requires before { AreBefore self.old.opens place.level place.at }
        ensures { Surveys self.old self.new place (norm flag (binders_of scope.now) (formula_of formula.now) place.at) result }
    {
        match formula {
            State::True | State::False => self.leaf(place),
            State::Var(name) => self.variable(place, binder_of(scope, name)),
            State::Not(f) => self.formula(place, !flag, f, scope),
            State::And(f, g) => {
                let left = Part::Formula(flag, f, scope);
                self.junction(place, &left, &Part::Formula(flag, g, scope))
            }
            State::Or(f, g) => {
                let left = Part::Formula(flag, f, scope);
                self.junction(place, &left, &Part::Formula(flag, g, scope))
            }
            State::Implies(f, g) => {
                let left = Part::Formula(!flag, f, scope);
                self.junction(place, &left, &Part::Formula(flag, g, scope))
            }
            State::Dia(r, f) => self.modal(place, flag, r, &Part::Formula(flag, f, scope)),
            State::Box(r, f) => self.modal(place, !flag, r, &Part::Formula(flag, f, scope)),
            State::Mu(name, f) => {
                let scope = NumberedScope::Binder(name, place.at, scope);
                self.fixpoint(place, flag, &Part::Formula(flag, f, &scope))
            }
            State::Nu(name, f) => {
                let scope = NumberedScope::Binder(name, place.at, scope);
                self.fixpoint(place, !flag, &Part::Formula(flag, f, &scope))
            }
        }
    }

    #[cycle(survey)]
    fn modal<'a>(
        &mut self,
        place: PartPlace,
        flag: bool,
        regular: &'a Reg,
        operand: &'a Part<'a>,
    ) -> Summary
        requires room { place.at + size (modal flag (regular_of regular.now) (tree_of operand.now) place.at) ≤ MOST_NODES }
        requires level { place.level ≤ place.at }
        requires before { AreBefore self.old.opens place.level place.at }
        ensures { Surveys self.old self.new place (modal flag (regular_of regular.now) (tree_of operand.now) place.at) result }
    {
        match regular {
            Reg::Act(_) => self.modality(place, operand),
            Reg::Seq(r, s) => self.modal(place, flag, r, &Part::Modal(flag, s, operand)),
            Reg::Choice(r, s) => self.junction(
                place,
                &Part::Modal(flag, r, operand),
                &Part::Modal(flag, s, operand),
            ),
            Reg::Star(r) => self.iteration(place, flag, r, operand),
            Reg::Plus(r) => self.modal(place, flag, r, &Part::Loop(flag, r, operand)),
        }
    }

    #[cycle(survey)]
    fn iteration<'a>(
        &mut self,
        place: PartPlace,
        flag: bool,
        regular: &'a Reg,
        operand: &'a Part<'a>,
    ) -> Summary
        requires room { place.at + size (loop_of flag (modal flag (regular_of regular.now)) (tree_of operand.now) place.at) ≤ MOST_NODES }
        requires level { place.level ≤ place.at }
        requires before { AreBefore self.old.opens place.level place.at }
        ensures { Surveys self.old self.new place (loop_of flag (modal flag (regular_of regular.now)) (tree_of operand.now) place.at) result }
    {
        let again = Part::Variable(place.at);
        self.fixpoint(
            place,
            flag,
            &Part::Two(flag, &*operand, &Part::Modal(flag, &*regular, &again)),
        )
    }

    // Two operands, joined by either sign.
    #[cycle(survey)]
    fn junction<'a>(&mut self, place: PartPlace, left: &'a Part<'a>, right: &'a Part<'a>) -> Summary
        requires room { place.at + size (two true (tree_of left.now) (tree_of right.now) place.at) ≤ MOST_NODES }
        requires level { place.level ≤ place.at }
        requires before { AreBefore self.old.opens place.level place.at }
        ensures { (flag : Bool) → Surveys self.old self.new place (two flag (tree_of left.now) (tree_of right.now) place.at) result }
    {
        let _leaf = self.leaf(place);
        let first = self.part(place.beside(place.at + 1), left);
        let second = self.part(place.beside(first.next), right);
        together(first, second)
    }

    // A step of either kind.
    #[cycle(survey)]
    fn modality<'a>(&mut self, place: PartPlace, operand: &'a Part<'a>) -> Summary
        requires room { place.at + (1 + size (tree_of operand.now (place.at + 1))) ≤ MOST_NODES }
        requires level { place.level ≤ place.at }
        requires before { AreBefore self.old.opens place.level place.at }
        ensures { (flag : Bool) (a : Action) → Surveys self.old self.new place (Modality flag a (tree_of operand.now (place.at + 1))) result }
    {
        let _leaf = self.leaf(place);
        self.part(place.beside(place.at + 1), operand)
    }

    #[cycle(survey)]
    fn fixpoint<'a>(&mut self, place: PartPlace, flag: bool, operand: &'a Part<'a>) -> Summary
        requires room { place.at + (1 + size (tree_of operand.now (place.at + 1))) ≤ MOST_NODES }
        requires level { place.level ≤ place.at }
        requires before { AreBefore self.old.opens place.level place.at }
        ensures { Surveys self.old self.new place (Fixpoint flag (tree_of operand.now (place.at + 1))) result }
    {
        self.open(place);
        let inside = self.part(place.inside(), operand);
        self.close(place, flag, inside)
    }

    // The operand of a binder begins.
    fn open(&mut self, place: PartPlace)
        requires { place.level < MOST_NODES }
        ensures opens { self.new.opens ≡ slice_set self.old.opens place.level (opened place.at) }
        ensures priorities { self.new.priorities ≡ self.old.priorities }
        ensures rule { self.new.rule ≡ self.old.rule }
    {
        self.opens[place.level as usize] = OpenBinder {
            number: place.at,
            last: place.at,
            above: 0,
        };
    }

    // It ends: the binder's priority is known, and those around it whose variables were seen since are told.
    fn close(&mut self, place: PartPlace, flag: bool, inside: Summary) -> Summary
        requires at { place.at < MOST_NODES }
        requires level { place.level < MOST_NODES }
        requires above { (open_at self.old.opens place.level).above < 2 ^ 31 }
        requires nested { inside.nested < 2 ^ 31 }
        requires from_least { inside.from_least < 2 ^ 31 }
        requires from_greatest { inside.from_greatest < 2 ^ 31 }

        ensures own { slice_index self.new.priorities place.at ≡ chosen self.old.rule flag inside.nested (open_at self.old.opens place.level).above }
        ensures others { (k : ℕ) → k ≢ place.at → slice_index self.new.priorities k ≡ slice_index self.old.priorities k }
        ensures opens { (i : ℕ) → i < place.level → open_at self.new.opens i
            ≡ raised place.at (parity_from flag (open_at self.old.opens place.level).above) (open_at self.old.opens i) }
        ensures rule { self.new.rule ≡ self.old.rule }
        ensures summary { IsFixpointOf flag inside (chosen self.old.rule flag inside.nested (open_at self.old.opens place.level).above) result }
    {
        let dependent = of_parity(flag, self.opens[place.level as usize].above);
        let priority = match self.rule {
            Priorities::Nested => of_parity(flag, inside.nested),
            Priorities::Dependent => dependent,
        };
        self.priorities[place.at as usize] = priority;
        raise(&mut self.opens, place.level, place.at, dependent);
        of_fixpoint(flag, inside, priority)
    }
}
