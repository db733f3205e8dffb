// Words of a formula that no label of the system has. Most of them are slips.

ghost use Rattle.std.specs.Prelude.{◌≡◌, ◌&&◌, ◌||◌, not, nat_lt, length, IfOk, OnOk, fold, map};
ghost use Rattle.std.specs.List.{list_any};
ghost use Rattle.std.specs.Str.{bytes_eq};
ghost use Rattle.calculus.specs.Closed.{closed_formula};
ghost use Rattle.calculus.specs.View.{action_of, formula_of, regular_of};
ghost use Rattle.systems.specs.Label.{texts};
ghost use Rattle.formula.specs.Noted.{is_known, knows, with_term};
ghost use Rattle.formula.specs.Strange.{Atom, Name, action_terms, formula_terms, has_term, regular_terms, same_term, strange_terms, name_or_atom};

use calculus::closed::Closed;
use calculus::tree::{Act, Reg, State};
use std::alloc::{AllocError, Global};
use std::collections::HashSet;
use systems::label::LabelView;
use systems::system::Lts;
use text::Memory;

/// How many are told of at most.
pub const MOST_NOTES: usize = 10;

/// A name of a multi-action, or a quoted atom.
#[derive(Clone, Copy, Debug, PartialEq, Eq)]
pub enum Word<'a> {
    Name(&'a [u8]),
    Atom(&'a [u8]),
}

impl<'a> Word<'a> {
    // Whether it is the other one.
    fn is(self, other: Word<'_>) -> bool
        ensures { result ≡ same_term (name_or_atom self.entry) (name_or_atom other.entry) }
    {
        match (self, other) {
            (Word::Name(a), Word::Name(b)) | (Word::Atom(a), Word::Atom(b)) => a == b,
            _ => false,
        }
    }
}

/// The labels of a system, and the names that they are read as.
#[derive(Drop)]
pub(crate) struct Known<'a> {
    labels: HashSet<&'a [u8]>,
    names: HashSet<&'a [u8]>,
}

impl<'a> Known<'a> {
    // One more label.
    fn add(&mut self, label: LabelView<'a>) -> Result<(), AllocError>
        ensures { OnOk result ((t : _) → knows self.new t ≡ (knows self.old t || has_term t label.entry.bytes.now)) }
    {
        self.labels.insert(label.bytes)?;
        match label.names {
            Some(names) => add_names(&mut self.names, names),
            None => Ok(()),
        }
    }

    // Whether the word is among them.
    pub(crate) fn has(&self, word: Word<'_>) -> bool
        ensures { result ≡ knows self.now (name_or_atom word.entry) }
    {
        match word {
            Word::Name(bytes) => self.names.contains(&bytes),
            Word::Atom(bytes) => self.labels.contains(&bytes),
        }
    }
}

// Adds names to a set.
fn add_names<'a>(set: &mut HashSet<&'a [u8]>, names: &'a [Vec<u8>]) -> Result<(), AllocError>
    ensures { OnOk result ((bytes : _) → list_any (λ name. bytes_eq bytes name.now) set.new.keys
        ≡ (list_any (λ name. bytes_eq bytes name.now) set.old.keys || list_any (λ name. bytes_eq name bytes) (texts names.entry.now))) }
{
    for name in names {
        set.insert(name.as_slice())?;
    }
    Ok(())
}

// All labels of a system. A system has fewer of them than a number of a label can tell apart; where it hadn't, there would be no
// room for them either.
pub(crate) fn known_in<'a>(alloc: Global, system: &'a Lts) -> Result<Known<'a>, AllocError>
    ensures { IfOk result (λ known. (t : _) → knows known t ≡ is_known system.entry.now.labels t) }
{
    let mut known = Known {
        labels: HashSet::new(alloc),
        names: HashSet::new(alloc),
    };
    for number in 0..system.labels() {
        let Ok(number) = u32::try_from(number) else {
            return Err(AllocError);
        };
        known.add(system.label(number))?;
    }
    Ok(known)
}

// Whether the word stands there.
fn stands_in(word: Word<'_>, found: &[Word<'_>]) -> bool
    ensures { result ≡ list_any (λ other. same_term (name_or_atom word.entry) (name_or_atom other)) found.now }
{
    found.iter().any(|other| word.is(*other))
}

// Whether the word is to be noted: enough aren't noted yet, nor is it, and no label has it.
fn is_next(known: &Known<'_>, word: Word<'_>, found: &[Word<'_>]) -> bool
    ensures { result ≡ (nat_lt (length found.now) MOST_NOTES && not (list_any (λ other. same_term (name_or_atom word.entry) (name_or_atom other)) found.now)
        && not (knows known.now (name_or_atom word.entry))) }
{
    found.len() < MOST_NOTES && !stands_in(word, found) && !known.has(word)
}

// Notes a word, if it is to be noted.
fn note<'a>(known: &Known<'_>, word: Word<'a>, found: &mut Vec<Word<'a>>) -> Result<(), AllocError>
    ensures { OnOk result (map name_or_atom found.new.items ≡ with_term (knows known.now) (map name_or_atom found.old.items) (name_or_atom word.entry)) }
{
    if is_next(known, word, found) {
        found.push(word)?;
    }
    Ok(())
}

// Notes the names of a multi-action.
fn note_names<'a>(
    known: &Known<'_>,
    names: &'a [Vec<u8>],
    found: &mut Vec<Word<'a>>,
) -> Result<(), AllocError>
    ensures { OnOk result (map name_or_atom found.new.items ≡ fold (with_term (knows known.now)) (map name_or_atom found.old.items) (map Name (texts names.entry.now))) }
{
    for name in names {
        note(known, Word::Name(name.as_slice()), found)?;
    }
    Ok(())
}

// Notes the words of an action formula.
fn note_action<'a>(
    known: &Known<'_>,
    action: &'a Act,
    found: &mut Vec<Word<'a>>,
) -> Result<(), AllocError>
    ensures { OnOk result (map name_or_atom found.new.items ≡ fold (with_term (knows known.now)) (map name_or_atom found.old.items)
        (action_terms (action_of action.entry.now))) }
{
    match action {
        Act::True | Act::False => Ok(()),
        Act::Names(names) => note_names(known, names, found),
        Act::Quoted(bytes) => note(known, Word::Atom(bytes.as_slice()), found),
        Act::Not(operand) => note_action(known, operand, found),
        Act::And(left, right) | Act::Or(left, right) | Act::Implies(left, right) => {
            note_action(known, left, found)?;
            note_action(known, right, found)
        }
    }
}

// Notes the words of a regular formula.
fn note_regular<'a>(
    known: &Known<'_>,
    regular: &'a Reg,
    found: &mut Vec<Word<'a>>,
) -> Result<(), AllocError>
    ensures { OnOk result (map name_or_atom found.new.items ≡ fold (with_term (knows known.now)) (map name_or_atom found.old.items)
        (regular_terms (regular_of regular.entry.now))) }
{
    match regular {
        Reg::Act(action) => note_action(known, action, found),
        Reg::Seq(left, right) | Reg::Choice(left, right) => {
            note_regular(known, left, found)?;
            note_regular(known, right, found)
        }
        Reg::Star(operand) | Reg::Plus(operand) => note_regular(known, operand, found),
    }
}

// Notes the words of a formula.
fn note_formula<'a>(
    known: &Known<'_>,
    formula: &'a State,
    found: &mut Vec<Word<'a>>,
) -> Result<(), AllocError>
    ensures { OnOk result (map name_or_atom found.new.items ≡ fold (with_term (knows known.now)) (map name_or_atom found.old.items)
        (formula_terms (formula_of formula.entry.now))) }
{
    match formula {
        State::True | State::False | State::Var(_) => Ok(()),
        State::Not(operand) | State::Mu(_, operand) | State::Nu(_, operand) => {
            note_formula(known, operand, found)
        }
        State::And(left, right) | State::Or(left, right) | State::Implies(left, right) => {
            note_formula(known, left, found)?;
            note_formula(known, right, found)
        }
        State::Dia(regular, operand) | State::Box(regular, operand) => {
            note_regular(known, regular, found)?;
            note_formula(known, operand, found)
        }
    }
}

/// The words of the formula that no label of the system has, in their order, each once, and no more than ten: names of
/// multi-actions and quoted atoms. `true`, `false` and `tau` are none.
///
/// # Errors
/// Out of memory, and nothing else.
pub fn strange_words<'a>(
    alloc: Global,
    system: &Lts,
    formula: &'a Closed,
) -> Result<Vec<Word<'a>>, Memory>
    ensures { IfOk result (λ words. map name_or_atom words.items ≡ strange_terms system.now (closed_formula formula.entry.now)) }
{
    match strange_in(alloc, system, formula.tree()) {
        Ok(words) => Ok(words),
        Err(AllocError) => Err(Memory),
    }
}

fn strange_in<'a>(
    alloc: Global,
    system: &Lts,
    formula: &'a State,
) -> Result<Vec<Word<'a>>, AllocError>
    ensures { IfOk result (λ words. map name_or_atom words.items ≡ strange_terms system.now (formula_of formula.entry.now)) }
{
    let known = known_in(alloc, system)?;
    let mut found = Vec::new(alloc);
    note_formula(&known, formula, &mut found)?;
    Ok(found)
}
