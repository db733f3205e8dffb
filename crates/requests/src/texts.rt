// The texts of a check, read.

ghost use Rattle.std.specs.Prelude.{◌≡◌, ◌≢◌, ◌⊎◌, ℕ, List, take, IfOk, IfErr, IfSome, IsTrue, Some};
ghost use Rattle.calculus.specs.Closed.{closed_formula};
ghost use Rattle.requests.specs.Causes.{HaveCauses};
ghost use Rattle.requests.specs.declared.error.MuError.TheVariants as error;
ghost use Rattle.text.specs.Cause.{HasCause};
ghost use Rattle.requests.specs.Texts.{IsFormulaOf, IsReadRefusal, IsReadFault, IsReadingRefusal};
ghost use Rattle.requests.specs.Check.{Way, BySets, AreSpelled, RefusesCheck, IsErrorOf};
ghost use Rattle.requests.specs.Known.{AreKnown};
ghost use Rattle.requests.specs.Strict.{HasRefusedBy, IsLookRefusal, KnowsWords};
ghost use Rattle.requests.specs.Writers.{AreKept, Lent};

use crate::error::MuError;
use crate::watch::Watcher;
use calculus::closed::Closed;
use formula::absent::first_absent;
use formula::limits::LONGEST_TEXT;
use formula::parse;
use game::observer::{Silent, Stage};
use lts::reader::read_aut;
use lts::system::Lts;
use std::alloc::Global;
use std::hash::BuildHasher;
use std::io::Read;
use text::source::{Noted, Source};
use text::{Memory, ReadFault};

/// One byte more than the longest text of a formula: nothing behind it is read.
pub const FORMULA_BYTES: u64 = LONGEST_TEXT as u64 + 1;

/// A system and a formula that were read.
#[derive(Drop)]
pub struct Texts {
    pub system: Lts,
    pub formula: Closed,
}

/// Reads the system and then the formula.
///
/// # Errors
/// Those of the readers, unchanged; U3 where a read of the formula failed, U4 for memory in the engine.
pub fn read_both<L: BuildHasher + Drop, R: Source + Drop, S: Source + Drop>(
    alloc: Global,
    hasher: L,
    aut: R,
    formula: S,
) -> Result<Texts, MuError>
    ensures spelled { (first second : List ℕ) → R.remaining aut ≡ Some first → S.remaining formula ≡ Some second
        → IfOk result (λ texts. AreSpelled first second texts.system.system (closed_formula texts.formula)) }
    ensures refusal { (first second : List ℕ) → R.remaining aut ≡ Some first → S.remaining formula ≡ Some second
        → (way : Way) (writers : List Lent) → AreKept writers → IfErr result (RefusesCheck way first second writers) }
    ensures plain { IfErr result (IsErrorOf BySets) }
    ensures cause { IfErr result (HaveCauses R.can_fail S.can_fail) }
{
    read_asked(alloc, hasher, aut, formula, false, &Silent)
}

/// Reads both as `read_both` does, and tells a watcher that the system is read, that the formula is, and what both are. Where it is strict, it
/// looks for a word of the formula that is on no transition.
///
/// # Errors
/// Those of `read_both`; L1 with the place of such a word, where it is strict.
pub fn read_asked<L: BuildHasher + Drop, R: Source + Drop, S: Source + Drop, O: Watcher>(
    alloc: Global,
    hasher: L,
    aut: R,
    formula: S,
    strict: bool,
    observer: &O,
) -> Result<Texts, MuError>
    ensures spelled { (first second : List ℕ) → R.remaining aut ≡ Some first → S.remaining formula ≡ Some second
        → IfOk result (λ texts. AreSpelled first second texts.system.system (closed_formula texts.formula)) }
    ensures known { (first second : List ℕ) → R.remaining aut ≡ Some first → S.remaining formula ≡ Some second
        → IfOk result (λ _. IsTrue strict → KnowsWords first second) }

    ensures refusal { (first second : List ℕ) → R.remaining aut ≡ Some first → S.remaining formula ≡ Some second
        → (way : Way) (writers : List Lent) → AreKept writers → IfErr result (HasRefusedBy strict way first second writers) }
    ensures plain { IfErr result (λ e. IsTrue strict ⊎ IsErrorOf BySets e) }

    ensures cause { IfErr result (HaveCauses R.can_fail S.can_fail) }
{
    observer.sees(Stage::ReadingSystem);
    let system = read_aut(alloc, hasher, aut).map_err(MuError::System)?;
    observer.sees(Stage::ReadingFormula);
    let text = read_front(alloc, formula)?;
    let formula = parse_front(alloc, &text)?;
    observer.has_read(&system, &formula);
    look_where(alloc, &system, &text, strict)?;
    Ok(Texts { system, formula })
}

/// Where that is asked for, looks for a word of a formula's text that is on no transition.
///
/// # Errors
/// L1 with the place of the first such word, where it is asked for; U4.
pub fn look_where(alloc: Global, system: &Lts, text: &[u8], strict: bool) -> Result<(), MuError>
    ensures known { IfOk result (λ _. AreKnown strict system.now.system text.now) }
    ensures asked { IfErr result (λ _. IsTrue strict) }
    ensures refusal { IfErr result (IsLookRefusal system.now.system text.now) }
{
    if !strict {
        return Ok(());
    }
    match first_absent(alloc, system, text) {
        Ok(None) => Ok(()),
        Ok(Some(offset)) => Err(MuError::NoLabel { offset }),
        Err(Memory) => Err(MuError::Memory),
    }
}

/// Reads a formula. Of a text that is too long no more is read than shows it.
///
/// # Errors
/// Those of `parse`; U3 where a read failed, U4 for the memory of the text.
pub fn read_formula<S: Source + Drop>(alloc: Global, formula: S) -> Result<Closed, MuError>
    ensures spelled { IfOk result (λ f. IfSome (S.remaining formula) (λ text. IsFormulaOf text (closed_formula f))) }
    ensures refusal { (text : List ℕ) → S.remaining formula ≡ Some text → IfErr result (IsReadRefusal text) }
    ensures fault { IfErr result IsReadingRefusal }
    ensures cause { IfErr result (HasCause S.can_fail error.Read) }
{
    let front = read_front(alloc, formula)?;
    parse_front(alloc, &front)
}

/// The formula that a text spells, of which this is all, or what `read_front` answers of it.
///
/// # Errors
/// Those of `parse`.
pub fn parse_front(alloc: Global, front: &[u8]) -> Result<Closed, MuError>
    ensures spelled { (text : List ℕ) → front.now ≡ take FORMULA_BYTES text → IfOk result (λ f. IsFormulaOf text (closed_formula f)) }
    ensures refusal { (text : List ℕ) → front.now ≡ take FORMULA_BYTES text → IfErr result (IsReadRefusal text) }
    ensures fault { IfErr result IsReadingRefusal }
    ensures unread { IfErr result (λ e. e ≢ error.Read) }
{
    parse(alloc, front).map_err(MuError::Formula)
}

/// All bytes of the reader, or its first `FORMULA_BYTES`.
///
/// # Errors
/// U3 where a read failed, U4 for memory.
pub fn read_front<S: Source + Drop>(alloc: Global, reader: S) -> Result<Vec<u8>, MuError>
    ensures front { IfOk result (λ text. IfSome (S.remaining reader) (λ all. text.items ≡ take FORMULA_BYTES all)) }
    ensures refusal { IfErr result IsReadFault }
    ensures cause { IfErr result (HasCause S.can_fail error.Read) }
{
    let mut text = Vec::new(alloc);
    let mut front = Noted::new(reader).take(FORMULA_BYTES);
    match front.read_to_end(&mut text) {
        Ok(_) => Ok(text),
        Err(_) => match front.get_ref().fault() {
            ReadFault::Read => Err(MuError::Read),
            ReadFault::Memory => Err(MuError::Memory),
        },
    }
}
