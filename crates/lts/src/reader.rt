// The reader of systems.

ghost use Rattle.std.specs.Prelude.{◌≡◌, ℕ, ◌+◌, ◌≤◌, ◌<◌, List, [], length, Option, IfOk, IfErr, OnOk, IfSome, IfNone};
ghost use Rattle.std.specs.List.{AllByRecursion, list_all};
ghost use Rattle.text.specs.Cause.{HasCause};
ghost use Rattle.text.specs.Lines.{IfKnown};
ghost use Rattle.text.specs.Reads.{Reads};
ghost use Rattle.systems.specs.Label as label;
ghost use Rattle.systems.specs.System.{Arrow, IsArrow, set_of};
ghost use Rattle.lts.specs.Aut.{IsAut, HasAutFault, HasAutFaultAt};
ghost use Rattle.lts.specs.declared.error.AutError.TheVariants as errors;
ghost use Rattle.lts.specs.Scan.{said};
ghost use Rattle.systems.specs.Label.{texts};
ghost use Rattle.lts.specs.Gathered.{Gathers};
ghost use Rattle.lts.specs.Left.{RefusesAut, IsWithinLimits, BeginsSystem, ArrowsSoFar, HasNoLine, AreTransitions, HasAutRestFault, IsAnnouncedFault, IsRowFault, aut_fault_of};

use crate::assemble::assemble;
use crate::error::{AutError, AutFault};
use crate::intake::ReadTransitions;
use crate::scan::{Announced, Kept, TransitionLine, header, transition};
use std::alloc::Global;
use std::hash::BuildHasher;
use std::mem;
use systems::limits::{LONGEST_LABEL, MOST_STATES, MOST_TRANSITIONS};
use systems::system::{Lts, Transition};
use text::source::{Blocks, Source, blocks_of};
use text::stream::has_line;

// What is wrong with what a header announces, if anything is.
fn first_fault(found: Announced) -> Option<AutFault>
    ensures none { IfNone result (IsWithinLimits found) }
    ensures some { IfSome result (IsAnnouncedFault found) }
{
    if found.transitions > MOST_TRANSITIONS || found.states > MOST_STATES {
        Some(AutFault::OverLimit)
    } else if found.initial >= found.states {
        Some(AutFault::BadStates)
    } else {
        None
    }
}

// Reads the header.
fn read_first<B: Blocks>(reader: &mut B, digits: &mut Vec<u8>) -> Result<Announced, AutError>
    ensures first { IfOk result (λ found. IfKnown (B.remaining reader.old) (B.remaining reader.new) (BeginsSystem found)) }
    ensures within { IfOk result IsWithinLimits }
    ensures fault { IfErr result (RefusesAut (B.remaining reader.old) HasAutFault) }
    ensures cause { IfErr result (HasCause B.can_fail errors.Read) }
{
    let Some(found) = header(reader, digits)? else {
        let fault = AutFault::BadHeader;
        return Err(AutError::Fault { fault, line: 1 });
    };
    match first_fault(found) {
        None => Ok(found),
        Some(fault) => Err(AutError::Fault { fault, line: 1 }),
    }
}

fn are_label_bytes(bytes: &[u8]) -> bool
    ensures { result ≡ list_all label.is_label_byte bytes.now }
{
    bytes
        .iter()
        .all(|byte| 32 <= *byte && *byte <= 126 && *byte != 34)
}

fn is_label(bytes: &[u8]) -> bool
    ensures { result ≡ label.is_label bytes.now }
{
    1 <= bytes.len() && bytes.len() <= LONGEST_LABEL && are_label_bytes(bytes)
}

// What is wrong with the transition in a system of so many states, if anything is.
fn row_fault(spelled: TransitionLine<'_>, states: u32) -> Option<AutFault>
    ensures none { IfNone result (IsArrow states (said spelled.entry)) }
    ensures some { IfSome result (IsRowFault states (said spelled.entry)) }
{
    if !is_label(spelled.label) {
        Some(AutFault::BadLabel)
    } else if spelled.source >= states || spelled.target >= states {
        Some(AutFault::NoSuchState)
    } else {
        None
    }
}

// Reads the transition that comes after so many of them.
fn read_row<B: Blocks, S: BuildHasher>(
    alloc: Global,
    reader: &mut B,
    kept: &mut Kept,
    found: Announced,
    good: u32,
    rows: &mut ReadTransitions<S>,
) -> Result<(), AutError>
    requires due { good < found.transitions }
    requires admitted { IsWithinLimits found }
    requires labels { length rows.old.labels.keys ≤ good }

    ensures row { OnOk result ((old : Option (List ℕ)) → ArrowsSoFar found.states good old (B.remaining reader.old)
        (texts rows.old.labels.keys) rows.old.transitions.items
        → ArrowsSoFar found.states (good + 1) old (B.remaining reader.new) (texts rows.new.labels.keys) rows.new.transitions.items) }
    ensures labels { OnOk result (length rows.new.labels.keys ≤ good + 1) }
    ensures fault { IfErr result (λ e. (old : Option (List ℕ))
        → ArrowsSoFar found.states good old (B.remaining reader.old) (texts rows.old.labels.keys) rows.old.transitions.items
        → RefusesAut old (HasAutRestFault found) e) }

    ensures cause { IfErr result (HasCause B.can_fail errors.Read) }
{
    let line = u64::from(good) + 2;
    if !has_line(reader)? {
        let fault = AutFault::WrongCount;
        return Err(AutError::Fault { fault, line });
    }
    let Some(ends) = transition(reader, kept)? else {
        let fault = AutFault::BadLine;
        return Err(AutError::Fault { fault, line });
    };
    let spelled = TransitionLine {
        source: ends.source,
        label: &kept.label,
        target: ends.target,
    };
    match row_fault(spelled, found.states) {
        None => Ok(rows.add(alloc, spelled)?),
        Some(fault) => Err(AutError::Fault { fault, line }),
    }
}

// Reads on to the end of the text, where no line may stand.
fn read_end<B: Blocks>(reader: &mut B, found: Announced) -> Result<(), AutError>
    ensures end { OnOk result (IfKnown (B.remaining reader.old) (B.remaining reader.new) HasNoLine) }
    ensures fault { IfErr result (λ e. (old : Option (List ℕ)) (labels : List (List ℕ)) (transitions : List Transition)
        → ArrowsSoFar found.states found.transitions old (B.remaining reader.old) labels transitions → RefusesAut old (HasAutRestFault found) e) }
    ensures cause { IfErr result (HasCause B.can_fail errors.Read) }
{
    if has_line(reader)? {
        let fault = AutFault::WrongCount;
        let line = u64::from(found.transitions) + 2;
        return Err(AutError::Fault { fault, line });
    }
    Ok(())
}

// Reads the transitions into rows that have none yet.
fn read_rows<B: Blocks, S: BuildHasher>(
    alloc: Global,
    reader: &mut B,
    kept: &mut Kept,
    found: Announced,
    rows: &mut ReadTransitions<S>,
) -> Result<(), AutError>
    requires admitted { IsWithinLimits found }
    requires none { Gathers (texts rows.old.labels.keys) rows.old.transitions.items [] }
    requires unlabelled { length rows.old.labels.keys ≡ 0 }

    ensures rows { OnOk result ((arrows : List Arrow)
        × Gathers (texts rows.new.labels.keys) rows.new.transitions.items arrows
        × AllByRecursion (IsArrow found.states) arrows
        × IfKnown (B.remaining reader.old) (B.remaining reader.new) (AreTransitions found arrows)) }
    ensures within { OnOk result (length rows.new.transitions.items ≤ MOST_TRANSITIONS) }
    ensures labels { OnOk result (length rows.new.labels.keys ≤ MOST_TRANSITIONS) }
    ensures fault { IfErr result (RefusesAut (B.remaining reader.old) (HasAutRestFault found)) }

    ensures cause { IfErr result (HasCause B.can_fail errors.Read) }
{
    for good in 0..found.transitions {
        read_row(alloc, reader, kept, found, good, rows)?;
    }
    read_end(reader, found)
}

// Reads what follows the header, by way of rows that have no transition yet.
fn read_rest<B: Blocks, S: BuildHasher>(
    alloc: Global,
    reader: &mut B,
    kept: &mut Kept,
    found: Announced,
    rows: &mut ReadTransitions<S>,
) -> Result<Lts, AutError>
    requires admitted { IsWithinLimits found }
    requires none { Gathers (texts rows.old.labels.keys) rows.old.transitions.items [] }
    requires unlabelled { length rows.old.labels.keys ≡ 0 }

    ensures rest { IfOk result (λ l. (arrows : List Arrow)
        × AllByRecursion (IsArrow found.states) arrows
        × IfKnown (B.remaining reader.old) (B.remaining reader.new) (AreTransitions found arrows)
        × (l.system ≡ record { states = found.states; initial = found.initial; arrows = set_of arrows })) }
    ensures fault { IfErr result (RefusesAut (B.remaining reader.old) (HasAutRestFault found)) }

    ensures cause { IfErr result (HasCause B.can_fail errors.Read) }
{
    read_rows(alloc, reader, kept, found, rows)?;
    let transitions = mem::replace(&mut rows.transitions, Vec::new(alloc));
    Ok(assemble(alloc, found, rows.labels.as_slice(), transitions)?)
}

// Reads the whole text.
fn read_text<B: Blocks, S: BuildHasher + Drop>(
    alloc: Global,
    hasher: S,
    reader: &mut B,
) -> Result<Lts, AutError>
    ensures spelled { IfOk result (λ l. IfSome (B.remaining reader.old) (λ text. IsAut text l.system)) }
    ensures fault { IfErr result (RefusesAut (B.remaining reader.old) HasAutFault) }
    ensures cause { IfErr result (HasCause B.can_fail errors.Read) }
{
    let mut kept = Kept::new(alloc);
    let found = read_first(reader, &mut kept.digits)?;
    let mut rows = ReadTransitions::new(alloc, hasher);
    read_rest(alloc, reader, &mut kept, found, &mut rows)
}

/// Reads a system in the Aldebaran format (mCRL2 manual, .aut): its profile with quoted labels, at most 1,000,000 states and 10,000,000 transitions.
/// It keeps no line: of the text there is a block of 8,192 bytes, the bytes of a label up to one more than a label may have, and some digits, beside the
/// system that grows.
///
/// # Errors
/// The first faulty line decides. A text is also refused where a read fails, or where memory runs out.
pub fn read_aut<R: Source + Drop, S: BuildHasher + Drop>(
    alloc: Global,
    hasher: S,
    reader: R,
) -> Result<Lts, AutError>
    ensures reads { Reads IsAut IsAut IsAut HasAutFaultAt (λ l. l.system) aut_fault_of (R.remaining reader) result }
    ensures cause { IfErr result (HasCause R.can_fail errors.Read) }
{
    let mut blocks = blocks_of(alloc, reader)?;
    read_text(alloc, hasher, &mut blocks)
}
