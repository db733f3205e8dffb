// The two shapes of lines, as they are read.

ghost use Rattle.std.specs.Prelude.{MatchResult};
ghost use Rattle.text.specs.Cause.{HasCause};
ghost use Rattle.text.specs.declared.error.ReadFault.TheVariants as reads;
ghost use Rattle.text.specs.Lines.{IfKnown};
ghost use Rattle.text.specs.Stream.{PassesLine};
ghost use Rattle.lts.specs.Scan.{PassesTransition};
ghost use Rattle.lts.specs.Plain.{PassesAutAtHand};
ghost use Rattle.lts.specs.Scan as at;

use crate::plain::plain_line;
use std::alloc::Global;
use std::io::ErrorKind;
use systems::limits::LONGEST_LABEL;
use text::error::ReadFault;
use text::source::Blocks;
use text::stream::{has_ended, number_before, quoted, sign, word};

/// What a header says. A number that is too great for its type is read as the greatest one.
#[derive(Clone, Copy)]
pub(crate) struct Announced {
    pub initial: u32,
    pub transitions: u32,
    pub states: u32,
}

/// What a transition line says. A number that is too great for its type is read as the greatest one.
#[derive(Clone, Copy)]
pub(crate) struct TransitionLine<'a> {
    pub source: u32,
    pub label: &'a [u8],
    pub target: u32,
}

/// The states of a transition line, its label aside.
#[derive(Clone, Copy)]
pub(crate) struct Ends {
    pub source: u32,
    pub target: u32,
}

/// What is kept of a line: some digits of a number, and of a label as many bytes as tell whether it is too long.
#[derive(Drop)]
pub(crate) struct Kept {
    pub digits: Vec<u8>,
    pub label: Vec<u8>,
}

impl Kept {
    pub(crate) fn new(alloc: Global) -> Kept {
        Kept {
            digits: Vec::new(alloc),
            label: Vec::new(alloc),
        }
    }
}

// Reads the numbers of a header, of whose line this is the rest.
fn counts<B: Blocks>(reader: &mut B, digits: &mut Vec<u8>) -> Result<Option<Announced>, ReadFault>
    ensures { MatchResult result (λ found. IfKnown (B.remaining reader.old) (B.remaining reader.new) (PassesLine at.counts_at found))
        (HasCause B.can_fail reads.Read) }
{
    let Some(initial) = number_before(reader, b',', digits)? else {
        return Ok(None);
    };
    let Some(transitions) = number_before(reader, b',', digits)? else {
        return Ok(None);
    };
    let Some(states) = number_before(reader, b')', digits)? else {
        return Ok(None);
    };
    if !has_ended(reader)? {
        return Ok(None);
    }
    Ok(Some(Announced {
        initial,
        transitions,
        states,
    }))
}

/// Reads the line that is next as a header, if it has the shape of one.
pub(crate) fn header<B: Blocks>(
    reader: &mut B,
    digits: &mut Vec<u8>,
) -> Result<Option<Announced>, ReadFault>
    ensures { MatchResult result (λ found. IfKnown (B.remaining reader.old) (B.remaining reader.new) (PassesLine at.header_at found))
        (HasCause B.can_fail reads.Read) }
{
    if !word(reader, b"des")? {
        return Ok(None);
    }
    if !sign(reader, b'(')? {
        return Ok(None);
    }
    counts(reader, digits)
}

// Reads the target of a transition, of whose line this is the rest.
fn target<B: Blocks>(reader: &mut B, digits: &mut Vec<u8>) -> Result<Option<u32>, ReadFault>
    ensures { MatchResult result (λ found. IfKnown (B.remaining reader.old) (B.remaining reader.new) (PassesLine at.target_at found))
        (HasCause B.can_fail reads.Read) }
{
    if !sign(reader, b',')? {
        return Ok(None);
    }
    let Some(target) = number_before(reader, b')', digits)? else {
        return Ok(None);
    };
    if !has_ended(reader)? {
        return Ok(None);
    }
    Ok(Some(target))
}

// Reads the line that is next as a transition token by token, if it has the shape of one.
fn by_tokens<B: Blocks>(reader: &mut B, kept: &mut Kept) -> Result<Option<Ends>, ReadFault>
    ensures { MatchResult result (λ found. IfKnown (B.remaining reader.old) (B.remaining reader.new) (PassesTransition kept.new.label.items found))
        (HasCause B.can_fail reads.Read) }
{
    if !sign(reader, b'(')? {
        return Ok(None);
    }
    let Some(source) = number_before(reader, b',', &mut kept.digits)? else {
        return Ok(None);
    };
    if !quoted(reader, LONGEST_LABEL + 1, &mut kept.label)? {
        return Ok(None);
    }
    let Some(target) = target(reader, &mut kept.digits)? else {
        return Ok(None);
    };
    Ok(Some(Ends { source, target }))
}

// Reads the line that is next as a transition where it stands whole in the block at hand, as tools write it. Else it takes nothing.
fn at_hand<B: Blocks>(reader: &mut B, kept: &mut Kept) -> Result<Option<Ends>, ReadFault>
    ensures { MatchResult result (λ found. IfKnown (B.remaining reader.old) (B.remaining reader.new) (PassesAutAtHand kept.new.label.items found))
        (HasCause B.can_fail reads.Read) }
{
    let block = match reader.fill_buf() {
        Ok(block) => block,
        Err(error) if error.kind() == ErrorKind::Interrupted => return Ok(None),
        Err(_) => return Err(reader.fault()),
    };
    let Some(line) = plain_line(block) else {
        return Ok(None);
    };
    let ends = Ends {
        source: line.source,
        target: line.target,
    };
    let len = line.len;
    let most = line.label.len().min(LONGEST_LABEL + 1);
    kept.label.clear();
    kept.label.extend_from_slice(&line.label[..most])?;
    reader.consume(len);
    Ok(Some(ends))
}

/// Reads the line that is next as a transition, if it has the shape of one.
pub(crate) fn transition<B: Blocks>(
    reader: &mut B,
    kept: &mut Kept,
) -> Result<Option<Ends>, ReadFault>
    ensures { MatchResult result (λ found. IfKnown (B.remaining reader.old) (B.remaining reader.new) (PassesTransition kept.new.label.items found))
        (HasCause B.can_fail reads.Read) }
{
    match at_hand(reader, kept)? {
        Some(ends) => Ok(Some(ends)),
        None => by_tokens(reader, kept),
    }
}
