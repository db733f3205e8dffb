// The two shapes of lines, read token by token, so that no line is kept.

ghost use Rattle.std.specs.Prelude.{◌≡◌, [], ◌∷◌, ◌++◌, MatchResult, OnOk};
ghost use Rattle.text.specs.Cause.{HasCause};
ghost use Rattle.text.specs.declared.error.ReadFault.TheVariants as reads;
ghost use Rattle.text.specs.Lines.{IfKnown};
ghost use Rattle.text.specs.Stream.{Passes, PassesLine};
ghost use Rattle.game.specs.NumberSet.{number_set};
ghost use Rattle.pgsolver.specs.Scan as at;
ghost use Rattle.pgsolver.specs.Passes.{PassesMore, PassesTargets, PassesName, PassesTail, PassesVertex};

use crate::ahead::{comma, digit_follows, gap, next};
use crate::limits::LONGEST_NAME;
use crate::rows::make_set;
use crate::scan::{Head, is_name};
use game::player::Player;
use std::alloc::AllocError;
use text::error::ReadFault;
use text::source::Blocks;
use text::stream::{has_ended, number, number_before, quoted, sign, word};

// So many successors are kept as they stand, at least.
const LEAST_ROOM: usize = 1024;

/// Reads the line that is next as a header, if it has the shape of one, and answers the greatest identifier.
pub(crate) fn header<B: Blocks>(
    reader: &mut B,
    kept: &mut Vec<u8>,
) -> Result<Option<u32>, ReadFault>
    ensures { MatchResult result (λ found. IfKnown (B.remaining reader.old) (B.remaining reader.new) (PassesLine at.header_at found))
        (HasCause B.can_fail reads.Read) }
{
    if !word(reader, b"parity")? {
        return Ok(None);
    }
    let Some(greatest) = number_before(reader, b';', kept)? else {
        return Ok(None);
    };
    if !has_ended(reader)? {
        return Ok(None);
    }
    Ok(Some(greatest))
}

// Takes the number before a blank, and the blank.
fn number_gap<B: Blocks>(reader: &mut B, kept: &mut Vec<u8>) -> Result<Option<u32>, ReadFault>
    ensures { MatchResult result (λ found. IfKnown (B.remaining reader.old) (B.remaining reader.new) (Passes at.number_gap found))
        (HasCause B.can_fail reads.Read) }
{
    let Some(found) = number(reader, kept)? else {
        return Ok(None);
    };
    if !gap(reader)? {
        return Ok(None);
    }
    Ok(Some(found))
}

fn owner_of(digit: u32) -> Option<Player>
    ensures { result ≡ at.owner_of_digit digit }
{
    match digit {
        0 => Some(Player::Even),
        1 => Some(Player::Odd),
        _ => None,
    }
}

// Takes the digit of an owner.
fn owner<B: Blocks>(reader: &mut B, kept: &mut Vec<u8>) -> Result<Option<Player>, ReadFault>
    ensures { MatchResult result (λ found. IfKnown (B.remaining reader.old) (B.remaining reader.new) (Passes at.owner_at found))
        (HasCause B.can_fail reads.Read) }
{
    match number(reader, kept)? {
        Some(digit) => Ok(owner_of(digit)),
        None => Ok(None),
    }
}

// Takes what stands before the successors.
fn front<B: Blocks>(reader: &mut B, kept: &mut Vec<u8>) -> Result<Option<Head>, ReadFault>
    ensures { MatchResult result (λ found. IfKnown (B.remaining reader.old) (B.remaining reader.new) (Passes at.head_at found))
        (HasCause B.can_fail reads.Read) }
{
    let Some(id) = number_gap(reader, kept)? else {
        return Ok(None);
    };
    let Some(priority) = number_gap(reader, kept)? else {
        return Ok(None);
    };
    let Some(owner) = owner(reader, kept)? else {
        return Ok(None);
    };
    Ok(Some(Head {
        id,
        priority,
        owner,
    }))
}

fn put(numbers: &mut Vec<u32>, number: u32) -> Result<(), AllocError>
    ensures { OnOk result (numbers.new.items ≡ numbers.old.items ++ number ∷ []) }
{
    numbers.push(number)?;
    Ok(())
}

// Puts each number there once where there are as many as there is room for, and answers what room there is then: for as many again.
fn each_once(numbers: &mut Vec<u32>, room: usize) -> usize
    ensures { number_set numbers.new.items ≡ number_set numbers.old.items }
{
    if numbers.len() < room {
        return room;
    }
    make_set(numbers);
    numbers.len().saturating_mul(2).max(LEAST_ROOM)
}

// Takes the numbers behind commas, adds them to the list, and says whether one stands behind each comma.
fn more_targets<B: Blocks>(
    reader: &mut B,
    kept: &mut Vec<u8>,
    targets: &mut Vec<u32>,
) -> Result<bool, ReadFault>
    ensures { MatchResult result (λ found. IfKnown (B.remaining reader.old) (B.remaining reader.new) (PassesMore targets.old.items targets.new.items found))
        (HasCause B.can_fail reads.Read) }
{
    let mut room = LEAST_ROOM;
    for _ in 0..u64::MAX {
        if !comma(reader)? {
            return Ok(true);
        }
        let Some(target) = number(reader, kept)? else {
            return Ok(false);
        };
        put(targets, target)?;
        room = each_once(targets, room);
    }
    Err(reader.fault())
}

// Takes the successors, adds them to the list, and says whether a line may go on so.
fn all_targets<B: Blocks>(
    reader: &mut B,
    kept: &mut Vec<u8>,
    targets: &mut Vec<u32>,
) -> Result<bool, ReadFault>
    ensures { MatchResult result (λ found. IfKnown (B.remaining reader.old) (B.remaining reader.new) (PassesTargets targets.old.items targets.new.items found))
        (HasCause B.can_fail reads.Read) }
{
    if !gap(reader)? {
        return Ok(true);
    }
    if !digit_follows(reader)? {
        return Ok(true);
    }
    let Some(first) = number(reader, kept)? else {
        return Ok(false);
    };
    put(targets, first)?;
    more_targets(reader, kept, targets)
}

// Takes the name, if there is one, and says whether a line may go on so. One byte more than a name has is kept of it at most.
fn name<B: Blocks>(reader: &mut B, kept: &mut Vec<u8>) -> Result<bool, ReadFault>
    ensures { MatchResult result (λ found. IfKnown (B.remaining reader.old) (B.remaining reader.new) (PassesName found))
        (HasCause B.can_fail reads.Read) }
{
    if next(reader)? != Some(b'"') {
        return Ok(true);
    }
    if !quoted(reader, LONGEST_NAME + 1, kept)? {
        return Ok(false);
    }
    Ok(is_name(kept))
}

// Takes a name, if there is one, and the end of the line, and says whether both were there.
fn tail<B: Blocks>(reader: &mut B, kept: &mut Vec<u8>) -> Result<bool, ReadFault>
    ensures { MatchResult result (λ found. IfKnown (B.remaining reader.old) (B.remaining reader.new) (PassesTail found))
        (HasCause B.can_fail reads.Read) }
{
    if !name(reader, kept)? {
        return Ok(false);
    }
    if !sign(reader, b';')? {
        return Ok(false);
    }
    has_ended(reader)
}

/// Reads the line that is next as a vertex line, if it has the shape of one. Its successors are put into the list, where one that stands twice may be
/// once.
pub(crate) fn by_tokens<B: Blocks>(
    reader: &mut B,
    kept: &mut Vec<u8>,
    targets: &mut Vec<u32>,
) -> Result<Option<Head>, ReadFault>
    ensures { MatchResult result (λ found. IfKnown (B.remaining reader.old) (B.remaining reader.new) (PassesVertex targets.new.items found))
        (HasCause B.can_fail reads.Read) }
{
    targets.clear();
    let Some(head) = front(reader, kept)? else {
        return Ok(None);
    };
    if !all_targets(reader, kept, targets)? {
        return Ok(None);
    }
    if !tail(reader, kept)? {
        return Ok(None);
    }
    Ok(Some(head))
}
