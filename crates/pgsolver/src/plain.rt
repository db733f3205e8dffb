// A vertex line as tools write it, `12 3 0 4,5 "name";` and an LF, read off a block at once.

ghost use Rattle.std.specs.Prelude.{◌≡◌, ℕ, List, Some, ◌≤◌, ◌∷◌, ◌++◌, length, drop, IfOk, IfSome, IsTrue};
ghost use Rattle.std.specs.List.{prefix_len, list_all};
ghost use Rattle.systems.specs.Label.{is_label_byte};
ghost use Rattle.pgsolver.specs.Canon.{owner_digit};
ghost use Rattle.pgsolver.specs.Scan.{line_said};
ghost use Rattle.pgsolver.specs.Plain.{IsHeadThen, AddsCommas, IsTailThen, IsLineThen};
ghost use Rattle.pgsolver.specs.Spelling.{IsName};

use crate::limits::LONGEST_NAME;
use crate::scan::Head;
use game::player::Player;
use std::alloc::AllocError;
use text::scan::number_here;

/// What such a line says before its successors, and how many bytes it has with its LF.
#[derive(Clone, Copy)]
pub(crate) struct PlainVertexLine {
    pub head: Head,
    pub len: usize,
}

// What follows the byte, if it stands in front.
fn past(bytes: &[u8], byte: u8) -> Option<&[u8]>
    ensures { IfSome result (λ rest. bytes.now ≡ byte ∷ rest.now) }
{
    match bytes {
        [first, rest @ ..] if *first == byte => Some(rest),
        _ => None,
    }
}

// The owner whose digit stands in front, and what follows it.
fn owner(bytes: &[u8]) -> Option<(Player, &[u8])>
    ensures { IfSome result (λ found. bytes.now ≡ owner_digit found.0 ++ found.1.now) }
{
    match bytes {
        [b'0', rest @ ..] => Some((Player::Even, rest)),
        [b'1', rest @ ..] => Some((Player::Odd, rest)),
        _ => None,
    }
}

// What stands before the successors, and what follows it.
fn front(block: &[u8]) -> Option<(Head, &[u8])>
    ensures { IfSome result (λ found. IsHeadThen found.0 block.now found.1.now) }
{
    let (id, rest) = number_here(block)?;
    let rest = past(rest, b' ')?;
    let (priority, rest) = number_here(rest)?;
    let rest = past(rest, b' ')?;
    let (owner, rest) = owner(rest)?;
    let rest = past(rest, b' ')?;
    let head = Head {
        id,
        priority,
        owner,
    };
    Some((head, rest))
}

// Adds the numbers in front, each behind a comma, to the list, and answers what follows them.
fn more_targets<'a>(bytes: &'a [u8], targets: &mut Vec<u32>) -> Result<Option<&'a [u8]>, AllocError>
    ensures { IfOk result (λ found. IfSome found (λ rest. AddsCommas targets.old.items targets.new.items bytes.now rest.now)) }
{
    let mut rest = bytes;
    while let Some(after) = past(rest, b',') {
        let Some((target, after)) = number_here(after) else {
            return Ok(None);
        };
        targets.push(target)?;
        rest = after;
    }
    Ok(Some(rest))
}

// How many bytes of a name stand in front.
fn inner(bytes: &[u8]) -> usize
    ensures count { result ≡ prefix_len is_label_byte bytes.now }
    ensures within { result ≤ length bytes.now }
{
    bytes
        .iter()
        .take_while(|byte| 32 <= **byte && **byte <= 126 && **byte != 34)
        .count()
}

// The bytes of a name in front, and what follows them.
fn name(bytes: &[u8]) -> (&[u8], &[u8])
    ensures cut { bytes.now ≡ result.0.now ++ result.1.now }
    ensures bytes { IsTrue (list_all is_label_byte result.0.now) }
{
    bytes.split_at(inner(bytes))
}

// What follows the name and the quote behind it, where it isn't too long.
fn past_name(bytes: &[u8]) -> Option<&[u8]>
    ensures { IfSome result (λ rest. (n : List ℕ) × IsName (Some n) × (bytes.now ≡ n ++ (34 ∷ rest.now))) }
{
    let (name, rest) = name(bytes);
    if name.len() > LONGEST_NAME {
        return None;
    }
    past(rest, b'"')
}

// What follows the end of the line.
fn past_end(bytes: &[u8]) -> Option<&[u8]>
    ensures { IfSome result (λ rest. bytes.now ≡ 59 ∷ 10 ∷ rest.now) }
{
    match bytes {
        [b';', b'\n', rest @ ..] => Some(rest),
        _ => None,
    }
}

// What follows a blank and a quote.
fn past_quote(bytes: &[u8]) -> Option<&[u8]>
    ensures { IfSome result (λ rest. bytes.now ≡ 32 ∷ 34 ∷ rest.now) }
{
    match bytes {
        [b' ', b'"', rest @ ..] => Some(rest),
        _ => None,
    }
}

// What follows the end of the line, where a name may come before it.
fn tail(bytes: &[u8]) -> Option<&[u8]>
    ensures { IfSome result (λ rest. IsTailThen bytes.now rest.now) }
{
    match past_quote(bytes) {
        Some(quoted) => past_end(past_name(quoted)?),
        None => past_end(bytes),
    }
}

/// The plain line in front of the block, if one stands there whole. Its successors are put into the list, as they stand.
///
/// # Errors
/// A growth was refused.
pub(crate) fn plain_line(
    block: &[u8],
    targets: &mut Vec<u32>,
) -> Result<Option<PlainVertexLine>, AllocError>
    ensures line { IfOk result (λ found. IfSome found (λ line. IsLineThen (line_said line.head targets.new.items) block.now (drop line.len block.now))) }
    ensures within { IfOk result (λ found. IfSome found (λ line. line.len ≤ length block.now)) }
{
    let Some((head, rest)) = front(block) else {
        return Ok(None);
    };
    let Some((first, rest)) = number_here(rest) else {
        return Ok(None);
    };
    targets.clear();
    targets.push(first)?;
    let Some(rest) = more_targets(rest, targets)? else {
        return Ok(None);
    };
    let Some(rest) = tail(rest) else {
        return Ok(None);
    };
    Ok(Some(PlainVertexLine {
        head,
        len: block.len() - rest.len(),
    }))
}
