// What stands on a line of evidence.

ghost use Rattle.std.specs.Prelude.{◌≡◌, ℕ, Option, None, Some, MatchBool, MatchOption, length};
ghost use Rattle.text.specs.Tokens.{Finds};
ghost use Rattle.evidence.specs.Canon.{header};
ghost use Rattle.evidence.specs.Scan as at;
ghost use Rattle.evidence.specs.Scan.{AreFields, IsNoHeader, read_move};

use crate::limits::GREATEST_COUNT;
use game::player::Player;
use text::scan::{cut_at, whole_number};

/// The player whose evidence a header announces.
pub(crate) fn player_of(line: &[u8]) -> Option<Player>
    ensures { MatchOption result (IsNoHeader line.now) (λ player. line.now ≡ header player) }
{
    if line == b"evidence even".as_slice() {
        Some(Player::Even)
    } else if line == b"evidence odd".as_slice() {
        Some(Player::Odd)
    } else {
        None
    }
}

/// What a line says, the counts of its rank aside. A number that is too great for its type is read as the greatest one.
#[derive(Clone, Copy)]
pub(crate) struct EntryLine<'a> {
    pub vertex: u32,
    pub next: Option<u32>,
    pub rank: &'a [u8],
}

// The move, or none for `-`.
fn next_of(bytes: &[u8]) -> Option<Option<u32>>
    ensures { MatchOption result (at.move_of bytes.now ≡ None) (λ next. (move : Option ℕ) × (at.move_of bytes.now ≡ Some move) × (next ≡ read_move move)) }
{
    if bytes == b"-".as_slice() {
        Some(None)
    } else {
        Some(Some(whole_number(bytes)?))
    }
}

/// The fields of a line, if it has three that may be a vertex, a move and a rank.
pub(crate) fn fields(line: &[u8]) -> Option<EntryLine<'_>>
    ensures { MatchOption result (at.fields_of line.now ≡ None) (AreFields line.now) }
{
    let (vertex, rest) = cut_at(line, b' ')?;
    let (next, rank) = cut_at(rest, b' ')?;
    let vertex = whole_number(vertex)?;
    let next = next_of(next)?;
    Some(EntryLine { vertex, next, rank })
}

// The count before this byte, and what follows the byte.
fn count_before(bytes: &[u8], end: u8) -> Option<(u32, &[u8])>
    ensures { Finds (λ found. (found.0, found.1.now)) result (at.count_before end bytes.now) }
{
    let (count, rest) = cut_at(bytes, end)?;
    let count = whole_number(count)?;
    if count > GREATEST_COUNT {
        return None;
    }
    Some((count, rest))
}

// Reads counts that each have their end behind them.
fn read_ended(bytes: &[u8], counts: &mut [u32]) -> bool
    ensures { MatchBool result (at.counts_in (length counts.old) bytes.now ≡ Some counts.new) (at.counts_in (length counts.old) bytes.now ≡ None) }
{
    let mut rest = bytes;
    for k in 0..counts.len() {
        let end = if k + 1 < counts.len() { b',' } else { b')' };
        let Some((count, more)) = count_before(rest, end) else {
            return false;
        };
        counts[k] = count;
        rest = more;
    }
    rest.is_empty()
}

/// Reads the counts of a rank, and says whether there were just as many as there is room for.
pub(crate) fn read_rank(bytes: &[u8], counts: &mut [u32]) -> bool
    ensures { MatchBool result (at.rank_of (length counts.old) bytes.now ≡ Some counts.new) (at.rank_of (length counts.old) bytes.now ≡ None) }
{
    if counts.is_empty() {
        return bytes == b"()".as_slice();
    }
    match bytes.strip_prefix(b"(") {
        Some(rest) => read_ended(rest, counts),
        None => false,
    }
}
