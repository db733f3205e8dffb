// The reader of evidence.

ghost use Rattle.std.specs.Prelude.{◌≡◌, ◌≤◌, ℕ, List, None, length, replicate, take, IfErr, IfOk, IfSome, MatchBool, MatchResult, OnOk};
ghost use Rattle.text.specs.Cause.{HasCause};
ghost use Rattle.text.specs.Lines.{IfKnown};
ghost use Rattle.text.specs.Reads.{Reads};
ghost use Rattle.text.specs.declared.error.ReadFault.TheVariants as reads;
ghost use Rattle.evidence.specs.Fault.{HasEvidenceFault, HasEvidenceFaultAt, RefusesEvidence, evidence_fault_of};
ghost use Rattle.evidence.specs.Reading.{AreEntriesRead, BeginsWith, HasNoHeader, HasEvidenceRestFault, IsAdded, IsNoPlace, HasPlaceFor, IsWrongLine, ReadsAtHand, ReadsNext};
ghost use Rattle.evidence.specs.Short.{short};
ghost use Rattle.evidence.specs.Spelling.{IsEvidenceText};
ghost use Rattle.evidence.specs.View.{rank_width};
ghost use Rattle.evidence.specs.declared.error.EvidenceError.TheVariants as errors;

use crate::entries::{Entries, MOST_COUNTS};
use crate::error::{EvidenceError, EvidenceFault};
use crate::evidence::{Evidence, width};
use crate::limits::LONGEST_LINE;
use crate::scan::{fields, player_of, read_rank};
use crate::short::short_line;
use game::graph::Game;
use game::limits::MOST_VERTICES;
use game::player::Player;
use std::alloc::Global;
use std::io::ErrorKind;
use text::error::ReadFault;
use text::scan::cut_at;
use text::source::{Blocks, Source, blocks_of};
use text::stream::has_line;

// Reads the header.
fn read_header<B: Blocks>(reader: &mut B, kept: &mut Vec<u8>) -> Result<Player, EvidenceError>
    ensures first { IfOk result (λ player. IfKnown (B.remaining reader.old) (B.remaining reader.new) (BeginsWith player)) }
    ensures fault { IfErr result (RefusesEvidence (B.remaining reader.old) HasNoHeader) }
    ensures cause { IfErr result (HasCause B.can_fail errors.Read) }
{
    let fault = EvidenceFault::BadHeader;
    if !has_line(reader)? {
        return Err(EvidenceError::Fault { fault, line: 1 });
    }
    short_line(reader, kept)?;
    match player_of(kept) {
        Some(player) => Ok(player),
        None => Err(EvidenceError::Fault { fault, line: 1 }),
    }
}

// Whether the vertex may have an entry with this move, and has none yet.
fn has_place(entries: &Entries, v: u32, next: Option<u32>) -> bool
    ensures { MatchBool result (HasPlaceFor entries.now.entries v next) (IsNoPlace entries.now.entries v next) }
{
    if v as usize >= entries.len() {
        return false;
    }
    if let Some(next) = next {
        if next as usize >= entries.len() {
            return false;
        }
    }
    entries.get(v as usize).is_none()
}

// Gives the vertex of a line its entry.
fn add_line(line: &[u8], counts: &mut [u32], evidence: &mut Evidence) -> Result<(), EvidenceFault>
    requires width { length counts.old ≡ rank_width evidence.old }
    requires few { length evidence.old.evidence.entries ≤ MOST_VERTICES }
    ensures added { OnOk result (IsAdded line.now evidence.old evidence.new) }
    ensures fault { IfErr result (IsWrongLine evidence.old line.now) }
{
    let Some(spelled) = fields(line) else {
        return Err(EvidenceFault::BadLine);
    };
    if !read_rank(spelled.rank, counts) {
        return Err(EvidenceFault::BadLine);
    }
    if !has_place(evidence.entries(), spelled.vertex, spelled.next) {
        return Err(EvidenceFault::BadVertex);
    }
    evidence.known();
    evidence.put(spelled.vertex, spelled.next, counts);
    Ok(())
}

// Gives the vertex of a line its entry, of which line this is what is kept where it is shortened.
fn add_short(line: &[u8], counts: &mut [u32], evidence: &mut Evidence) -> Result<(), EvidenceFault>
    requires width { length counts.old ≡ rank_width evidence.old }
    requires few { length evidence.old.evidence.entries ≤ MOST_VERTICES }
    requires narrow { rank_width evidence.old ≤ MOST_COUNTS }

    ensures added { OnOk result (IsAdded line.now evidence.old evidence.new) }
    ensures whole { OnOk result ((whole : List ℕ) → line.now ≡ take LONGEST_LINE (short whole) → IsAdded whole evidence.old evidence.new) }
    ensures fault { IfErr result (λ fault. (whole : List ℕ) → line.now ≡ take LONGEST_LINE (short whole) → IsWrongLine evidence.old whole fault) }
{
    if line.len() >= LONGEST_LINE {
        return Err(EvidenceFault::BadLine);
    }
    add_line(line, counts, evidence)
}

// Reads the line that is next where it stands whole in the block at hand, its end with it. Else it takes nothing.
fn at_hand<B: Blocks>(
    reader: &mut B,
    counts: &mut [u32],
    evidence: &mut Evidence,
) -> Result<Option<Result<(), EvidenceFault>>, ReadFault>
    requires width { length counts.old ≡ rank_width evidence.old }
    requires few { length evidence.old.evidence.entries ≤ MOST_VERTICES }
    ensures { MatchResult result (ReadsAtHand (B.remaining reader.old) (B.remaining reader.new) evidence.old evidence.new)
        (HasCause B.can_fail reads.Read) }
{
    let block = match reader.fill_buf() {
        Ok(block) => block,
        Err(error) if error.kind() == ErrorKind::Interrupted => return Ok(None),
        Err(_) => return Err(reader.fault()),
    };
    let Some((line, _)) = cut_at(block, b'\n') else {
        return Ok(None);
    };
    let added = add_line(line, counts, evidence);
    let len = line.len() + 1;
    reader.consume(len);
    Ok(Some(added))
}

// Reads the line that is next, of which there is one.
fn read_line<B: Blocks>(
    reader: &mut B,
    kept: &mut Vec<u8>,
    counts: &mut [u32],
    evidence: &mut Evidence,
) -> Result<Result<(), EvidenceFault>, ReadFault>
    requires width { length counts.old ≡ rank_width evidence.old }
    requires few { length evidence.old.evidence.entries ≤ MOST_VERTICES }
    requires narrow { rank_width evidence.old ≤ MOST_COUNTS }
    ensures { MatchResult result (ReadsNext (B.remaining reader.old) (B.remaining reader.new) evidence.old evidence.new)
        (HasCause B.can_fail reads.Read) }
{
    if let Some(added) = at_hand(reader, counts, evidence)? {
        return Ok(added);
    }
    short_line(reader, kept)?;
    Ok(add_short(kept, counts, evidence))
}

// Reads the lines below a header, where no vertex has an entry yet.
fn read_lines<B: Blocks>(
    reader: &mut B,
    kept: &mut Vec<u8>,
    counts: &mut [u32],
    evidence: &mut Evidence,
) -> Result<(), EvidenceError>
    requires none { evidence.old.evidence.entries ≡ replicate (length evidence.old.evidence.entries) None }
    requires width { length counts.old ≡ rank_width evidence.old }
    requires few { length evidence.old.evidence.entries ≤ MOST_VERTICES }
    requires narrow { rank_width evidence.old ≤ MOST_COUNTS }

    ensures game { OnOk result (evidence.new.game ≡ evidence.old.game) }
    ensures player { OnOk result (evidence.new.evidence.player ≡ evidence.old.evidence.player) }
    ensures lines { OnOk result (AreEntriesRead (length evidence.old.evidence.entries) (rank_width evidence.old) (B.remaining reader.old) evidence.new.evidence.entries) }

    ensures fault { IfErr result (RefusesEvidence (B.remaining reader.old) (HasEvidenceRestFault (length evidence.old.evidence.entries) (rank_width evidence.old))) }
    ensures cause { IfErr result (HasCause B.can_fail errors.Read) }
{
    let mut good = 0;
    while has_line(reader)? {
        if let Err(fault) = read_line(reader, kept, counts, evidence)? {
            return Err(EvidenceError::Fault {
                fault,
                line: good + 2,
            });
        }
        good += 1;
    }
    Ok(())
}

// Reads the whole text.
fn read_text<B: Blocks>(
    alloc: Global,
    reader: &mut B,
    game: &Game,
) -> Result<Evidence, EvidenceError>
    ensures game { IfOk result (λ e. e.game ≡ game.now) }
    ensures spelled { IfOk result (λ e. IfSome (B.remaining reader.old) (λ text. IsEvidenceText game.now text e.evidence)) }
    ensures fault { IfErr result (RefusesEvidence (B.remaining reader.old) (HasEvidenceFault game.now)) }
    ensures cause { IfErr result (HasCause B.can_fail errors.Read) }
{
    game.known();
    let mut kept = Vec::new(alloc);
    let player = read_header(reader, &mut kept)?;
    let mut evidence = Evidence::none(alloc, game, player)?;
    let mut counts = [0; MOST_COUNTS];
    let width = width(player, game);
    read_lines(reader, &mut kept, &mut counts[..width], &mut evidence)?;
    Ok(evidence)
}

/// Reads evidence for a game: a header, and below it a line for each vertex of the set, in any order. Lines end by LF, and a CR is a byte like any
/// other. A rank has as many counts as the player's ranks have in the game, each up to 16,777,216. It keeps no line: of the text there is a block of
/// 8,192 bytes, and of a line that goes on in the next block 256 bytes at most, beside the entries.
///
/// # Errors
/// The first faulty line decides. A text is also refused where a read fails, or where memory runs out.
pub fn read_evidence<R: Source + Drop>(
    alloc: Global,
    reader: R,
    game: &Game,
) -> Result<Evidence, EvidenceError>
    ensures game { IfOk result (λ e. e.game ≡ game.now) }
    ensures reads { Reads (IsEvidenceText game.now) (IsEvidenceText game.now) (IsEvidenceText game.now) (HasEvidenceFaultAt game.now) (λ e. e.evidence) evidence_fault_of
        (R.remaining reader) result }
    ensures cause { IfErr result (HasCause R.can_fail errors.Read) }
{
    let Ok(mut blocks) = blocks_of(alloc, reader) else {
        return Err(EvidenceError::Memory);
    };
    read_text(alloc, &mut blocks, game)
}
