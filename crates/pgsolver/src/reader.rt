// The reader of games.

ghost use Rattle.std.specs.Prelude.{◌≡◌, ℕ, ◌+◌, ◌≤◌, ◌<◌, [], List, length, Option, IfOk, IfErr, OnOk, IfSome, IfNone, None, slice_index_or, vec_len};
ghost use Rattle.game.specs.Game.{IsGame};
ghost use Rattle.text.specs.Cause.{HasCause};
ghost use Rattle.text.specs.Lines.{IfKnown};
ghost use Rattle.pgsolver.specs.declared.error.PgError.TheVariants as errors;
ghost use Rattle.text.specs.Reads.{Reads};
ghost use Rattle.pgsolver.specs.Scan.{line_said};
ghost use Rattle.pgsolver.specs.Spelling.{VertexLine, IsGameText};
ghost use Rattle.pgsolver.specs.Fault.{HasPgFault, HasPgFaultAt};
ghost use Rattle.pgsolver.specs.Left as left;
ghost use Rattle.game.specs.Game.{Vertex};
ghost use Rattle.lts.specs.Left.{HasNoLine};
ghost use Rattle.pgsolver.specs.Left.{AreFilled, RefusesPg, BeginsGame, ArePlaces, LinesSoFar, AreAll, Says, IsSound, IsFaultOfLine, TellsFault, HasPgRestFault, pg_fault_of};

use crate::error::{PgError, PgFault};
use crate::intake::vertex;
use crate::rows::{ReadVertices, make_set, put_in_order};
use crate::scan::Head;
use crate::tokens::header;
use calculus::limits::GREATEST_PRIORITY;
use game::graph::Game;
use game::limits::MOST_VERTICES;
use std::alloc::Global;
use text::source::{Blocks, Source, blocks_of};
use text::stream::has_line;

// Reads the header, and answers the greatest identifier.
fn read_first<B: Blocks>(reader: &mut B, kept: &mut Vec<u8>) -> Result<u32, PgError>
    ensures first { IfOk result (λ n. IfKnown (B.remaining reader.old) (B.remaining reader.new) (BeginsGame n)) }
    ensures within { IfOk result (λ n. n < MOST_VERTICES) }
    ensures fault { IfErr result (RefusesPg (B.remaining reader.old) HasPgFault) }
    ensures cause { IfErr result (HasCause B.can_fail errors.Read) }
{
    let Some(last) = header(reader, kept)? else {
        let fault = PgFault::BadHeader;
        return Err(PgError::Fault { fault, line: 1 });
    };
    if last as usize >= MOST_VERTICES {
        let fault = PgFault::TooManyVertices;
        return Err(PgError::Fault { fault, line: 1 });
    }
    Ok(last)
}

// Whether a successor is above the greatest identifier.
fn has_far(last: u32, targets: &[u32]) -> bool
    ensures { result ≡ left.has_far last targets.now }
{
    targets.iter().any(|target| *target > last)
}

// What is wrong with what a line says, if anything is.
fn first_fault(head: Head, targets: &[u32], last: u32, places: &[Option<u32>]) -> Option<PgFault>
    requires { length places.now ≡ last + 1 }
    ensures none { IfNone result (IsSound last places.now (line_said head targets.now)) }
    ensures some { IfSome result (IsFaultOfLine last places.now (line_said head targets.now)) }
{
    if head.id > last || places[head.id as usize].is_some() {
        Some(PgFault::BadIdentifier)
    } else if targets.is_empty() || has_far(last, targets) {
        Some(PgFault::BadSuccessor)
    } else if head.priority > GREATEST_PRIORITY {
        Some(PgFault::PriorityTooGreat)
    } else {
        None
    }
}

// Reads the line that is next, and answers what it says before its successors, which are put into the list as a set.
fn good_line<B: Blocks>(
    reader: &mut B,
    kept: &mut Vec<u8>,
    last: u32,
    place: u64,
    places: &[Option<u32>],
    targets: &mut Vec<u32>,
) -> Result<Head, PgError>
    requires limit { last < MOST_VERTICES }
    requires places { length places.now ≡ last + 1 }

    ensures good { IfOk result (λ head. Says last places.now (B.remaining reader.old) (B.remaining reader.new) head targets.new.items) }
    ensures few { OnOk result (vec_len targets.new ≤ MOST_VERTICES) }
    ensures fault { IfErr result (λ e. (before : List VertexLine) → ArePlaces last before places.now
        → TellsFault last before (B.remaining reader.old) place e) }

    ensures cause { IfErr result (HasCause B.can_fail errors.Read) }
{
    let Some(head) = vertex(reader, kept, targets)? else {
        let fault = PgFault::BadLine;
        return Err(PgError::Fault { fault, line: place });
    };
    make_set(targets);
    match first_fault(head, targets, last, places) {
        None => Ok(head),
        Some(fault) => Err(PgError::Fault { fault, line: place }),
    }
}

// Reads the vertex line that comes after so many of them.
fn read_row<B: Blocks>(
    reader: &mut B,
    kept: &mut Vec<u8>,
    last: u32,
    good: u32,
    rows: &mut ReadVertices,
) -> Result<(), PgError>
    requires limit { last < MOST_VERTICES }
    requires due { good ≤ last }
    requires count { length rows.old.vertices ≡ good }
    requires places { vec_len rows.old.places ≡ last + 1 }

    ensures row { OnOk result ((old : Option (List ℕ)) → LinesSoFar last good old (B.remaining reader.old) rows.old.vertices rows.old.places.items
        → LinesSoFar last (good + 1) old (B.remaining reader.new) rows.new.vertices rows.new.places.items) }
    ensures count { OnOk result (length rows.new.vertices ≡ good + 1) }
    ensures places { OnOk result (vec_len rows.new.places ≡ last + 1) }
    ensures fault { IfErr result (λ e. (old : Option (List ℕ)) → LinesSoFar last good old (B.remaining reader.old) rows.old.vertices rows.old.places.items
        → RefusesPg old (HasPgRestFault last) e) }

    ensures cause { IfErr result (HasCause B.can_fail errors.Read) }
{
    let place = u64::from(good) + 2;
    if !has_line(reader)? {
        let fault = PgFault::BadIdentifier;
        return Err(PgError::Fault { fault, line: place });
    }
    let head = good_line(reader, kept, last, place, &rows.places, &mut rows.targets)?;
    Ok(rows.add(head, good)?)
}

// Reads on to the end of the text, where no line may stand: each identifier has one.
fn read_end<B: Blocks>(
    reader: &mut B,
    kept: &mut Vec<u8>,
    last: u32,
    targets: &mut Vec<u32>,
) -> Result<(), PgError>
    ensures end { OnOk result (IfKnown (B.remaining reader.old) (B.remaining reader.new) HasNoLine) }
    ensures fault { IfErr result (λ e. (old : Option (List ℕ)) (vertices : List Vertex) (places : List (Option ℕ))
        → LinesSoFar last (last + 1) old (B.remaining reader.old) vertices places → RefusesPg old (HasPgRestFault last) e) }
    ensures cause { IfErr result (HasCause B.can_fail errors.Read) }
{
    if !has_line(reader)? {
        return Ok(());
    }
    let place = u64::from(last) + 3;
    let Some(_) = vertex(reader, kept, targets)? else {
        let fault = PgFault::BadLine;
        return Err(PgError::Fault { fault, line: place });
    };
    let fault = PgFault::BadIdentifier;
    Err(PgError::Fault { fault, line: place })
}

// Reads the vertex lines into rows that have none yet.
fn read_rows<B: Blocks>(
    reader: &mut B,
    kept: &mut Vec<u8>,
    last: u32,
    rows: &mut ReadVertices,
) -> Result<(), PgError>
    requires limit { last < MOST_VERTICES }
    requires none { rows.old.vertices ≡ [] }
    requires empty { (v : ℕ) → slice_index_or rows.old.places.items v None ≡ None }
    requires places { vec_len rows.old.places ≡ last + 1 }

    ensures all { OnOk result (IfKnown (B.remaining reader.old) (B.remaining reader.new) (AreAll last rows.new.vertices rows.new.places.items)) }
    ensures game { OnOk result (IsGame (record { vertices = rows.new.vertices; named = None })) }
    ensures filled { OnOk result (AreFilled (length rows.new.vertices) rows.new.places.items) }
    ensures count { OnOk result (vec_len rows.new.places ≡ length rows.new.vertices) }
    ensures fault { IfErr result (RefusesPg (B.remaining reader.old) (HasPgRestFault last)) }

    ensures cause { IfErr result (HasCause B.can_fail errors.Read) }
{
    for good in 0..last + 1 {
        read_row(reader, kept, last, good, rows)?;
    }
    read_end(reader, kept, last, &mut rows.targets)
}

// Reads the whole text.
fn read_text<B: Blocks>(alloc: Global, reader: &mut B) -> Result<Game, PgError>
    ensures spelled { IfOk result (λ g. IfSome (B.remaining reader.old) (λ text. IsGameText text g)) }
    ensures fault { IfErr result (RefusesPg (B.remaining reader.old) HasPgFault) }
    ensures cause { IfErr result (HasCause B.can_fail errors.Read) }
{
    let mut kept = Vec::new(alloc);
    let last = read_first(reader, &mut kept)?;
    let mut rows = ReadVertices::new(alloc, last)?;
    read_rows(reader, &mut kept, last, &mut rows)?;
    let game = rows.vertices.into_game();
    Ok(put_in_order(alloc, game, &rows.places)?)
}

/// Reads a game in the format of PGSolver: its profile with a header, at most 16,777,216 vertices and priorities up to 31. The
/// vertices of the game have no names, whatever the text says. It keeps no line: of the text there is a block of 8,192 bytes, the bytes of a name up to
/// one more than a name may have, and the successors of a line, those that stand again and again a few times, beside the game that grows and a number for
/// each vertex; where the lines don't stand in order, the vertices once more.
///
/// # Errors
/// The first faulty line decides. A text is also refused where a read fails, or where memory runs out.
pub fn read_game<R: Source + Drop>(alloc: Global, reader: R) -> Result<Game, PgError>
    ensures reads { Reads IsGameText IsGameText IsGameText HasPgFaultAt (λ g. g) pg_fault_of (R.remaining reader) result }
    ensures cause { IfErr result (HasCause R.can_fail errors.Read) }
{
    let Ok(mut blocks) = blocks_of(alloc, reader) else {
        return Err(PgError::Memory);
    };
    read_text(alloc, &mut blocks)
}
