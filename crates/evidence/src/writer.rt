// The writers of evidence and of what a checker answers.

ghost use Rattle.std.specs.Prelude.{◌≡◌, ◌++◌, codes};
ghost use Rattle.measures.specs.MeasureText.{counts_text};
ghost use Rattle.text.specs.Pieces.{line_end, piece_text};
ghost use Rattle.text.specs.Wrote.{Wrote};
ghost use Rattle.evidence.specs.Canon.{entry_line, entry_lines, evidence_text, header, move_text, player_text};
ghost use Rattle.evidence.specs.Verdict.{both_text, even_of, fault_text, odd_of, refusal, sizes_line, verdict_text};

use crate::entries::{Entries, EntryView};
use crate::evidence::Evidence;
use crate::verdict::{Both, Fault, Verdict};
use game::player::Player;
use measures::writer::put_counts;
use text::sink::Sink;
use text::{Lines, Piece, WriteFault, put, put_lines, put_number, put_pieces};

fn player_word(player: Player) -> &'static [u8]
    ensures { result.now ≡ player_text player }
{
    match player {
        Player::Even => b"even",
        Player::Odd => b"odd",
    }
}

/// Writes the first line of a player's evidence.
///
/// # Errors
/// After a fault the writer holds a beginning of it.
pub fn put_header<W: Sink>(player: Player, writer: &mut W) -> Result<(), WriteFault>
    ensures { Wrote (W.taken writer.old) (W.taken writer.new) result (header player ++ line_end) }
{
    put_pieces(
        writer,
        &[
            Piece::Bytes(b"evidence "),
            Piece::Bytes(player_word(player)),
            Piece::Bytes(b"\n"),
        ],
    )
}

// Writes a move after a blank.
fn put_move<W: Sink>(writer: &mut W, next: Option<u32>) -> Result<(), WriteFault>
    ensures { Wrote (W.taken writer.old) (W.taken writer.new) result (codes " " ++ move_text next) }
{
    match next {
        Some(next) => put_number(writer, b" ", next),
        None => put(writer, b" -"),
    }
}

// Writes a rank after a blank, and the line's end. Most ranks are one zero, and that is one write.
fn put_rank<W: Sink>(writer: &mut W, rank: &[u32]) -> Result<(), WriteFault>
    ensures { Wrote (W.taken writer.old) (W.taken writer.new) result (codes " " ++ (counts_text rank.now ++ line_end)) }
{
    if rank.len() == 1 && rank[0] == 0 {
        return put(writer, b" (0)\n");
    }
    put(writer, b" ")?;
    put_counts(writer, rank)?;
    put(writer, b"\n")
}

/// Writes the line of a vertex.
///
/// # Errors
/// After a fault the writer holds a beginning of it.
pub fn put_entry<W: Sink>(v: usize, view: EntryView<'_>, writer: &mut W) -> Result<(), WriteFault>
    ensures { Wrote (W.taken writer.old) (W.taken writer.new) result (entry_line v record { move = view.entry.next; rank = view.entry.rank.now }) }
{
    put_number(writer, b"", v as u64)?;
    put_move(writer, view.next)?;
    put_rank(writer, view.rank)
}

// A line for each vertex of the set.
#[derive(Clone, Copy)]
struct EntryLines<'a> {
    entries: &'a Entries,
}

impl Lines for EntryLines<'_> {
    ghost use Rattle.std.specs.Prelude.{length};
    ghost use Rattle.evidence.specs.Canon.{entry_line_at};

    ghost count = { λ lines. length lines.entries.now.entries };

    ghost line = { λ lines v. entry_line_at lines.entries.now.entries v };

    fn count(&self) -> usize {
        self.entries.len()
    }

    fn put_line<W: Sink>(&self, number: usize, writer: &mut W) -> Result<(), WriteFault> {
        match self.entries.get(number) {
            Some(entry) => put_entry(number, entry, writer),
            None => Ok(()),
        }
    }
}

// Writes a line for each vertex of the set.
fn put_entries<W: Sink>(entries: &Entries, writer: &mut W) -> Result<(), WriteFault>
    ensures { Wrote (W.taken writer.old) (W.taken writer.new) result (entry_lines 0 entries.now.entries) }
{
    put_lines(&EntryLines { entries }, writer)
}

/// Writes evidence as its canonical text: a header, and a line for each vertex of the set, ascending. It takes no memory.
///
/// # Errors
/// After a fault the writer holds a beginning of the text.
pub fn write_evidence<W: Sink>(evidence: &Evidence, writer: &mut W) -> Result<(), WriteFault>
    ensures wrote { Wrote (W.taken writer.old) (W.taken writer.new) result (evidence_text evidence.now.evidence) }
{
    put_header(evidence.player(), writer)?;
    put_entries(evidence.entries(), writer)
}

fn code(fault: Fault) -> &'static [u8]
    ensures { result.now ≡ fault_text fault }
{
    match fault {
        Fault::Move => b"C1",
        Fault::Leaves => b"C2",
        Fault::Rank => b"C3",
    }
}

// Writes where a fault stands, and before its code in which of two, if there are two.
fn put_refusal<W: Sink>(
    before: &[u8],
    v: u32,
    fault: Fault,
    writer: &mut W,
) -> Result<(), WriteFault>
    ensures { Wrote (W.taken writer.old) (W.taken writer.new) result (refusal before.now fault v) }
{
    put_pieces(
        writer,
        &[
            Piece::Bytes(b"refused "),
            Piece::Bytes(before),
            Piece::Bytes(code(fault)),
            Piece::Bytes(b" at "),
            Piece::Number(u64::from(v)),
            Piece::Bytes(b"\n"),
        ],
    )
}

// Writes whose evidence it is, and how many vertices of how many it has.
fn put_good<W: Sink>(evidence: &Evidence, writer: &mut W) -> Result<(), WriteFault>
    ensures { Wrote (W.taken writer.old) (W.taken writer.new) result (verdict_text evidence.now.game evidence.now.evidence Verdict.Good) }
{
    evidence.known();
    put_pieces(
        writer,
        &[
            Piece::Bytes(b"verified "),
            Piece::Bytes(player_word(evidence.player())),
            Piece::Bytes(b" "),
            Piece::Number(evidence.len() as u64),
            Piece::Bytes(b" of "),
            Piece::Number(evidence.entries().len() as u64),
            Piece::Bytes(b"\n"),
        ],
    )
}

/// Writes what a checker answers of evidence. It takes no memory.
///
/// # Errors
/// After a fault the writer holds a beginning of the text.
pub fn write_verdict<W: Sink>(
    evidence: &Evidence,
    verdict: Verdict,
    writer: &mut W,
) -> Result<(), WriteFault>
    ensures wrote { Wrote (W.taken writer.old) (W.taken writer.new) result (verdict_text evidence.now.game evidence.now.evidence verdict) }
{
    match verdict {
        Verdict::Good => put_good(evidence, writer),
        Verdict::Faulty(v, fault) => put_refusal(b"", v, fault, writer),
    }
}

// Of two that are of different players Even's, and Odd's.
fn by_player<'a>(first: &'a Evidence, second: &'a Evidence) -> (&'a Evidence, &'a Evidence)
    ensures even { result.0.now.evidence ≡ even_of first.now.evidence second.now.evidence }
    ensures odd { result.1.now.evidence ≡ odd_of first.now.evidence second.now.evidence }
{
    match first.player() {
        Player::Even => (first, second),
        Player::Odd => (second, first),
    }
}

// Writes how many vertices each player wins, of how many.
fn put_sizes<W: Sink>(
    even: usize,
    odd: usize,
    vertices: usize,
    writer: &mut W,
) -> Result<(), WriteFault>
    ensures { Wrote (W.taken writer.old) (W.taken writer.new) result (sizes_line even odd vertices) }
{
    put_pieces(
        writer,
        &[
            Piece::Bytes(b"verified both even "),
            Piece::Number(even as u64),
            Piece::Bytes(b" odd "),
            Piece::Number(odd as u64),
            Piece::Bytes(b" of "),
            Piece::Number(vertices as u64),
            Piece::Bytes(b"\n"),
        ],
    )
}

/// Writes what a checker answers of two pieces of evidence. It takes no memory.
///
/// # Errors
/// After a fault the writer holds a beginning of the text.
pub fn write_both<W: Sink>(
    first: &Evidence,
    second: &Evidence,
    both: Both,
    writer: &mut W,
) -> Result<(), WriteFault>
    ensures wrote { Wrote (W.taken writer.old) (W.taken writer.new) result (both_text first.now.game first.now.evidence second.now.evidence both) }
{
    match both {
        Both::First(v, fault) => put_refusal(b"first ", v, fault, writer),
        Both::Second(v, fault) => put_refusal(b"second ", v, fault, writer),
        Both::OnePlayer => put(writer, b"refused C4\n"),
        Both::LeftOut(v) => put_pieces(
            writer,
            &[
                Piece::Bytes(b"refused C5 at "),
                Piece::Number(u64::from(v)),
                Piece::Bytes(b"\n"),
            ],
        ),
        Both::Yes => {
            first.known();
            let (even, odd) = by_player(first, second);
            put_sizes(even.len(), odd.len(), first.entries().len(), writer)
        }
    }
}
