// The engines by one board, by another or by none, as a library offers them: each writes all texts for which a writer is lent.

ghost use Rattle.std.specs.Prelude.{◌∷◌, ◌++◌, None, Some, IfErr};
ghost use Rattle.requests.specs.declared.request.ReportForm.TheVariants.{Whole};
ghost use Rattle.requests.specs.Causes.{HaveCauses};
ghost use Rattle.requests.specs.Check.{BySets, ByGame, Checks, IsErrorOf};
ghost use Rattle.requests.specs.Writers.{evidence_writers, game_writer, no_writer, report_writer};

use crate::engine::report_plain;
use crate::outputs::answer_wanted;
use game::observer::Silent;
use requests::error::MuError;
use requests::request::{Options, ReportForm, Wanted};
use requests::texts::read_both;
use requests::writers::EvidenceWriters;
use std::alloc::Global;
use std::hash::BuildHasher;
use std::io;
use std::io::Write;
use std::thread::Threads;
use text::sink::Sink;
use text::source::Source;
use verdicts::findings::{find_alone, find_with};
use workers::gate::{Gate, NoGate};
use workers::runtime::Runtime;

/// The report and no other text.
const REPORT: Wanted = Wanted {
    game: false,
    evidence: false,
    witness: None,
    report: ReportForm::Whole,
};

/// The game and the report.
const GAME: Wanted = Wanted {
    game: true,
    evidence: false,
    witness: None,
    report: ReportForm::Whole,
};

/// The evidence of both players and the report.
const EVIDENCE: Wanted = Wanted {
    game: false,
    evidence: true,
    witness: None,
    report: ReportForm::Whole,
};

/// All of these.
const BOTH: Wanted = Wanted {
    game: true,
    evidence: true,
    witness: None,
    report: ReportForm::Whole,
};

/// A writer that stands where none is lent. Nothing is asked from it, and nothing is known of its bytes.
#[derive(Drop)]
struct NoWriter;

impl Write for NoWriter {
    fn write(&mut self, _bytes: &[u8]) -> io::Result<usize> {
        Ok(0)
    }

    fn flush(&mut self) -> io::Result<()> {
        Ok(())
    }
}

/// Writes to each writer that is lent, and answers. It is a macro, since a function that takes a writer by value hides the writer's final
/// contents from its caller.
macro_rules! answer_lent {
    ($alloc:expr, $found:expr, $game:expr, $evidence:expr, $out:expr) => {
        match $evidence {
            EvidenceWriters::Neither => match $game {
                None => answer_wanted(
                    $alloc,
                    $found,
                    REPORT,
                    &mut NoWriter,
                    &mut NoWriter,
                    &mut NoWriter,
                    &mut NoWriter,
                    $out,
                    &Silent,
                ),
                Some(game) => answer_wanted(
                    $alloc,
                    $found,
                    GAME,
                    game,
                    &mut NoWriter,
                    &mut NoWriter,
                    &mut NoWriter,
                    $out,
                    &Silent,
                ),
            },
            EvidenceWriters::Both(even, odd) => match $game {
                None => answer_wanted(
                    $alloc,
                    $found,
                    EVIDENCE,
                    &mut NoWriter,
                    even,
                    odd,
                    &mut NoWriter,
                    $out,
                    &Silent,
                ),
                Some(game) => {
                    answer_wanted(
                        $alloc,
                        $found,
                        BOTH,
                        game,
                        even,
                        odd,
                        &mut NoWriter,
                        $out,
                        &Silent,
                    )
                }
            },
        }
    };
}

/// Checks a formula at each state of a system by sets of states, without a game, and reports. It answers whether the
/// initial state satisfies the formula. The system is read first; nothing is written before all memory was taken.
///
/// # Errors
/// Those of the readers, unchanged; U3 where a read of the formula failed, U4 for memory in the engine, W1 in the report.
pub fn check_plain<L: BuildHasher + Drop, R: Source + Drop, S: Source + Drop, W: Sink>(
    alloc: Global,
    hasher: L,
    aut: R,
    formula: S,
    out: &mut W,
) -> Result<bool, MuError>
    ensures checks { Checks BySets (R.remaining aut) (S.remaining formula) (report_writer Whole (W.taken out.old) (W.taken out.new)) result }
    ensures plain { IfErr result (IsErrorOf BySets) }
    ensures cause { IfErr result (HaveCauses R.can_fail S.can_fail) }
{
    let texts = read_both(alloc, hasher, aut, formula)?;
    report_plain(alloc, &texts, ReportForm::Whole, out, &Silent)
}

/// Checks a formula at each state of a system by a parity game, with the priorities of the options' rule, which is solved by the
/// options' workers over their board. It answers whether the initial state satisfies the formula. The game, the evidence of both
/// players and the report are written in this order, each to its writer where one is lent, and nothing before all memory was
/// taken. Neither the board nor the workers show in what is written.
///
/// # Errors
/// Those of `check_one`; T1 where the packed board is asked for and the rank of top doesn't fit a word, and only there; T2 and V1
/// for memory of the board and of the workers' table.
pub fn check<
    L: BuildHasher + Drop,
    R: Source + Drop,
    S: Source + Drop,
    W: Sink,
    G: Sink,
    E: Sink,
    O: Sink,
    H: Runtime,
>(
    rt: &H,
    alloc: Global,
    hasher: L,
    aut: R,
    formula: S,
    options: &Options,
    out: &mut W,
    game: Option<&mut G>,
    evidence: EvidenceWriters<'_, E, O>,
) -> Result<bool, MuError>
    ensures checks { Checks (ByGame options.now.priorities (Some options.now.board)) (R.remaining aut) (S.remaining formula)
        (game_writer G.taken game.entry game.exit ++ (evidence_writers E.taken O.taken evidence.entry evidence.exit
        ++ (no_writer ∷ report_writer Whole (W.taken out.old) (W.taken out.new)))) result }
    ensures cause { IfErr result (HaveCauses R.can_fail S.can_fail) }
{
    let found = find_with(rt, alloc, hasher, aut, formula, options, &NoGate)?;
    let answered = answer_lent!(alloc, &found, game, evidence, out);
    drop(found);
    answered
}

/// Checks as `check` does, with a gate that each worker calls before each of its turns.
///
/// # Errors
/// Those of `check`.
pub fn check_gated<
    L: BuildHasher + Drop,
    R: Source + Drop,
    S: Source + Drop,
    W: Sink,
    G: Sink,
    E: Sink,
    O: Sink,
    T: Gate,
    H: Runtime,
>(
    rt: &H,
    alloc: Global,
    hasher: L,
    aut: R,
    formula: S,
    options: &Options,
    out: &mut W,
    game: Option<&mut G>,
    evidence: EvidenceWriters<'_, E, O>,
    gate: &T,
) -> Result<bool, MuError>
    ensures checks { Checks (ByGame options.now.priorities (Some options.now.board)) (R.remaining aut) (S.remaining formula)
        (game_writer G.taken game.entry game.exit ++ (evidence_writers E.taken O.taken evidence.entry evidence.exit
        ++ (no_writer ∷ report_writer Whole (W.taken out.old) (W.taken out.new)))) result }
    ensures cause { IfErr result (HaveCauses R.can_fail S.can_fail) }
{
    let found = find_with(rt, alloc, hasher, aut, formula, options, gate)?;
    let answered = answer_lent!(alloc, &found, game, evidence, out);
    drop(found);
    answered
}

/// Checks on one thread and without a board, and writes what `check` writes. It waits for nobody.
///
/// # Errors
/// Those of the readers, of the normal form and of the game, unchanged; E5 for memory in evidence; U3 where a read of the
/// formula failed, U4 for memory in the engine. W1 where a write failed: the texts before it are whole, those after it empty.
pub fn check_one<
    L: BuildHasher + Drop,
    R: Source + Drop,
    S: Source + Drop,
    W: Sink,
    G: Sink,
    E: Sink,
    O: Sink,
    H: Threads + Sync,
>(
    rt: &H,
    alloc: Global,
    hasher: L,
    aut: R,
    formula: S,
    options: &Options,
    out: &mut W,
    game: Option<&mut G>,
    evidence: EvidenceWriters<'_, E, O>,
) -> Result<bool, MuError>
    ensures checks { Checks (ByGame options.now.priorities None) (R.remaining aut) (S.remaining formula)
        (game_writer G.taken game.entry game.exit ++ (evidence_writers E.taken O.taken evidence.entry evidence.exit
        ++ (no_writer ∷ report_writer Whole (W.taken out.old) (W.taken out.new)))) result }
    ensures cause { IfErr result (HaveCauses R.can_fail S.can_fail) }
{
    let found = find_alone(rt, alloc, hasher, aut, formula, options.priorities)?;
    let answered = answer_lent!(alloc, &found, game, evidence, out);
    drop(found);
    answered
}
