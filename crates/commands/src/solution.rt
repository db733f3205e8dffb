// Who wins each vertex of a game, and evidence of it: by a guess that a checker accepts, or else by the least progress tables.

ghost use Rattle.std.specs.Prelude.{◌≡◌, IfErr, IfOk, Some};
ghost use Rattle.std.specs.Arc.{arc_value};
ghost use Rattle.evidence.specs.Pair.{AreFull};
ghost use Rattle.requests.specs.Solver.{FitsBoard};
ghost use Rattle.commands.specs.Solves.{IsUnproved};

use calculus::limits::GREATEST_PRIORITY;
use evidence::decide::certified_evidence;
use evidence::error::EvidenceError;
use evidence::law::written_is_accepted;
use evidence::make::{even_evidence, odd_evidence_from};
use evidence::pair::EvidencePair;
use game::dual::greatest_priority;
use game::graph::Game;
use game::observer::{Observer, Stage};
use measures::table::Settled;
use requests::error::MuError;
use requests::request::Options;
use requests::solver::solve_seen;
use std::alloc::Global;
use std::sync::Arc;
use workers::gate::NoGate;
use workers::runtime::Runtime;

/// Evidence of all that each player wins: that which is guessed, where no board is named and it is found good; else that of the least progress tables.
///
/// # Errors
/// Those of `solve_seen`, U4 and E5.
pub(crate) fn evidence_by<O: Observer + Sync, H: Runtime>(
    rt: &H,
    alloc: Global,
    game: &Arc<Game, Global>,
    options: &Options,
    observer: &O,
) -> Result<EvidencePair, MuError>
    ensures full { IfOk result (AreFull (arc_value game.now)) }
    ensures board { IfOk result (λ _. FitsBoard (Some options.now.board) (arc_value game.now)) }
    ensures refusal { IfErr result (IsUnproved options.now.board (arc_value game.now)) }
{
    if !options.board.is_named() {
        observer.sees(Stage::Searching {
            vertices: game.vertices(),
        });
        if let Some(pair) = certified_evidence(alloc, game, observer.gauge()) {
            return Ok(pair);
        }
    }
    let settled = solve_seen(rt, alloc, game, options, &NoGate, observer, None)?;
    least_evidence(alloc, game, &settled)
}

/// The evidence that the least progress tables give.
fn least_evidence(alloc: Global, game: &Game, settled: &Settled) -> Result<EvidencePair, MuError>
    requires { settled.now.game ≡ game.now }
    ensures full { IfOk result (AreFull game.now) }
    ensures memory { IfErr result (λ e. e ≡ MuError.Evidence EvidenceError.Memory) }
{
    written_is_accepted();
    game.known();
    // A game that was read has no priority above the limit. Of one that has, the dual game can't be made.
    if greatest_priority(game) > GREATEST_PRIORITY {
        return Err(MuError::Evidence(EvidenceError::Memory));
    }
    let even = even_evidence(alloc, game, settled).map_err(MuError::Evidence)?;
    let odd = odd_evidence_from(alloc, game, settled).map_err(MuError::Evidence)?;
    Ok(EvidencePair { even, odd })
}
