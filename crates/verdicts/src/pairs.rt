// The evidence of both players in a game that was solved.

ghost use Rattle.std.specs.Prelude.{◌≡◌, IfOk, IfErr};
ghost use Rattle.std.specs.Arc.{arc_value};
ghost use Rattle.verdicts.specs.Findings.{AreFindings, IsPairOf};

use crate::findings::Findings;
use crate::lifting::SolvedGame;
use evidence::error::EvidenceError;
use evidence::make::{even_evidence, odd_evidence_from};
use evidence::pair::EvidencePair;
use game::graph::Game;
use requests::error::MuError;
use std::alloc::Global;

/// The evidence of both players.
///
/// # Errors
/// E5.
pub fn evidence_pair(alloc: Global, found: &Findings) -> Result<EvidencePair, MuError>
    requires { AreFindings found.now }
    ensures pair { IfOk result (IsPairOf (arc_value found.now.solution.game)) }
    ensures memory { IfErr result (λ e. e ≡ MuError.Evidence EvidenceError.Memory) }
{
    let SolvedGame { game, settled, .. } = &found.solution;
    let game: &Game = game;
    let even = even_evidence(alloc, game, settled).map_err(MuError::Evidence)?;
    let odd = odd_evidence_from(alloc, game, settled).map_err(MuError::Evidence)?;
    Ok(EvidencePair { even, odd })
}
