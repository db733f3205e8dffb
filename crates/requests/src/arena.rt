// The parity game of a system and a formula.

ghost use Rattle.std.specs.Prelude.{None, MatchResult};
ghost use Rattle.calculus.specs.Closed.{closed_formula};
ghost use Rattle.requests.specs.Check.{ByGame, IsArenaOf, IsBeyond};

use crate::error::MuError;
use calculus::closed::Closed;
use calculus::priorities::Priorities;
use game::build::build_seen;
use game::gauge::Gauge;
use game::graph::Game;
use lts::system::Lts;
use normal::make::normal_with;
use std::alloc::Global;
use std::thread::Threads;

/// The game of a system and a formula's normal form, with the priorities of this rule. A gauge shows about how many of its vertices are made.
///
/// # Errors
/// Those of the normal form and of the game, unchanged.
pub fn arena_of<H: Threads + Sync>(
    rt: &H,
    alloc: Global,
    system: &Lts,
    formula: &Closed,
    priorities: Priorities,
    gauge: Option<&Gauge>,
) -> Result<Game, MuError>
    ensures { let l = system.now.system in let f = closed_formula formula.now in
        MatchResult result (IsArenaOf priorities l f) (IsBeyond (ByGame priorities None) l f) }
{
    let normal = normal_with(alloc, formula, priorities).map_err(MuError::Normal)?;
    build_seen(rt, alloc, system, &normal, gauge).map_err(MuError::Build)
}
