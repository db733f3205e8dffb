// Solving over the board that is asked for.

ghost use Rattle.std.specs.Prelude.{◌≡◌, ◌<◌, ◌↔◌, IfErr, IfOk, MatchResult, false, length};
ghost use Rattle.std.specs.Arc.{arc_value};
ghost use Rattle.calculus.specs.Meaning.{MarksOf};
ghost use Rattle.game.specs.Game.{Game};
ghost use Rattle.game.specs.Wins.{Wins};
ghost use Rattle.measures.specs.Lifting.{height};
ghost use Rattle.measures.specs.Progress.{IsLeastTable};
ghost use Rattle.measures.specs.declared.rank.TheConstants.{RANK_LIMIT};
ghost use Rattle.workers.specs.Team.{IsMemory, IsTeamRefusal, IsTooGreat, MayBeRaised};

use crate::error::TeamError;
use crate::gate::Gate;
use crate::runtime::Runtime;
use crate::solving::solve_watched;
use crate::watched::Watched;
use game::graph::Game;
use game::name::GameName;
use game::observer::Observer;
use measures::measure::Measure;
use measures::rank::top_rank;
use measures::table::Settled;
use std::alloc::Global;
use std::marker::Brand;
use std::sync::{Arc, Wait};
use std::thread::Threads;
use tables::board::Board;
use tables::error::TableError;
use tables::locked::LockedBoard;
use tables::packed::PackedBoard;

/// Which board the workers share.
#[derive(Clone, Copy, Debug, PartialEq, Eq)]
pub enum BoardKind {
    /// Packed where the ranks fit a word, and else locked.
    Auto,
    /// Shards, each under a lock of its own.
    Locked,
    /// One word for each vertex.
    Packed,
}

impl BoardKind {
    ghost use Rattle.workers.specs.declared.team.BoardKind.TheVariants as kind;

    /// Whether it is named, so that workers lift over it from the opening table on. One that isn't named is never refused.
    pub fn is_named(self) -> bool
        ensures auto { (result ≡ false) ↔ (self ≡ kind.Auto) }
        ensures fits { result ≡ false → (g : Game) → IsTooGreat self g → ⊥ }
    {
        match self {
            BoardKind::Auto => false,
            BoardKind::Locked | BoardKind::Packed => true,
        }
    }
}

/// How many workers lift, over which board.
#[derive(Clone, Copy)]
pub struct Team {
    pub workers: u32,
    pub shards: u32,
    pub board: BoardKind,
    pub ghost some_workers: { 0 < workers },
    pub ghost some_shards: { 0 < shards },
}

/// The least progress table of a game, which a team lifts from the opening table on, or from one with top at each vertex that isn't won,
/// where it is told which are won. A gate is called before each turn. An observer is told that lifting begins, of every 4,096th turn of a
/// worker, and of each worker's turns when it ends.
///
/// # Errors
/// T1 where the packed board is asked for and the rank of top doesn't fit a word, and only there. T2 where memory for the board is refused,
/// V1 where it is refused for the table.
pub fn solve_by<G: Gate, O: Observer + Sync, R: Runtime>(
    rt: &R,
    alloc: Global,
    game: &Arc<Game, Global>,
    team: &Team,
    gate: &G,
    observer: &O,
    won: Option<&[bool]>,
) -> Result<Settled, TeamError>
    requires { MayBeRaised (arc_value game.now) won }
    ensures game { IfOk result (λ s. s.game ≡ arc_value game.now) }
    ensures least { IfOk result (λ s. IsLeastTable (arc_value game.now) s.values) }
    ensures refused { MatchResult result (λ s. IsTooGreat team.now.board (arc_value game.now) → ⊥) (IsTeamRefusal team.now.board (arc_value game.now)) }
{
    let fits = top_rank(game).is_some();
    if team.board == BoardKind::Packed && !fits {
        return Err(TeamError::Board(TableError::TooManyRanks));
    }
    let watched = Watched::new(gate, observer, game.vertices());
    if team.board == BoardKind::Locked || !fits {
        solve_locked::<Brand, G, O, R>(rt, alloc, game, team, won, &watched)
    } else {
        solve_packed(rt, alloc, game, team, won, &watched)
    }
}

// By workers over shards of the game that K names.
fn solve_locked<K: GameName + Send + Sync, G: Gate, O: Observer + Sync, R: Runtime>(
    rt: &R,
    alloc: Global,
    game: &Arc<Game, Global>,
    team: &Team,
    won: Option<&[bool]>,
    watched: &Watched<'_, G, O>,
) -> Result<Settled, TeamError>
    requires named { arc_value game.now ≡ K.game }
    requires won { MayBeRaised (arc_value game.now) won }

    ensures game { IfOk result (λ s. s.game ≡ arc_value game.now) }
    ensures least { IfOk result (λ s. IsLeastTable (arc_value game.now) s.values) }

    ensures refused { IfErr result IsMemory }
{
    let own = Arc::try_clone(game).map_err(TableError::from)?;
    let board = LockedBoard::<K, R>::new(*rt, alloc, own, team.shards)?;
    solve_over(rt, alloc, game, board, team, won, watched)
}

// By workers over one word for each vertex.
fn solve_packed<G: Gate, O: Observer + Sync, R: Threads + Wait + Sync>(
    rt: &R,
    alloc: Global,
    game: &Arc<Game, Global>,
    team: &Team,
    won: Option<&[bool]>,
    watched: &Watched<'_, G, O>,
) -> Result<Settled, TeamError>
    requires few { height (arc_value game.now) < RANK_LIMIT }
    requires won { MayBeRaised (arc_value game.now) won }

    ensures game { IfOk result (λ s. s.game ≡ arc_value game.now) }
    ensures least { IfOk result (λ s. IsLeastTable (arc_value game.now) s.values) }

    ensures refused { IfErr result IsMemory }
{
    let own = Arc::try_clone(game).map_err(TableError::from)?;
    let board = PackedBoard::new(alloc, own, 1)?;
    solve_over(rt, alloc, game, board, team, won, watched)
}

// By workers over a board, on which each vertex that isn't won is raised to top first.
fn solve_over<B: Board + Drop + Sync, G: Gate, O: Observer + Sync, R: Threads + Wait + Sync>(
    rt: &R,
    alloc: Global,
    game: &Arc<Game, Global>,
    board: B,
    team: &Team,
    won: Option<&[bool]>,
    watched: &Watched<'_, G, O>,
) -> Result<Settled, TeamError>
    requires board { B.game board ≡ arc_value game.now }
    requires won { MayBeRaised (arc_value game.now) won }

    ensures game { IfOk result (λ s. s.game ≡ arc_value game.now) }
    ensures least { IfOk result (λ s. IsLeastTable (arc_value game.now) s.values) }

    ensures refused { IfErr result IsMemory }
{
    if let Some(won) = won {
        raise_lost(game, &board, won);
    }
    let workers = team.workers as usize;
    Ok(solve_watched(rt, alloc, game, board, workers, watched)?)
}

// Raises each vertex without a mark to top. Where the board has no seat nothing is raised.
#[tactic(auto, using(measures::proofs::Lost::lost_below))]
fn raise_lost<B: Board>(game: &Game, board: &B, won: &[bool])
    requires board { B.game board.now ≡ game.now }
    requires won { MarksOf (length game.now.vertices) won.now (Wins game.now) }
{
    game.known();
    let Ok(mut seat) = board.seat() else {
        return;
    };
    for v in 0..game.vertices() {
        if !won[v as usize] {
            board.raise(&mut seat, v, &Measure::top());
        }
    }
}
