// What one worker does.

ghost use Rattle.std.specs.Prelude.{◌≡◌, ◌<◌, ◌⊎◌, ℕ, List, [], false, IfSome, IsTrue, length, max};
ghost use Rattle.tables.specs.Turns.{By, IsTurn};
ghost use Rattle.workers.specs.Floor.{IsOneGame};
ghost use Rattle.workers.specs.Jobs.{Gave, IsFilled};
ghost use Rattle.workers.specs.Turns.{AreGiven, AreSomeTurns, AreTurns, Done, HasWorked, IsWork, own_vertices};

use crate::floor::Floor;
use crate::gate::Gate;
use crate::jobs::{Own, WorkerState, find, give};
use crate::marks::{BLOCK, Pending, block_of};
use crate::watched::TurnCounts;
use game::graph::Game;
use game::name::GameName;
use game::observer::Observer;
use game::predecessors::Predecessors;
use liftcore::turn::Turn;
use std::sync::Wait;
use tables::board::Board;

// Gives the blocks of those predecessors of a vertex that aren't pending, and says whether all were taken. What isn't taken stays marked:
// it is left to the final settling.
fn give_predecessors<K: GameName, M: Pending>(
    predecessors: &Predecessors,
    marks: &M,
    own: &mut Own<K>,
    v: u32,
) -> bool
    requires { predecessors.now ≡ K.game }
    ensures given { (jobs : List ℕ) × Gave own.old own.new jobs × (IsTrue result → AreGiven K.game (M.was_pending marks.now) v jobs) }
    ensures refused { result ≡ false → IsFilled own.old own.new }
{
    for u in predecessors.get(v) {
        if marks.set(*u) && !give(own, block_of(*u)) {
            return false;
        }
    }
    true
}

// Reads the measures of a vertex's successors, and raises the vertex to what they ask for. The answer says whether it rose.
fn lift<B: Board>(game: &Game, board: &B, seat: &mut B::Seat, turn: &mut Turn, v: u32) -> bool
    requires on_board { B.game board.now ≡ game.now }
    requires seat { B.fits board.now seat.old }
    requires turn { turn.old.game ≡ game.now }
    requires vertex { v < length game.now.vertices }

    ensures seat { B.fits board.now seat.new }
    ensures turn { turn.new.game ≡ game.now }
    ensures turned { By (B.did board.now seat.old seat.new) (IsTurn game.now v result) }
{
    game.known();
    turn.begin(game, v);
    turn.known();
    let successors = game.successors(v);
    for place in 0..successors.len() {
        turn.note(place, board.read(seat, successors[place]));
    }
    board.raise(seat, v, &turn.lifted(game))
}

// A turn at a vertex, which from then on isn't pending. The answer says whether the worker can go on: it can't where memory is refused
// for a job.
fn turn_at<K: GameName, B: Board, G: Gate, O: Observer, M: Pending>(
    floor: &Floor<K, B, G, O, M>,
    own: &mut Own<K>,
    turn: &mut Turn,
    seat: &mut B::Seat,
    tally: &mut TurnCounts,
    v: u32,
) -> bool
    requires one { IsOneGame K.game floor.now.game.now (B.game floor.now.board.now) floor.now.predecessors.now }
    requires seat { B.fits floor.now.board.now seat.old }
    requires turn { turn.old.game ≡ K.game }
    requires vertex { v < length K.game.vertices }

    ensures seat { B.fits floor.now.board.now seat.new }
    ensures turn { turn.new.game ≡ K.game }
    ensures turned { IsTrue result → Done (B.did floor.now.board.now seat.old seat.new) (Gave own.old own.new)
        (IsWork K.game (M.was_pending floor.now.marks.now) v) }
    ensures stopped { result ≡ false → IsFilled own.old own.new }
    ensures worker { tally.new.worker ≡ tally.old.worker }
{
    floor.watched.before(tally, v);
    floor.marks.clear(v);
    let rose = lift(floor.game, floor.board, seat, turn, v);
    tally.count_rise(rose);
    !rose || give_predecessors(floor.predecessors, floor.marks, own, v)
}

// The first turn of each of the worker's own vertices, which are jobs that no deque holds. The answer says whether the worker can go on.
fn first_turns<K: GameName, B: Board, G: Gate, O: Observer, M: Pending>(
    floor: &Floor<K, B, G, O, M>,
    own: &mut Own<K>,
    turn: &mut Turn,
    seat: &mut B::Seat,
    tally: &mut TurnCounts,
) -> bool
    requires one { IsOneGame K.game floor.now.game.now (B.game floor.now.board.now) floor.now.predecessors.now }
    requires seat { B.fits floor.now.board.now seat.old }
    requires turn { turn.old.game ≡ K.game }

    ensures seat { B.fits floor.now.board.now seat.new }
    ensures turn { turn.new.game ≡ K.game }
    ensures turned { IsTrue result → Done (B.did floor.now.board.now seat.old seat.new) (Gave own.old own.new)
        (AreTurns K.game (M.was_pending floor.now.marks.now)
        (own_vertices (length K.game.vertices) (max (length floor.now.others.now) 1) tally.old.worker)) }
    ensures stopped { result ≡ false → IsFilled own.old own.new }
    ensures worker { tally.new.worker ≡ tally.old.worker }
{
    let workers = floor.others.len().max(1);
    for v in 0..floor.game.vertices() {
        if v as usize % workers == tally.worker && !turn_at(floor, own, turn, seat, tally, v) {
            return false;
        }
    }
    true
}

// Turns at those vertices of a block that are pending. The answer says whether the worker can go on.
fn block_turns<K: GameName, B: Board, G: Gate, O: Observer, M: Pending>(
    floor: &Floor<K, B, G, O, M>,
    own: &mut Own<K>,
    turn: &mut Turn,
    seat: &mut B::Seat,
    tally: &mut TurnCounts,
    block: u32,
) -> bool
    requires one { IsOneGame K.game floor.now.game.now (B.game floor.now.board.now) floor.now.predecessors.now }
    requires seat { B.fits floor.now.board.now seat.old }
    requires turn { turn.old.game ≡ K.game }

    ensures seat { B.fits floor.now.board.now seat.new }
    ensures turn { turn.new.game ≡ K.game }
    ensures turned { IsTrue result → Done (B.did floor.now.board.now seat.old seat.new) (Gave own.old own.new)
        (AreSomeTurns K.game (M.was_pending floor.now.marks.now)) }
    ensures stopped { result ≡ false → IsFilled own.old own.new }
{
    floor.marks.begin(block);
    let end = block.saturating_add(BLOCK).min(floor.game.vertices());
    for v in block..end {
        if floor.marks.is_set(v) && !turn_at(floor, own, turn, seat, tally, v) {
            return false;
        }
    }
    true
}

// A job of one's own, or of another's, for which the worker rests where there is none. None once all rest.
fn next_job<K: GameName, B, G, O, M, R: Wait>(
    rt: &R,
    floor: &Floor<K, B, G, O, M>,
    own: &mut Own<K>,
    worker: usize,
) -> Option<u32>
    ensures vertex { IfSome result (λ v. v < length K.game.vertices) }
    ensures kept { Gave own.old own.new [] }
{
    match find(rt, worker, own, floor.others) {
        Some(v) => Some(v),
        None => floor.rest.until_job(rt, worker, floor.others),
    }
}

// Takes turns until all workers rest, or this one can't go on, and rests then.
fn take_turns<K: GameName, B: Board, G: Gate, O: Observer, M: Pending, R: Wait>(
    rt: &R,
    floor: &Floor<K, B, G, O, M>,
    own: &mut Own<K>,
    turn: &mut Turn,
    seat: &mut B::Seat,
    tally: &mut TurnCounts,
)
    requires one { IsOneGame K.game floor.now.game.now (B.game floor.now.board.now) floor.now.predecessors.now }
    requires seat { B.fits floor.now.board.now seat.old }
    requires turn { turn.old.game ≡ K.game }

    ensures seat { B.fits floor.now.board.now seat.new }
    ensures turn { turn.new.game ≡ K.game }
    ensures turned { IsFilled own.old own.new
        ⊎ HasWorked K.game (M.was_pending floor.now.marks.now)
        (own_vertices (length K.game.vertices) (max (length floor.now.others.now) 1) tally.old.worker)
        (B.did floor.now.board.now seat.old seat.new) (Gave own.old own.new) }
{
    let mut able = first_turns(floor, own, turn, seat, tally);
    for _ in rt.forever() {
        if !able {
            floor.rest.lie_down();
            return;
        }
        let Some(block) = next_job(rt, floor, own, tally.worker) else {
            return;
        };
        able = block_turns(floor, own, turn, seat, tally, block);
    }
}

/// The part of one worker. Where it gets no seat it does nothing.
pub(crate) fn work<K: GameName, B: Board, G: Gate, O: Observer, M: Pending, R: Wait>(
    rt: &R,
    floor: &Floor<K, B, G, O, M>,
    number: usize,
    state: &mut WorkerState<Own<K>>,
)
    requires one { IsOneGame K.game floor.now.game.now (B.game floor.now.board.now) floor.now.predecessors.now }
    requires turn { state.old.turn.game ≡ K.game }
    ensures { (B.is_full floor.now.board.now ⊎ IsFilled state.old.own state.new.own)
        ⊎ ((first last : B.Seat)
        × HasWorked K.game (M.was_pending floor.now.marks.now) (own_vertices (length K.game.vertices) (max (length floor.now.others.now) 1) number)
        (B.did floor.now.board.now first last) (Gave state.old.own state.new.own)) }
{
    floor.rest.begin();
    match floor.board.seat() {
        Ok(mut seat) => {
            let mut tally = TurnCounts::new(number);
            let WorkerState { own, turn } = state;
            take_turns(rt, floor, own, turn, &mut seat, &mut tally);
            floor.board.last(&mut seat);
            floor.watched.ended(tally);
        }
        Err(_) => floor.rest.lie_down(),
    }
}
