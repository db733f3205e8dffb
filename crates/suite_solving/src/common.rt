// What the tests of several topics use. A test owns what it works on, and makes it by these; what is claimed of it is claimed by functions to which
// it is lent. So the prover has little to keep at each step.

ghost use Rattle.std.specs.Prelude.{◌≡◌, ◌<◌, true, IfOk};
ghost use Rattle.std.specs.Arc.{arc_value};
ghost use Rattle.tables.specs.Seats.{board_game};

pub(crate) use game::graph::{Game, GameBuilder};
pub(crate) use game::name::GameName;
pub(crate) use game::player::Player;
pub(crate) use measures::measure::Measure;
pub(crate) use measures::settle::{is_settled, settle, solve_one};
pub(crate) use measures::table::{PlainTable, Settled, opening};
use pgsolver::read_game;
pub(crate) use samples::dice::{Dice, roll_game};
pub(crate) use samples::games::{push_row, shared_arena_of};
pub(crate) use samples::holds;
pub(crate) use samples::host::Host;
use samples::meeting::has_come;
pub(crate) use samples::ring_games::STEP;
pub(crate) use samples::texts::{RING, ring};
pub(crate) use std::alloc::{AllocError, Global};
pub(crate) use std::marker::Brand;
pub(crate) use std::process::Abort;
pub(crate) use std::sync::Arc;
pub(crate) use std::sync::atomic::{AtomicU64, Ordering};
pub(crate) use tables::board::Board;
pub(crate) use tables::locked::LockedBoard;
pub(crate) use tables::packed::PackedBoard;
pub(crate) use workers::error::SolveError;
pub(crate) use workers::gate::{Gate, NoGate};
pub(crate) use workers::solving::solve;

/// The game of `<a><a>true` on a ring of two states; STEP is that of `<a>true`.
pub(crate) const TWO_STEPS: &str =
    "parity 7;\n0 0 0 0;\n1 1 0 1;\n2 0 0 6;\n3 0 0 7;\n4 0 0 0;\n5 0 0 1;\n6 0 0 1;\n7 0 0 0;\n";

/// A formula that asks whether some path has `a` again and again.
pub(crate) const OFTEN: &str = "nu X. mu Y. (<a>X || <b>Y)";

/// A formula that asks whether `a` stays ahead, always.
pub(crate) const AHEAD: &str = "[true*]<true*>(<a>true)";

/// In place of a number of shards: the board has one word for each vertex.
pub(crate) const WORDS: u32 = 0;

/// Counters that threads share.
#[derive(Drop)]
pub(crate) struct Counts {
    by: Vec<AtomicU64>,
}

impl Counts {
    /// So many counters, which stand at zero.
    pub(crate) fn new(rt: &impl Host, count: u32) -> Self {
        let mut by = Vec::new(rt.alloc());
        for _ in 0..count {
            by.push(AtomicU64::new(0)).ok().expect(rt, "memory");
        }
        Counts { by }
    }

    /// One more in one of them, if it is there.
    pub(crate) fn add(&self, at: u32) {
        if let Some(counter) = self.by.get(at as usize) {
            counter.fetch_add(1, Ordering::SeqCst);
        }
    }

    /// What one of them stands at.
    pub(crate) fn of(&self, at: u32) -> u64 {
        match self.by.get(at as usize) {
            Some(counter) => counter.load(Ordering::SeqCst),
            None => 0,
        }
    }

    /// Waits until one of them stands at one at least.
    pub(crate) fn wait_for(&self, at: u32) {
        if let Some(counter) = self.by.get(at as usize) {
            has_come(counter, 1);
        }
    }

    /// What all of them come to.
    pub(crate) fn all(&self) -> u64 {
        let mut all = 0u64;
        for counter in &self.by {
            all = all.saturating_add(counter.load(Ordering::SeqCst));
        }
        all
    }
}

/// Counts the turns of each worker.
impl Gate for Counts {
    fn before(&self, worker: usize, _v: u32) {
        self.add(worker.min(1_000) as u32);
    }
}

/// What is claimed is so, or else the test tells the text.
pub(crate) fn require(rt: &impl Abort, is_so: bool, text: &str)
    ensures { is_so ≡ true }
{
    assert!(rt; is_so, "{text}");
}

/// What is claimed of a number is so, or else the test tells the text and the number.
pub(crate) fn holds_of(rt: &impl Abort, is_so: bool, text: &str, number: u64)
    ensures { is_so ≡ true }
{
    assert!(rt; is_so, "{text} {number}");
}

/// The game of this text.
pub(crate) fn game_of(rt: &impl Host, text: &[u8]) -> Game {
    read_game(rt.alloc(), text).expect(rt, "a game")
}

/// A game that is shared from now on.
pub(crate) fn shared_of(rt: &impl Host, game: Game) -> Arc<Game> {
    Arc::new(rt.alloc(), game).expect(rt, "memory")
}

/// The game of this text, to be shared.
pub(crate) fn shared_game(rt: &impl Host, text: &str) -> Arc<Game> {
    let game = game_of(rt, text.as_bytes());
    shared_of(rt, game)
}

/// The game of so many vertices that are pushed one by one, to be shared.
pub(crate) fn grown<Push: Fn(&mut GameBuilder, u32) -> Result<(), AllocError>>(
    rt: &impl Host,
    vertices: u32,
    push: &Push,
) -> Arc<Game>
    requires { Push.IsAlwaysCallable push.now }
{
    let mut builder = GameBuilder::new(rt.alloc());
    for v in 0..vertices {
        holds!(rt; push(&mut builder, v).is_ok());
    }
    let game = builder.finish().expect(rt, "a game");
    shared_of(rt, game)
}

/// The game of a system and a formula.
pub(crate) fn arena(rt: &impl Host, system: &str, formula: &str) -> Arc<Game> {
    shared_arena_of(rt, system, formula).expect(rt, "memory")
}

/// The game of a formula on a ring of 2,500 states, of which one alone has `a`.
pub(crate) fn long_arena(rt: &impl Host, formula: &str) -> Arc<Game> {
    let system = ring(rt.alloc(), 2500).expect(rt, "memory");
    arena(rt, system.as_str(), formula)
}

/// A game that is thrown: so many vertices, and priorities below 6.
pub(crate) fn rolled_game(rt: &impl Host, dice: &mut Dice, vertices: u32) -> Game
    requires { 0 < vertices }
{
    let rolled = roll_game(rt, dice, vertices, 6).expect(rt, "memory");
    rolled.expect(rt, "a game")
}

/// The table that lifting begins with.
pub(crate) fn opened(rt: &impl Host, game: &Game) -> PlainTable
    ensures { result.game ≡ game.now }
{
    opening(rt.alloc(), game).expect(rt, "memory")
}

/// The table that lifting ends with.
pub(crate) fn settled(rt: &impl Host, game: &Game) -> PlainTable
    ensures { result.game ≡ game.now }
{
    let mut table = opened(rt, game);
    settle(game, &mut table);
    table
}

/// The least progress table of a game.
pub(crate) fn solved(rt: &impl Host, game: &Game) -> Settled
    ensures { result.game ≡ game.now }
{
    solve_one(rt.alloc(), game).expect(rt, "memory")
}

/// Whether two tables of a game are the same.
pub(crate) fn agree(game: &Game, one: &Settled, other: &Settled) -> bool
    requires one { one.now.game ≡ game.now }
    requires other { other.now.game ≡ game.now }
{
    for v in 0..game.vertices() {
        if !one.value(v).compare(&other.value(v)).is_eq() {
            return false;
        }
    }
    true
}

/// Whether a table is the one that one thread comes to.
pub(crate) fn is_least(rt: &impl Host, game: &Game, table: &Settled) -> bool
    requires { table.now.game ≡ game.now }
{
    let one = solved(rt, game);
    agree(game, &one, table)
}

// The game once more, for a board that owns it.
fn shared(rt: &impl Abort, game: &Arc<Game>) -> Arc<Game>
    ensures { arc_value result ≡ arc_value game.now }
{
    Arc::try_clone(game).expect(rt, "memory")
}

/// A board of one word for each vertex.
pub(crate) fn board_of_words(rt: &impl Host, game: &Arc<Game>, seats: u32) -> PackedBoard
    requires { 0 < seats }
    ensures { board_game result ≡ arc_value game.now }
{
    PackedBoard::new(rt.alloc(), shared(rt, game), seats).expect(rt, "memory")
}

/// A board of so many shards under locks.
pub(crate) fn board_of_shards<K: GameName, R: Host>(
    rt: &R,
    game: &Arc<Game>,
    shards: u32,
) -> LockedBoard<K, R>
    requires named { arc_value game.now ≡ K.game }
    requires shards { 0 < shards }
{
    LockedBoard::<K, R>::new(*rt, rt.alloc(), shared(rt, game), shards).expect(rt, "memory")
}

fn lifted_by_name<K: GameName + Send + Sync, R: Host, G: Gate>(
    rt: &R,
    game: &Arc<Game>,
    shards: u32,
    workers: usize,
    gate: &G,
) -> Result<Settled, SolveError>
    requires named { arc_value game.now ≡ K.game }
    requires workers { 0 < workers }
    ensures { IfOk result (λ s. s.game ≡ arc_value game.now) }
{
    if shards == WORDS {
        let board = board_of_words(rt, game, 1);
        return solve(rt, rt.alloc(), game, board, workers, gate);
    }
    let board = board_of_shards::<K, R>(rt, game, shards);
    solve(rt, rt.alloc(), game, board, workers, gate)
}

/// What so many workers come to over a board of so many shards, or of words, that begins with the opening table.
pub(crate) fn lifted<R: Host, G: Gate>(
    rt: &R,
    game: &Arc<Game>,
    shards: u32,
    workers: usize,
    gate: &G,
) -> Result<Settled, SolveError>
    requires { 0 < workers }
    ensures { IfOk result (λ s. s.game ≡ arc_value game.now) }
{
    lifted_by_name::<Brand, R, G>(rt, game, shards, workers, gate)
}
