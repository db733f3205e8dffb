// Tables of measures.

ghost use Rattle.std.specs.Prelude.{◌≡◌, ◌≢◌, ◌<◌, ◌↔◌, ℕ, Contains, IsSome, IsTrue, Some, length, option_map, slice_set, IfOk};
ghost use Rattle.std.specs.List.{AllByRecursion};
ghost use Rattle.game.specs.Game.{vertex};
ghost use Rattle.game.specs.Wins.{Wins};
ghost use Rattle.measures.specs.Laws.{IsBestSuccessor};
ghost use Rattle.measures.specs.Measure.{Counts, IsProg, Top};
ghost use Rattle.measures.specs.Progress.{IsLeastTable, IsProgress, LiesUnder, greater_of, opening as opening_of, value_at};
ghost use Rattle.measures.specs.Settling.{IsStill, LiftsAt};
ghost use Rattle.measures.specs.Tables.{IsOpening, IsPlain, IsSettled, IsStoredSettled, LiesBelow};

use crate::bounds::{bounds, width};
use crate::measure::Measure;
use crate::pending::PendingVertices;
use crate::progs::prog_of;
use crate::rows::MeasureRows;
use arrayvec::ArrayVec;
use game::graph::Game;
use game::player::Player;
use game::predecessors::Predecessors;
use std::alloc::Global;
use std::marker::Model;
use std::snapshot::Snapshot;
use text::Memory;

/// A measure for each vertex of a game, none of them above that of any progress table.
#[derive(Drop)]
pub struct PlainTable {
    rows: MeasureRows,
    bounds: ArrayVec<u32, 16>,
    pending: PendingVertices,
    of: Snapshot<Game>,
}

impl Model for PlainTable {
    ghost use Rattle.measures.specs.Tables.{IsTableStored, GameTable};

    ghost Value = { GameTable };

    ghost view = { λ t. record { game = t.of.value; values = t.rows.values } };

    ghost invariant = { λ t. IsTableStored record { game = t.of.value; values = t.rows.values } t.bounds.items t.rows.width t.pending };
}

/// Whether a vertex is Odd's for ever: its priority is odd, and its only successor is itself. Its opening value is then top,
/// and else zeros.
pub fn turns_odd(game: &Game, v: u32) -> bool
    requires { v < length game.now.vertices }
    ensures { IsOpening game.now v result }
{
    game.priority(v) % 2 == 1 && game.successors(v) == [v].as_slice()
}

/// The measure of a vertex that lifting begins with.
#[tactic(auto, using(crate::proofs::Plain::bounds_few, crate::proofs::Plain::opening_is))]
pub fn opening_value(game: &Game, v: u32) -> Measure
    requires { v < length game.now.vertices }
    ensures value { result ≡ value_at (opening_of game.now) v }
    ensures below { LiesBelow game.now v result }
{
    game.known();
    if turns_odd(game, v) {
        Measure::top()
    } else {
        Measure::padded(ArrayVec::new(), bounds(game).len())
    }
}

/// The table that lifting begins with: top at a vertex of odd priority whose only successor is itself, and else zeros.
///
/// # Errors
/// Out of memory, and nothing else.
pub fn opening(alloc: Global, game: &Game) -> Result<PlainTable, Memory>
    ensures game { IfOk result (λ t. t.game ≡ game.now) }
    ensures values { IfOk result (λ t. t.values ≡ opening_of game.now) }
{
    game.known();
    let bounds = bounds(game);
    let mut rows = MeasureRows::zeros(alloc, game.vertices() as usize, bounds.len())?;
    for v in 0..game.vertices() {
        if turns_odd(game, v) {
            rows.set(v as usize, &Measure::top());
        }
    }
    let climbs = bounds.iter().any(|bound| *bound > 1);
    Ok(PlainTable {
        rows,
        bounds,
        pending: PendingVertices::of(alloc, game, climbs)?,
        of: Snapshot::of(game),
    })
}

impl PlainTable {
    /// What holds of every table.
    pub fn known(&self)
        ensures { IsPlain self.now }
    {
        // For the proof: reading a field makes the invariant known.
        let _ = &self.rows;
    }

    /// The predecessors of its game's vertices.
    pub fn predecessors(&self) -> &Predecessors
        ensures { result.now ≡ self.now.game }
    {
        self.pending.predecessors()
    }

    /// The measure of a vertex.
    #[tactic(auto, using(crate::proofs::Plain::bounds_few))]
    pub fn value(&self, v: u32) -> Measure
        requires { v < length self.now.game.vertices }
        ensures value { result ≡ value_at self.now.values v }
        ensures below { LiesBelow self.now.game v result }
    {
        self.rows.value(v as usize)
    }

    /// Whether the measure of a vertex is top. It copies nothing.
    pub fn is_top(&self, v: u32) -> bool
        requires { v < length self.now.game.vertices }
        ensures { IsTrue result ↔ (value_at self.now.values v ≡ Top) }
    {
        self.rows.is_top(v as usize)
    }

    /// Leaves the greater of the old measure and the new.
    #[tactic(auto, using(crate::proofs::Rising::under_itself))]
    pub fn raise(&mut self, v: u32, m: &Measure)
        requires vertex { v < length self.old.game.vertices }
        requires below { LiesBelow self.old.game v m.now }

        ensures game { self.new.game ≡ self.old.game }
        ensures values { self.new.values ≡ slice_set self.old.values v (greater_of (value_at self.old.values v) m.now) }
        ensures kept { LiesUnder self.old.values self.new.values }
    {
        if self.rows.compare_with(v as usize, m).is_lt() {
            self.rows.set(v as usize, m);
            self.pending.note(v);
        }
    }

    /// Leaves top where Even doesn't win.
    #[tactic(auto, using(crate::proofs::Lost::lost_below))]
    pub fn raise_lost(&mut self, v: u32)
        requires vertex { v < length self.old.game.vertices }
        requires lost { Wins self.old.game v → ⊥ }
        ensures game { self.new.game ≡ self.old.game }
        ensures values { self.new.values ≡ slice_set self.old.values v (greater_of (value_at self.old.values v) Top) }
    {
        self.known();
        self.raise(v, &Measure::top());
    }

    /// Whether no lift raises a vertex.
    pub(crate) fn is_still(&self, game: &Game, v: u32) -> bool
        requires same { self.now.game ≡ game.now }
        requires vertex { v < length game.now.vertices }
        ensures { IsTrue result ↔ IsStill game.now self.now.values v }
    {
        self.rows.is_still(game, v)
    }

    // What a vertex of this priority asks for where its play goes on at another vertex.
    fn prog_of(&self, priority: u8, next: usize) -> Measure
        requires { next < length self.now.values }
        ensures { IsProg self.now.game priority (value_at self.now.values next) result }
    {
        if self.rows.is_top(next) {
            Measure::top()
        } else {
            prog_of(self.bounds.as_slice(), priority, self.rows.counts(next))
        }
    }

    /// Raises a vertex to its lift. The answer says whether it rose.
    pub(crate) fn lift_at(&mut self, game: &Game, v: u32) -> bool
        requires same { self.old.game ≡ game.now }
        requires vertex { v < length game.now.vertices }
        ensures game { self.new.game ≡ game.now }
        ensures lifts { LiftsAt game.now v self.old.values self.new.values result }
    {
        let priority = game.priority(v);
        let best = self.rows.best(game.owner(v), game.successors(v)) as usize;
        if self.rows.reaches(v as usize, best, priority) {
            return false;
        }
        let risen = self.prog_of(priority, best);
        self.rows.set(v as usize, &risen);
        self.pending.note(v);
        true
    }

    /// A vertex that may rise, if one is noted.
    pub(crate) fn next_pending(&mut self) -> Option<u32>
        ensures { self.new ≡ self.old }
    {
        self.pending.next()
    }

    /// The table again, where it is a progress table: no other one is less.
    #[tactic(auto, using(crate::proofs::Plain::plain_settled))]
    pub fn into_settled(self) -> Settled
        requires { IsProgress self.game self.values }
        ensures { result ≡ self }
    {
        self.known();
        let PlainTable { rows, of, .. } = self;
        Settled::of_rows(rows, of)
    }
}

/// The least progress table of a game.
#[derive(Drop)]
pub struct Settled {
    values: MeasureRows,
    of: Snapshot<Game>,
}

impl Model for Settled {
    ghost use Rattle.measures.specs.Tables.{IsStoredSettled, GameTable};

    ghost Value = { GameTable };

    ghost view = { λ s. record { game = s.of.value; values = s.values.values } };

    ghost invariant = { λ s. IsStoredSettled record { game = s.of.value; values = s.values.values } s.values.width };
}

impl Settled {
    // The least progress table from its rows.
    pub(crate) fn of_rows(rows: MeasureRows, of: Snapshot<Game>) -> Self
        requires { IsStoredSettled record { game = of.value; values = rows.values } rows.width }
        ensures { result ≡ record { game = of.value; values = rows.values } }
    {
        Settled { values: rows, of }
    }

    /// Whether the measure of a vertex is top.
    pub fn is_top(&self, v: u32) -> bool
        requires { v < length self.now.game.vertices }
        ensures value { IsTrue result ↔ (value_at self.now.values v ≡ Top) }
        ensures settled { IsSettled self.now }
    {
        self.values.is_top(v as usize)
    }

    /// What holds of every settled table.
    pub fn known(&self)
        ensures { IsSettled self.now }
    {
        // For the proof: reading a field makes the invariant known.
        let _ = &self.values;
    }

    /// The measure of a vertex.
    #[tactic(auto, using(crate::proofs::Plain::bounds_few))]
    pub fn value(&self, v: u32) -> Measure
        requires { v < length self.now.game.vertices }
        ensures value { result ≡ value_at self.now.values v }
        ensures least { IsSettled self.now }
    {
        self.values.value(v as usize)
    }

    /// The counts of a vertex's measure. They are not copied.
    #[tactic(auto, using(crate::proofs::Reaching::counts_here))]
    pub fn counts(&self, v: u32) -> &[u32]
        requires vertex { v < length self.now.game.vertices }
        requires counts { value_at self.now.values v ≢ Top }
        ensures { Counts result.now ≡ value_at self.now.values v }
    {
        self.values.counts(v as usize)
    }

    /// Where Even goes on from one of its vertices: to the least of the successors with the least `prog`. It is the first whose measure the
    /// vertex's reaches, and the last where no other is, so that no `prog` is computed, and a successor that is alone isn't looked at.
    pub fn best_successor(&self, game: &Game, v: u32) -> u32
        requires same { self.now.game ≡ game.now }
        requires vertex { v < length game.now.vertices }
        requires own { option_map (λ x. x.owner) (vertex game.now v) ≡ Some Player.Even }
        ensures { IsBestSuccessor game.now self.now.values v result }
    {
        self.known();
        let priority = game.priority(v);
        let successors = game.successors(v);
        let last = successors.len() - 1;
        for k in 0..last {
            let next = successors[k];
            if self.values.reaches(v as usize, next as usize, priority) {
                return next;
            }
        }
        successors[last]
    }
}
