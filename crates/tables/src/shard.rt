// Shards of a game's vertices.

ghost use Rattle.std.specs.Prelude.{◌≡◌, ◌<◌, ◌↔◌, ◌/◌, ℕ, IfErr, IfOk, IsTrue, length, slice_set};
ghost use Rattle.measures.specs.Measure.{IsBelow};
ghost use Rattle.measures.specs.Progress.{greater_of, opening as opening_of, value_at};
ghost use Rattle.measures.specs.Tables.{LiesBelow};
ghost use Rattle.tables.specs.declared.error.TableError.TheVariants as errors;
ghost use Rattle.tables.specs.Part.{Has, value_of_part};

use crate::error::TableError;
use game::graph::Game;
use game::name::GameName;
use measures::bounds::width;
use measures::measure::Measure;
use measures::rows::MeasureRows;
use measures::table::turns_odd;
use std::alloc::Global;
use std::marker::{Model, PhantomData};

/// Every `shards`th vertex of the game that K names, from `index` on, each with a measure that is not above that of any
/// progress table.
#[derive(Drop)]
pub struct Shard<K: GameName> {
    index: u32,
    shards: u32,
    rows: MeasureRows,
    of: PhantomData<K>,
}

impl<K: GameName> Model for Shard<K> {
    ghost use Rattle.tables.specs.Part.{ShardPart, IsStoredPart};

    ghost Value = { ShardPart };

    ghost view = { λ s. record { index = s.index; shards = s.shards; values = s.rows.values } };

    ghost invariant = { λ s. IsStoredPart K.game record { index = s.index; shards = s.shards; values = s.rows.values } s.rows.width };
}

impl<K: GameName> Shard<K> {
    /// The opening values of the shard's vertices.
    ///
    /// # Errors
    /// T2.
    pub fn new(alloc: Global, game: &Game, index: u32, shards: u32) -> Result<Self, TableError>
        requires game { game.now ≡ K.game }
        requires index { index < shards }

        ensures index { IfOk result (λ s. s.index ≡ index) }
        ensures shards { IfOk result (λ s. s.shards ≡ shards) }

        ensures refused { IfErr result (λ e. e ≡ errors.Memory) }
        ensures values { IfOk result (λ s. (v : ℕ) → v < length K.game.vertices → Has s v → value_of_part s v ≡ value_at (opening_of K.game) v) }
    {
        game.known();
        let vertices = game.vertices();
        let places = vertices.div_ceil(shards);
        let mut rows = MeasureRows::zeros(alloc, places as usize, width(game))?;
        for place in 0..places {
            let v = u64::from(place) * u64::from(shards) + u64::from(index);
            if v < u64::from(vertices) && turns_odd(game, v as u32) {
                rows.set(place as usize, &Measure::top());
            }
        }
        Ok(Shard {
            index,
            shards,
            rows,
            of: PhantomData,
        })
    }

    /// Whether a vertex is one of the shard's.
    pub fn has(&self, v: u32) -> bool
        ensures { IsTrue result ↔ Has self.now v }
    {
        v % self.shards == self.index
    }

    /// Whether a vertex is one of the shard's and stands at this place. It divides nothing: under a lock that would take the
    /// longest.
    pub(crate) fn has_at(&self, v: u32, place: u32) -> bool
        ensures has { IsTrue result → Has self.now v }
        ensures place { IsTrue result → v / self.now.shards ≡ place }
    {
        if self.index >= self.shards {
            return false;
        }
        u64::from(place) * u64::from(self.shards) + u64::from(self.index) == u64::from(v)
    }

    /// The measure of one of the shard's vertices, which stands at this place.
    #[tactic(auto, using(measures::proofs::Plain::bounds_few))]
    pub(crate) fn read_at(&self, v: u32, place: u32) -> Measure
        requires vertex { v < length K.game.vertices }
        requires here { Has self.now v }
        requires place { v / self.now.shards ≡ place }

        ensures value { result ≡ value_of_part self.now v }
        ensures below { LiesBelow K.game v result }
    {
        // For the proof alone: clauses name it.
        let _ = v;
        self.rows.value(place as usize)
    }

    /// The measure of one of the shard's vertices.
    pub fn read(&self, v: u32) -> Measure
        requires vertex { v < length K.game.vertices }
        requires here { Has self.now v }
        ensures value { result ≡ value_of_part self.now v }
        ensures below { LiesBelow K.game v result }
    {
        self.read_at(v, v / self.shards)
    }

    /// Leaves the greater of the old measure and the new, at a vertex that stands at this place. The answer says whether it rose.
    pub(crate) fn raise_at(&mut self, v: u32, place: u32, m: &Measure) -> bool
        requires vertex { v < length K.game.vertices }
        requires here { Has self.old v }
        requires place { v / self.old.shards ≡ place }
        requires below { LiesBelow K.game v m.now }

        ensures index { self.new.index ≡ self.old.index }
        ensures shards { self.new.shards ≡ self.old.shards }
        ensures values { self.new.values ≡ slice_set self.old.values (v / self.old.shards) (greater_of (value_of_part self.old v) m.now) }
        ensures rose { IsTrue result ↔ IsBelow (value_of_part self.old v) m.now }
    {
        // For the proof alone: clauses name it.
        let _ = v;
        let place = place as usize;
        if self.rows.compare_with(place, m).is_ge() {
            return false;
        }
        self.rows.set(place, m);
        true
    }

    /// Leaves the greater of the old measure and the new. The answer says whether it rose.
    pub fn raise(&mut self, v: u32, m: &Measure) -> bool
        requires vertex { v < length K.game.vertices }
        requires here { Has self.old v }
        requires below { LiesBelow K.game v m.now }

        ensures index { self.new.index ≡ self.old.index }
        ensures shards { self.new.shards ≡ self.old.shards }
        ensures values { self.new.values ≡ slice_set self.old.values (v / self.old.shards) (greater_of (value_of_part self.old v) m.now) }
        ensures rose { IsTrue result ↔ IsBelow (value_of_part self.old v) m.now }
    {
        self.raise_at(v, v / self.shards, m)
    }
}
