// A board of shards under locks.

ghost use Rattle.std.specs.Prelude.{◌≡◌, ◌<◌, IfOk, IfErr, IsOk, vec_len};
ghost use Rattle.std.specs.Arc.{arc_value};
ghost use Rattle.tables.specs.declared.error.TableError.TheVariants as errors;

use crate::board::Board;
use crate::error::TableError;
use crate::shard::Shard;
use game::graph::Game;
use game::name::GameName;
use measures::measure::Measure;
use measures::table::{PlainTable, opening_value};
use std::alloc::{AllocError, Global};
use std::sync::{Arc, Mutex, Wait};

/// The vertices of a game in shards, each shard under a lock of its own.
#[derive(Drop)]
pub struct LockedBoard<K: GameName, R: Wait + Drop> {
    rt: R,
    game: Arc<Game, Global>,
    shards: Vec<Mutex<Shard<K>>>,
    count: u32,
    ghost counted: { vec_len shards ≡ count },
    ghost some: { 0 < count },
    ghost named: { arc_value game ≡ K.game },
}

impl<K: GameName, R: Wait + Drop> LockedBoard<K, R> {
    /// A board of so many shards, with the opening values.
    ///
    /// # Errors
    /// T2.
    pub fn new(
        rt: R,
        alloc: Global,
        game: Arc<Game, Global>,
        shards: u32,
    ) -> Result<Self, TableError>
        requires game { arc_value game ≡ K.game }
        requires shards { 0 < shards }
        ensures { IfErr result (λ e. e ≡ errors.Memory) }
    {
        let mut row = Vec::with_capacity(alloc, shards as usize)?;
        for index in 0..shards {
            let shard = Shard::new(alloc, &game, index, shards)?;
            row.push(Mutex::new(shard)).map_err(AllocError::from)?;
        }
        Ok(LockedBoard {
            rt,
            game,
            shards: row,
            count: shards,
        })
    }

    // The lock of the shard that has a vertex.
    fn lock_of(&self, v: u32) -> &Mutex<Shard<K>> {
        &self.shards[(v % self.count) as usize]
    }

    // Where it stands there.
    fn place_of(&self, v: u32) -> u32 {
        v / self.count
    }
}

impl<K: GameName, R: Wait + Drop> Board for LockedBoard<K, R> {
    type Seat = ();

    ghost game = { λ b. K.game };

    ghost fits = { λ b s. Unit {0} };

    ghost did = { λ b first last accesses. Unit {0} };

    ghost is_full = { λ b. ⊥ };

    ghost idle = { λ b s. tt };

    ghost chained = { λ b first middle last before after one two. tt };

    fn seat(&self) -> Result<(), TableError>
        ensures seat { IfOk result (λ s. Unit {0}) }
        ensures none { IfErr result (λ e. ⊥) }
        ensures given { IsOk result }
    {
        Ok(())
    }

    fn read(&self, _seat: &mut (), v: u32) -> Measure {
        let place = self.place_of(v);
        let shard = self.lock_of(v).lock(&self.rt);
        if shard.has_at(v, place) {
            shard.read_at(v, place)
        } else {
            opening_value(&self.game, v)
        }
    }

    fn raise(&self, _seat: &mut (), v: u32, m: &Measure) -> bool {
        let place = self.place_of(v);
        let mut shard = self.lock_of(v).lock(&self.rt);
        shard.has_at(v, place) && shard.raise_at(v, place, m)
    }

    fn last(&self, _seat: &mut ()) {}

    fn finish(self, table: &mut PlainTable) {
        for v in 0..self.game.vertices() {
            table.raise(v, &self.read(&mut (), v));
        }
        table.known();
    }
}
