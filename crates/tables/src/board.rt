// Tables of measures that workers share.

ghost use Rattle.std.specs.Prelude.{◌≡◌, ◌<◌, ◌++◌, ◌∷◌, [], List, ◌⊎◌, IfErr, IfOk, length};
ghost use Rattle.game.specs.Game.{Game};
ghost use Rattle.measures.specs.Progress.{LiesUnder};
ghost use Rattle.measures.specs.Tables.{LiesBelow};
ghost use Rattle.tables.specs.Turns.{By, IsPoured, IsRaise};
ghost use Rattle.tables.specs.declared.access.Access.{Access};
ghost use Rattle.tables.specs.declared.access.Access.TheVariants as access;

use crate::error::TableError;
use measures::measure::Measure;
use measures::table::PlainTable;

/// A measure for each vertex of one game, none above that of any progress table, read and raised by several workers at once.
///
/// Of a value that is read only that is known: another worker may raise it at any time.
pub trait Board {
    /// What a worker reads and raises by.
    type Seat: Drop + Send;

    /// The game that the board is made for.
    ghost game: { Self → Game };

    /// The board gave the seat.
    ghost fits: { Self → Self.Seat → Type 0 };

    /// By these accesses, in order, the first seat became the second.
    ghost did: { Self → Self.Seat → Self.Seat → List Access → Type 0 };

    /// It has no seat to give.
    ghost is_full: { Self → Type 0 };

    /// A seat for one worker.
    ///
    /// # Errors
    /// T3 where none was found to give.
    fn seat(&self) -> Result<Self::Seat, TableError>
        ensures seat { IfOk result (λ s. fits self.now s) }
        ensures none { IfErr result (λ e. is_full self.now) };

    /// The measure of a vertex.
    fn read(&self, seat: &mut Self::Seat, v: u32) -> Measure
        requires seat { fits self.now seat.old }
        requires vertex { v < length (game self.now).vertices }
        ensures seat { fits self.now seat.new }
        ensures below { LiesBelow (game self.now) v result }
        ensures read { did self.now seat.old seat.new (access.Read v result ∷ []) };

    /// Raises the measure of a vertex to this one, and says whether it rose.
    fn raise(&self, seat: &mut Self::Seat, v: u32, m: &Measure) -> bool
        requires seat { fits self.now seat.old }
        requires vertex { v < length (game self.now).vertices }
        requires below { LiesBelow (game self.now) v m.now }
        ensures seat { fits self.now seat.new }
        ensures raised { By (did self.now seat.old seat.new) (IsRaise v m.now result) };

    /// A worker's last call.
    fn last(&self, seat: &mut Self::Seat)
        requires { fits self.now seat.old }
        ensures { fits self.now seat.new };

    /// Raises a table to what the board has, when the workers have ended: every vertex is read by one more seat. It takes no memory. Where
    /// there is no seat, nothing is raised.
    fn finish(self, table: &mut PlainTable)
        requires { table.old.game ≡ game self }
        ensures game { table.new.game ≡ game self }
        ensures kept { LiesUnder table.old.values table.new.values }
        ensures poured { is_full self ⊎ ((first last : Self.Seat) × By (did self first last) (IsPoured (game self) table.new.values)) };

    /// A seat that nothing was done by is what it was.
    ghost idle: { (b : Self) (s : Self.Seat) → did b s s [] };

    /// What was done by a seat and then what was done by it later is what was done by it.
    ghost chained: { (b : Self) (first middle last : Self.Seat) (before after : List Access)
        → did b first middle before → did b middle last after → did b first last (before ++ after) };
}
