// A board of one atomic word for each vertex, which only rises.

ghost use Rattle.std.specs.Prelude.{◌≡◌, ◌<◌, ◌≤◌, ◌↔◌, ◌⊎◌, ◌∷◌, ℕ, [], Err, IfErr, IfOk, IfSome, IsSome, IsTrue, length, slice_index, slice_set};
ghost use Rattle.std.specs.Arc.{arc_value};
ghost use Rattle.std.specs.Mem.Slots.{IsFull, slots_items, slots_len};
ghost use Rattle.measures.specs.Lifting.{better_of, height, of_rank as measure_of_rank, sum_of, worst_of};
ghost use Rattle.measures.specs.Measure.{IsAtMost, IsBelow};
ghost use Rattle.measures.specs.Progress.{IsLeastTable, IsOverLift, LiesUnder, greater_of, opening as opening_of, value_at};
ghost use Rattle.measures.specs.Tables.{LiesBelow};
ghost use Rattle.measures.specs.declared.rank.TheConstants.{RANK_LIMIT};
ghost use Rattle.tables.specs.Packed.{IsOpeningRank, IsWord};
ghost use Rattle.tables.specs.Turns.{Asks, By, IsPoured, IsRaise, IsTurn};
ghost use Rattle.tables.specs.Weights.{AreWeights};

use crate::access::Access;
use crate::error::TableError;
use crate::weights::{prog_rank, weights};
use arrayvec::ArrayVec;
use atomic_table::{Closed, Play, Seat, Table, TableRule};
use game::graph::Game;
use game::player::Player;
use measures::measure::Measure;
use measures::rank::{of_rank, rank, top_rank};
use measures::table::{PlainTable, opening, turns_odd};
use std::alloc::{AllocError, Global};
use std::collections::LinkedList;
use std::marker::Model;
use std::sync::Arc;

/// What a seat knows: its game, the measure that it has seen at each vertex, and what it did. No value of it is made.
pub struct View {
    pub of: Game,
    pub seen: LinkedList<Measure>,
    pub done: LinkedList<Access>,
}

/// Each word is the rank of a measure that is below, and no seat has seen more.
pub struct Law;

impl TableRule<(), View, Game> for Law {
    ghost use Rattle.tables.specs.Packed.{IsKept, newcomer};

    ghost holds = { λ g s. IsKept g s };

    ghost first = { newcomer };
}

/// A load: the word is seen, and was read.
pub struct Looks;

impl Play<(), View> for Looks {
    ghost use Rattle.tables.specs.Packed.{Looked};

    ghost then = { Looked };
}

/// A raise: the greater of the word and the rank that is brought is seen, and the word was raised.
pub struct Raises;

impl Play<(), View> for Raises {
    ghost use Rattle.tables.specs.Packed.{Raised};

    ghost then = { Raised };
}

/// A load that makes a seat, which has seen the opening table.
pub struct Enters;

impl Play<(), View> for Enters {
    ghost use Rattle.tables.specs.Packed.{Entered};

    ghost then = { Entered };
}

/// One word for each vertex: the rank of its measure. A word changes by `fetch_max` alone.
#[derive(Drop)]
pub struct PackedBoard {
    game: Arc<Game, Global>,
    top: u64,
    weights: ArrayVec<u64, 17>,
    table: Table<(), View, Game, Law, Global>,
    ghost topped: { top ≡ height (arc_value game) },
    ghost few: { top < RANK_LIMIT },
    ghost weighed: { AreWeights (arc_value game) weights.items },
    ghost keyed: { table.shared.key ≡ arc_value game },
    ghost sized: { table.shared.table_id.words ≡ length (arc_value game).vertices },
    ghost slotless: { table.shared.table_id.slots ≡ 0 },
}

/// What one thread has seen of a packed board. It has no bytes.
#[derive(Drop)]
pub struct PackedSeat {
    seat: Seat<(), View>,
}

// The rank of the opening value of a vertex.
#[tactic(auto, using(measures::proofs::Numbers::of_rank_zero))]
fn opening_rank(game: &Game, top: u64, v: u32) -> u64
    requires top { top ≡ height game.now }
    requires vertex { v < length game.now.vertices }
    ensures { IsOpeningRank game.now v result }
{
    if turns_odd(game, v) { top } else { 0 }
}

// Those of all vertices.
fn opening_ranks(alloc: Global, game: &Game, top: u64) -> Result<Vec<u64>, AllocError>
    requires { top ≡ height game.now }
    ensures long { IfOk result (λ ranks. length ranks.items ≡ length game.now.vertices) }
    ensures ranks { IfOk result (λ ranks. (v : ℕ) → v < length game.now.vertices → IsOpeningRank game.now v (slice_index ranks.items v)) }
{
    let mut ranks = Vec::with_capacity(alloc, game.vertices() as usize)?;
    for v in 0..game.vertices() {
        ranks.push(opening_rank(game, top, v))?;
    }
    Ok(ranks)
}

// The rank that each rank is as good as, for this player.
fn worst_rank(player: Player, top: u64) -> u64
    ensures { (g : Game) → top ≡ height g → result ≡ worst_of player g }
{
    match player {
        Player::Even => top,
        Player::Odd => 0,
    }
}

// The rank with which this player goes on.
fn better_rank(player: Player, first: u64, second: u64) -> u64
    ensures { result ≡ better_of player first second }
{
    match player {
        Player::Even => first.min(second),
        Player::Odd => first.max(second),
    }
}

impl PackedBoard {
    ghost use Rattle.tables.specs.Seats.{Did, IsSeatOf, board_game, seen};
    ghost use Rattle.tables.specs.declared.access.Access.TheVariants as access;
    ghost use Rattle.tables.specs.declared.error.TableError.TheVariants as errors;

    /// The board of the opening table. It gives as many seats as are asked for, so that their number is nothing to it.
    ///
    /// # Errors
    /// T1 where top's rank isn't below the limit, and only there; T2.
    pub fn new(alloc: Global, game: Arc<Game, Global>, seats: u32) -> Result<Self, TableError>
        requires { 0 < seats }
        ensures game { IfOk result (λ b. board_game b ≡ arc_value game) }
        ensures ranks { (result ≡ Err errors.TooManyRanks) ↔ (RANK_LIMIT ≤ height (arc_value game)) }
        ensures refused { IfErr result (λ e. (e ≡ errors.TooManyRanks) ⊎ (e ≡ errors.Memory)) }
    {
        // For the proof alone: clauses name it.
        let _ = seats;
        game.known();
        let Some(top) = top_rank(&game) else {
            return Err(TableError::TooManyRanks);
        };
        let weights = weights(&game);
        let Ok(ranks) = opening_ranks(alloc, &game, top) else {
            return Err(TableError::Memory);
        };
        match Table::of_words(alloc, &ranks, &*game) {
            Ok((table, _seat)) => Ok(PackedBoard {
                game,
                top,
                weights,
                table,
            }),
            Err(_) => Err(TableError::Memory),
        }
    }

    /// A seat that has seen the opening table. There is none in a game without vertices.
    pub fn new_seat(&self) -> Option<PackedSeat>
        ensures some { IsSome result ↔ (0 < length (board_game self.now).vertices) }
        ensures seat { IfSome result (λ s. IsSeatOf self.now s) }
        ensures opened { IfSome result (λ s. seen s ≡ opening_of (board_game self.now)) }
    {
        self.game.known();
        if self.game.vertices() == 0 {
            return None;
        }
        let (_, seat) = self.table.shared.load_new_seat::<Enters>(0);
        Some(PackedSeat { seat })
    }

    // Sees the word of a vertex.
    fn look_at(&self, seat: &mut PackedSeat, v: u32) -> u64
        requires seat { IsSeatOf self.now seat.old }
        requires vertex { v < length (board_game self.now).vertices }

        ensures seat { IsSeatOf self.now seat.new }
        ensures word { IsWord (board_game self.now) v result }
        ensures later { IsAtMost (value_at (seen seat.old) v) (measure_of_rank (board_game self.now) result) }
        ensures seen { seen seat.new ≡ slice_set (seen seat.old) v (measure_of_rank (board_game self.now) result) }
        ensures read { Did seat.old seat.new (access.Read v (measure_of_rank (board_game self.now) result) ∷ []) }
    {
        self.table.shared.load::<Looks>(&mut seat.seat, v as usize)
    }

    /// Sees the measure of a vertex, which is no less than what was seen there.
    pub fn load(&self, seat: &mut PackedSeat, v: u32) -> Measure
        requires seat { IsSeatOf self.now seat.old }
        requires vertex { v < length (board_game self.now).vertices }

        ensures seat { IsSeatOf self.now seat.new }
        ensures below { LiesBelow (board_game self.now) v result }
        ensures later { IsAtMost (value_at (seen seat.old) v) result }
        ensures seen { seen seat.new ≡ slice_set (seen seat.old) v result }
        ensures read { Did seat.old seat.new (access.Read v result ∷ []) }
    {
        of_rank(&self.game, self.look_at(seat, v))
    }

    // The rank of the best that a vertex asks for at its successors, as they are seen now.
    fn best_rank(&self, seat: &mut PackedSeat, v: u32) -> u64
        requires seat { IsSeatOf self.now seat.old }
        requires vertex { v < length (board_game self.now).vertices }

        ensures seat { IsSeatOf self.now seat.new }
        ensures kept { LiesUnder (seen seat.old) (seen seat.new) }
        ensures low { result ≤ height (board_game self.now) }
        ensures over { IsOverLift (board_game self.now) (seen seat.old) v
            (greater_of (value_at (seen seat.old) v) (measure_of_rank (board_game self.now) result)) }
        ensures below { LiesBelow (board_game self.now) v (measure_of_rank (board_game self.now) result) }
        ensures asked { By (Did seat.old seat.new) (Asks (board_game self.now) v (measure_of_rank (board_game self.now) result)) }
    {
        let game: &Game = &self.game;
        game.known();
        let weights = self.weights.as_slice();
        let owner = game.owner(v);
        let mut best = worst_rank(owner, self.top);
        for t in game.successors(v) {
            let number = self.look_at(seat, *t);
            let asked = prog_rank(game, weights, self.top, v, number);
            best = better_rank(owner, best, asked);
        }
        best
    }

    // Leaves the greater of the word of a vertex and this rank, and says whether it rose.
    fn max_to(&self, seat: &mut PackedSeat, v: u32, number: u64) -> bool
        requires seat { IsSeatOf self.now seat.old }
        requires vertex { v < length (board_game self.now).vertices }
        requires low { number ≤ height (board_game self.now) }
        requires below { LiesBelow (board_game self.now) v (measure_of_rank (board_game self.now) number) }

        ensures seat { IsSeatOf self.now seat.new }
        ensures kept { LiesUnder (seen seat.old) (seen seat.new) }
        ensures raised { IsAtMost (measure_of_rank (board_game self.now) number) (value_at (seen seat.new) v) }
        ensures rose { (was : ℕ) × (IsTrue result ↔ IsBelow (measure_of_rank (board_game self.now) was) (measure_of_rank (board_game self.now) number))
            × Did seat.old seat.new (access.Raise v (measure_of_rank (board_game self.now) was) (measure_of_rank (board_game self.now) number) ∷ []) }
    {
        let found = self
            .table
            .shared
            .fetch_max::<Raises>(&mut seat.seat, v as usize, number);
        found < number
    }

    // Raises the word of a vertex to this rank, and says whether it rose. A word that needn't rise is only looked at: to write
    // it takes the processor many times as long.
    fn raise_to(&self, seat: &mut PackedSeat, v: u32, number: u64) -> bool
        requires seat { IsSeatOf self.now seat.old }
        requires vertex { v < length (board_game self.now).vertices }
        requires low { number ≤ height (board_game self.now) }
        requires below { LiesBelow (board_game self.now) v (measure_of_rank (board_game self.now) number) }

        ensures seat { IsSeatOf self.now seat.new }
        ensures kept { LiesUnder (seen seat.old) (seen seat.new) }
        ensures raised { IsAtMost (measure_of_rank (board_game self.now) number) (value_at (seen seat.new) v) }
        ensures rose { By (Did seat.old seat.new) (IsRaise v (measure_of_rank (board_game self.now) number) result) }
    {
        let found = self.look_at(seat, v);
        if number <= found {
            return false;
        }
        self.max_to(seat, v, number)
    }

    /// Raises the measure of a vertex to this one, and says whether it rose.
    pub(crate) fn lift_to(&self, seat: &mut PackedSeat, v: u32, m: &Measure) -> bool
        requires seat { IsSeatOf self.now seat.old }
        requires vertex { v < length (board_game self.now).vertices }
        requires below { LiesBelow (board_game self.now) v m.now }

        ensures seat { IsSeatOf self.now seat.new }
        ensures kept { LiesUnder (seen seat.old) (seen seat.new) }
        ensures raised { IsAtMost m.now (value_at (seen seat.new) v) }
        ensures rose { By (Did seat.old seat.new) (IsRaise v m.now result) }
    {
        self.raise_to(seat, v, rank(&self.game, m))
    }

    /// Raises a vertex to at least its lift over what was seen, and says whether its measure rose: its successors are read, and it is
    /// raised to what they ask for.
    pub fn lift(&self, seat: &mut PackedSeat, v: u32) -> bool
        requires seat { IsSeatOf self.now seat.old }
        requires vertex { v < length (board_game self.now).vertices }

        ensures seat { IsSeatOf self.now seat.new }
        ensures kept { LiesUnder (seen seat.old) (seen seat.new) }
        ensures lifted { IsOverLift (board_game self.now) (seen seat.old) v (value_at (seen seat.new) v) }
        ensures turn { By (Did seat.old seat.new) (IsTurn (board_game self.now) v result) }
    {
        let best = self.best_rank(seat, v);
        self.raise_to(seat, v, best)
    }

    // Sees every vertex, and answers the sum of the ranks of all that was seen.
    fn look(&self, seat: &mut PackedSeat) -> u128
        requires { IsSeatOf self.now seat.old }
        ensures seat { IsSeatOf self.now seat.new }
        ensures kept { LiesUnder (seen seat.old) (seen seat.new) }
        ensures sum { result ≡ sum_of (board_game self.now) (seen seat.new) }
    {
        let mut sum = 0;
        for v in 0..self.game.vertices() {
            sum += u128::from(self.look_at(seat, v));
        }
        sum
    }

    // Lifts every vertex once.
    fn lift_all(&self, seat: &mut PackedSeat)
        requires { IsSeatOf self.now seat.old }
        ensures seat { IsSeatOf self.now seat.new }
        ensures kept { LiesUnder (seen seat.old) (seen seat.new) }
        ensures lifted { (v : ℕ) → v < length (board_game self.now).vertices → IsOverLift (board_game self.now) (seen seat.old) v (value_at (seen seat.new) v) }
    {
        for v in (0..self.game.vertices()).rev() {
            self.lift(seat, v);
        }
    }

    /// Sees the least progress table, whatever other seats do meanwhile.
    ///
    /// It loads every vertex, and then lifts every vertex and loads every vertex again, until two rounds of loads have equal
    /// sums of ranks.
    pub fn settle_seat(&self, seat: &mut PackedSeat)
        requires { IsSeatOf self.now seat.old }
        ensures seat { IsSeatOf self.now seat.new }
        ensures kept { LiesUnder (seen seat.old) (seen seat.new) }
        ensures least { IsLeastTable (board_game self.now) (seen seat.new) }
    {
        let mut sum = self.look(seat);
        loop {
            self.lift_all(seat);
            let next = self.look(seat);
            if next == sum {
                return;
            }
            sum = next;
        }
    }

    /// Raises a table to what is read of every vertex.
    #[tactic(auto, using(measures::proofs::Rising::under_itself))]
    pub(crate) fn read_into(&self, seat: &mut PackedSeat, table: &mut PlainTable)
        requires table { table.old.game ≡ board_game self.now }
        requires seat { IsSeatOf self.now seat.old }

        ensures seat { IsSeatOf self.now seat.new }
        ensures game { table.new.game ≡ board_game self.now }
        ensures kept { LiesUnder table.old.values table.new.values }
        ensures poured { By (Did seat.old seat.new) (IsPoured (board_game self.now) table.new.values) }
    {
        table.known();
        for v in 0..self.game.vertices() {
            table.raise(v, &self.load(seat, v));
        }
    }

    /// The table of the board's measures, which keeps all that the seat has seen.
    ///
    /// # Errors
    /// T2. The board is gone then.
    pub fn close(self, alloc: Global, seat: PackedSeat) -> Result<PlainTable, TableError>
        requires { IsSeatOf self seat }
        ensures game { IfOk result (λ t. t.game ≡ board_game self) }
        ensures kept { IfOk result (λ t. LiesUnder (seen seat) t.values) }
        ensures refused { IfErr result (λ e. e ≡ errors.Memory) }
    {
        let Ok(mut table) = opening(alloc, &self.game) else {
            return Err(TableError::Memory);
        };
        let PackedBoard {
            game,
            table: words,
            ..
        } = self;
        let PackedSeat { seat } = seat;
        pour(words.close_with(seat), &game, &mut table);
        table.known();
        Ok(table)
    }
}

// Raises a table to the words of a board that was closed.
fn pour(closed: Closed<(), Global>, game: &Game, table: &mut PlainTable)
    requires full { IsFull closed.words }
    requires size { slots_len closed.words ≡ length game.now.vertices }
    requires slotless { slots_len closed.slots ≡ 0 }
    requires few { height game.now < RANK_LIMIT }
    requires same { table.old.game ≡ game.now }
    requires words { (v : ℕ) → v < length game.now.vertices → IsWord game.now v (slice_index (slots_items closed.words) v) }

    ensures game { table.new.game ≡ game.now }
    ensures kept { LiesUnder table.old.values table.new.values }
    ensures poured { (v : ℕ) → v < length game.now.vertices → IsAtMost (measure_of_rank game.now (slice_index (slots_items closed.words) v))
        (value_at table.new.values v) }
{
    for v in 0..game.vertices() {
        let measure = of_rank(game, closed.word(v as usize));
        table.known();
        table.raise(v, &measure);
    }
    closed.free();
}
