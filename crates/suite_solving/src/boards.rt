// Boards that workers share, and ranks of measures, by worked examples of two games.

ghost use Rattle.std.specs.Prelude.{◌≡◌, ◌<◌, ◌≤◌, length};
ghost use Rattle.std.specs.Arc.{arc_value};
ghost use Rattle.tables.specs.Seats.{board_game, IsSeatOf};

use crate::common::*;
use crate::progress_measures::{LEAST, is_as_wanted, nested_binders_game};
use measures::progs::is_measure;
use measures::rank::{of_rank, rank, top_rank};
use std::thread::map_indices;
use tables::packed::PackedSeat;

// In the game of a step vertex 4 leads to the false sink alone.
fn step(rt: &impl Host) -> Arc<Game>
    ensures { 4 < length (arc_value result).vertices }
{
    let game = shared_game(rt, STEP);
    holds!(rt; 4 < game.vertices());
    game
}

// A measure that asks for nothing.
fn is_low(rt: &impl Abort, m: &Measure) {
    holds!(rt; !m.is_top() && m.counts() == [0].as_slice());
}

// A seat reads a vertex, raises it to top, and raises it once more.
fn rises_once<B: Board>(rt: &impl Abort, board: &B, source: &PlainTable)
    requires same { source.now.game ≡ B.game board.now }
    requires vertex { 4 < length source.now.game.vertices }
{
    let Ok(mut seat) = board.seat() else {
        panic!(rt; "no seat")
    };
    let top = source.value(4);
    holds!(rt; top.is_top());
    is_low(rt, &board.read(&mut seat, 4));
    holds!(rt; board.raise(&mut seat, 4, &top), "it rises");
    holds!(rt; board.read(&mut seat, 4).is_top(), "it is read");
    holds!(rt; !board.raise(&mut seat, 4, &top), "it rises once");
}

// A seat raises a vertex to what it has in the settled table; then what the board is finished into.
fn rises_on<B: Board>(rt: &impl Host, board: B, game: &Game)
    requires same { game.now ≡ B.game board }
    requires vertex { 4 < length game.now.vertices }
{
    let source = settled(rt, game);
    rises_once(rt, &board, &source);
    let mut table = opened(rt, game);
    board.finish(&mut table);
    holds!(rt; table.value(4).is_top() && !table.value(2).is_top());
}

fn rises_on_shards<K: GameName, R: Host>(rt: &R, game: &Arc<Game>)
    requires named { arc_value game.now ≡ K.game }
    requires vertex { 4 < length (arc_value game.now).vertices }
{
    let board = board_of_shards::<K, R>(rt, game, 16);
    rises_on(rt, board, game);
}

#[test]
fn a_vertex_rises_once_on_either_board(rt: HostRuntime) {
    let game = step(&rt);
    let words = board_of_words(&rt, &game, 1);
    rises_on(&rt, words, &game);
    rises_on_shards::<Brand, HostRuntime>(&rt, &game)
}

// The rank is the number of the lesser measures, here below twelve; top has the last one.
#[test]
fn a_measure_has_a_rank(rt: HostRuntime) {
    let game = nested_binders_game(&rt);
    let m = Measure::of_counts(&[2, 0]);
    holds!(&rt; is_measure(&game, &m));
    let Some(top) = top_rank(&game) else {
        panic!(&rt; "no rank")
    };
    holds!(&rt; rank(&game, &m) == 8 && top == 12);
    holds!(&rt; 8 < top);
    holds!(&rt; of_rank(&game, 8).counts() == [2, 0].as_slice() && of_rank(&game, top).is_top());
}

// A vertex rises by its first lift, and by no other.
fn is_lifted_once(rt: &impl Abort, board: &PackedBoard, seat: &mut PackedSeat)
    requires seat { IsSeatOf board.now seat.old }
    requires vertex { 4 < length (board_game board.now).vertices }
    ensures { IsSeatOf board.now seat.new }
{
    is_low(rt, &board.load(seat, 4));
    holds!(rt; board.lift(seat, 4), "it rises");
    holds!(rt; board.load(seat, 4).is_top());
    holds!(rt; !board.lift(seat, 4), "it rises once");
}

#[test]
fn a_vertex_is_lifted_once(rt: HostRuntime) {
    let game = step(&rt);
    let board = board_of_words(&rt, &game, 1);
    let mut seat = board.new_seat().expect(&rt, "a seat");
    is_lifted_once(&rt, &board, &mut seat);
    let table = board.close(rt.alloc(), seat).expect(&rt, "a table");
    holds!(&rt; table.value(4).is_top());
}

// One thread lifts a vertex, and the other looks at it until it is top.
fn lifts_or_looks(board: &PackedBoard, thread: usize) -> bool
    requires { 4 < length (board_game board.now).vertices }
{
    let Some(mut seat) = board.new_seat() else {
        return false;
    };
    if thread == 0 {
        return board.lift(&mut seat, 4);
    }
    for _ in 0..10_000_000u32 {
        if board.load(&mut seat, 4).is_top() {
            return true;
        }
    }
    false
}

fn is_seen_by_another(rt: &impl Host, board: &PackedBoard)
    requires { 4 < length (board_game board.now).vertices }
{
    let seen = map_indices(
        rt,
        rt.alloc(),
        2,
        &|thread: usize|
            requires { 4 < length (board_game board.now).vertices }
        { lifts_or_looks(board, thread) },
    )
    .expect(rt, "memory");
    holds!(rt; !seen.contains(&false), "what one lifts another sees");
}

#[test]
fn what_one_seat_lifts_another_sees(rt: HostRuntime) {
    let game = step(&rt);
    let board = board_of_words(&rt, &game, 2);
    is_seen_by_another(&rt, &board);
}

// A seat settles the board, and then loads the least measures.
fn settles_least(board: &PackedBoard) -> bool
    requires { 18 ≤ length (board_game board.now).vertices }
{
    let Some(mut seat) = board.new_seat() else {
        return false;
    };
    board.settle_seat(&mut seat);
    for v in 0..18u32 {
        if !is_as_wanted(&board.load(&mut seat, v), LEAST[v as usize]) {
            return false;
        }
    }
    true
}

fn settles_at_once(rt: &impl Host, board: &PackedBoard)
    requires { 18 ≤ length (board_game board.now).vertices }
{
    let least = map_indices(
        rt,
        rt.alloc(),
        2,
        &|_thread: usize|
            requires { 18 ≤ length (board_game board.now).vertices }
        { settles_least(board) },
    )
    .expect(rt, "memory");
    holds!(rt; !least.contains(&false), "both settle the board");
}

#[test]
fn two_seats_settle_at_once(rt: HostRuntime) {
    let game = shared_of(&rt, nested_binders_game(&rt));
    holds!(&rt; 18 <= game.vertices());
    let board = board_of_words(&rt, &game, 2);
    settles_at_once(&rt, &board);
}
