// Several workers over one board: what no contract says of them.

ghost use Rattle.std.specs.Prelude.{◌≡◌, ◌<◌};
ghost use Rattle.std.specs.Arc.{arc_value};

use crate::common::*;
use samples::meeting::Meeting;
use std::sync::atomic::AtomicU32;
use tables::error::TableError;

/// What is noted of a run: of each vertex how often it was read, raised and somebody's turn, of two seats how often they read, how many seats there were and
/// had had their last call, and whether all had when the board was finished, and what it was finished into was settled.
#[derive(Drop)]
struct Notes {
    workers: usize,
    is_late: bool,
    meeting: Meeting,
    reads: Counts,
    raises: Counts,
    turns: Counts,
    by_seats: Counts,
    seats: AtomicU32,
    lasts: AtomicU32,
    ended: AtomicU64,
}

impl Notes {
    fn new(rt: &impl Host, vertices: u32, workers: usize, is_late: bool) -> Self {
        Notes {
            workers,
            is_late,
            meeting: Meeting::new(),
            reads: Counts::new(rt, vertices),
            raises: Counts::new(rt, vertices),
            turns: Counts::new(rt, vertices),
            by_seats: Counts::new(rt, 2),
            seats: AtomicU32::new(0),
            lasts: AtomicU32::new(0),
            ended: AtomicU64::new(0),
        }
    }

    // Whether each successor of a vertex was read at least once in each of its turns, and each vertex had one.
    fn are_read(&self, game: &Game) -> bool {
        for v in 0..game.vertices() {
            for t in game.successors(v) {
                if self.reads.of(*t) < self.turns.of(v) {
                    return false;
                }
            }
        }
        self.turns.all() >= u64::from(game.vertices())
    }

    // Whether two workers met at their first turns, and each of their seats read. Of another number of workers this asks nothing.
    fn both_came(&self) -> bool {
        self.workers != 2
            || self.meeting.took_place() && self.by_seats.of(0) > 0 && self.by_seats.of(1) > 0
    }

    fn note_end(&self, is_settled: bool) {
        let seats = self.seats.load(Ordering::SeqCst);
        let ended = is_settled && seats > 0 && self.lasts.load(Ordering::SeqCst) == seats;
        self.ended.store(u64::from(ended), Ordering::SeqCst);
    }

    // Whether each seat ended, and nothing was left to lift.
    fn ended(&self) -> bool {
        self.ended.load(Ordering::SeqCst) == 1
    }
}

/// In a late run who raises the second vertex waits until the reader has raised its own.
impl Gate for Notes {
    fn before(&self, worker: usize, v: u32) {
        self.turns.add(v);
        if self.is_late && v == READ {
            self.raises.wait_for(READER);
        }
        if !self.is_late && self.workers == 2 {
            self.meeting.before(worker, v);
        }
    }
}

/// A seat of the inner board, with its number.
#[derive(Drop)]
struct NotedSeat<S> {
    inner: S,
    number: u32,
}

/// A board round another. It passes all on but the last calls, in which a board may settle itself: those it only notes. So what
/// it is finished into has what the workers did, and no more.
#[derive(Drop)]
struct NotingBoard<'a, B: Board> {
    inner: B,
    game: &'a Game,
    notes: &'a Notes,
    ghost same: { game.now ≡ B.game inner },
}

impl<'a, B: Board + Drop> Board for NotingBoard<'a, B> {
    type Seat = NotedSeat<B::Seat>;

    ghost game = { λ b. B.game b.inner };

    ghost fits = { λ b s. B.fits b.inner s.inner };

    ghost did = { λ b first last accesses. B.did b.inner first.inner last.inner accesses };

    ghost is_full = { λ b. B.is_full b.inner };

    ghost idle = { λ b s. B.idle b.inner s.inner };

    ghost chained = { λ b first middle last. B.chained b.inner first.inner middle.inner last.inner };

    fn seat(&self) -> Result<NotedSeat<B::Seat>, TableError> {
        let inner = self.inner.seat()?;
        let number = self.notes.seats.fetch_add(1, Ordering::SeqCst);
        Ok(NotedSeat { inner, number })
    }

    fn read(&self, seat: &mut NotedSeat<B::Seat>, v: u32) -> Measure {
        self.notes.reads.add(v);
        self.notes.by_seats.add(seat.number);
        self.inner.read(&mut seat.inner, v)
    }

    fn raise(&self, seat: &mut NotedSeat<B::Seat>, v: u32, m: &Measure) -> bool {
        let rose = self.inner.raise(&mut seat.inner, v, m);
        self.notes.raises.add(v);
        if self.notes.is_late && v == READER {
            self.notes.turns.wait_for(AFTER);
        }
        rose
    }

    fn last(&self, _seat: &mut NotedSeat<B::Seat>) {
        self.notes.lasts.fetch_add(1, Ordering::SeqCst);
    }

    fn finish(self, table: &mut PlainTable) {
        let NotingBoard { inner, game, notes } = self;
        inner.finish(table);
        notes.note_end(is_settled(game, table));
    }
}

// Whether workers who lift over a board come to the table of one thread.
fn find_the_least<B: Board + Drop + Sync>(
    rt: &impl Host,
    game: &Arc<Game>,
    inner: B,
    workers: usize,
    notes: &Notes,
) -> bool
    requires board { B.game inner ≡ arc_value game.now }
    requires workers { 0 < workers }
{
    let board = NotingBoard { inner, game, notes };
    let solved = solve(rt, rt.alloc(), game, board, workers, notes).expect(rt, "memory");
    is_least(rt, game, &solved)
}

// Workers over shards under locks, or over words, did all of it: each seat ended, the vertices were read as often as they should be, nothing was left to
// lift, and it is the table of one thread.
fn end_well<K: GameName + Send + Sync, R: Host>(
    rt: &R,
    game: &Arc<Game>,
    shards: u32,
    workers: usize,
)
    requires named { arc_value game.now ≡ K.game }
    requires workers { 0 < workers }
{
    let notes = &Notes::new(rt, game.vertices(), workers, false);
    let is_least = if shards == WORDS {
        find_the_least(rt, game, board_of_words(rt, game, 1), workers, notes)
    } else {
        let board = board_of_shards::<K, R>(rt, game, shards);
        find_the_least(rt, game, board, workers, notes)
    };
    let is_so = is_least && notes.ended() && notes.both_came() && notes.are_read(game);
    holds_of(rt, is_so, "the number of workers is", workers as u64);
}

/// One worker, two and eight leave nothing to lift.
pub(crate) fn all_end_well<R: Host>(rt: &R, game: &Arc<Game>, shards: u32) {
    end_well::<Brand, R>(rt, game, shards, 1);
    end_well::<Brand, R>(rt, game, shards, 2);
    end_well::<Brand, R>(rt, game, shards, 8);
}

/// Whether the table that workers begin with leaves something to lift.
pub(crate) fn is_left(rt: &impl Host, game: &Game) -> bool {
    let first = opened(rt, game);
    !is_settled(game, &first)
}

// Two rings of priority 1, and a way of six vertices of priority 3 to a loop of priority 4. Odd may go over from the first ring to
// the second, but not back. Even wins all: she leaves the rings where she may, at 0 and at 8, and then there is only the way to
// the loop. Yet she asks for less by staying until what the rings ask for has climbed past six threes: for each of them through
// the counts of sixteen ones.
const TWO_RINGS: &str =
    "parity 22;\n0 1 0 1,16;\n1 1 1 2;\n2 1 0 3;\n3 1 1 4,11;\n4 1 0 5;\n5 1 1 6;\n6 1 0 7;\n7 1 1 0;\n8 1 0 9,16;\n9 1 1 10;\n10 1 0 11;\n11 1 1 12;\n12 1 0 13;\n13 1 1 14;\n14 1 0 15;\n15 1 1 8;\n16 3 0 17;\n17 3 1 18;\n18 3 0 19;\n19 3 1 20;\n20 3 0 21;\n21 3 1 22;\n22 4 0 22;\n";

// Settled is what no lift raises, which is looked up at each vertex. The opening table isn't settled, so it is the workers' doing.
#[test]
fn workers_leave_nothing_to_lift(rt: HostRuntime) {
    let game = shared_game(&rt, TWO_RINGS);
    holds!(&rt; is_left(&rt, &game));
    all_end_well(&rt, &game, 16);
    all_end_well(&rt, &game, WORDS);
}

// Even vertices are one worker's own, of which the first reads the second vertex. That rises once, at its turn, the first one of another worker, whose
// next turn is at the fourth.
const LATE: &str = "parity 5;\n0 0 0 1;\n1 1 0 3;\n2 0 0 2;\n3 0 0 5;\n4 0 0 4;\n5 0 0 5;\n";

const READER: u32 = 0;

const READ: u32 = 1;

const AFTER: u32 = 3;

// What rises after it was read, and before the turn of its reader is over, gives the reader one more turn. Were its mark taken away after the reads, who
// raises would find it, and give no job. The reader's turn lasts until what it read has risen, and who raised it has given jobs.
#[test]
fn what_rises_after_it_was_read_gives_its_reader_once_more(rt: HostRuntime) {
    let game = shared_game(&rt, LATE);
    let notes = Notes::new(&rt, game.vertices(), 2, true);
    let board = board_of_words(&rt, &game, 1);
    holds!(&rt; find_the_least(&rt, &game, board, 2, &notes));
    holds!(&rt; notes.turns.of(AFTER) > 0);
    holds!(&rt; notes.turns.of(READER) == 2);
    holds!(&rt; notes.ended());
}
