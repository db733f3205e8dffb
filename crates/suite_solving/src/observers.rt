// What observers are told. The numbers of vertices are counted by hand; turns are told of at each 4,096th of a worker, and each vertex has one at least.

use crate::common::*;
use game::gauge::Gauge;
use game::observer::{Observer, Stage};
use workers::team::{BoardKind, Team, solve_by};

/// Keeps how often lifting was told, and the last numbers.
#[derive(Drop)]
struct LiftingCounts {
    vertices: AtomicU64,
    tellings: AtomicU64,
    lifts: AtomicU64,
}

impl Observer for LiftingCounts {
    fn sees(&self, stage: Stage) {
        if let Stage::Lifting { vertices, lifts } = stage {
            self.vertices.store(u64::from(vertices), Ordering::SeqCst);
            self.tellings.fetch_add(1, Ordering::SeqCst);
            self.lifts.fetch_max(lifts, Ordering::SeqCst);
        }
    }

    fn gauge(&self) -> Option<&Gauge> {
        None
    }
}

/// Each vertex is a job of some worker once at least, so of 17,502 lifts by two workers one at least tells of 4,096.
fn tells_of_workers(rt: &impl Host, game: &Arc<Game>, board: BoardKind) {
    let counts = LiftingCounts {
        vertices: AtomicU64::new(0),
        tellings: AtomicU64::new(0),
        lifts: AtomicU64::new(0),
    };
    let team = Team {
        workers: 2,
        shards: 16,
        board,
    };
    holds!(rt; solve_by(rt, rt.alloc(), game, &team, &NoGate, &counts, None).is_ok());
    holds!(rt; counts.vertices.load(Ordering::SeqCst) == 17502);
    let lifts = counts.lifts.load(Ordering::SeqCst);
    holds_of(rt, lifts >= 4096 && lifts % 4096 == 0, "lifts are", lifts);
    // The first telling is of no lift, and then there is one for each 4,096.
    holds!(rt; counts.tellings.load(Ordering::SeqCst) == 1 + lifts / 4096);
}

// The formula has seven nodes, so its game has 17,502 vertices.
#[test]
fn workers_tell_of_lifts(rt: HostRuntime) {
    let game = long_arena(&rt, OFTEN);
    tells_of_workers(&rt, &game, BoardKind::Locked);
    tells_of_workers(&rt, &game, BoardKind::Packed)
}
