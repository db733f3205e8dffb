// A vertex to which very many others lead, and which rises again and again: what it gives workers to lift is bounded by how many vertices
// there are. tests/hub tells what memory that takes.

use crate::common::*;
use samples::meeting::has_come;

/// How many vertices lead to the hub. They are even ones, from the first on; others between and behind them stand alone.
const LEADING: u32 = 100_000;

/// How many vertices stand alone before the trap, so that none that leads to the hub is in one block with it.
const BETWEEN: u32 = 32;

/// Where Odd wins.
const TRAP: u32 = 2 * LEADING + BETWEEN;

const HUB: u32 = TRAP + 1;

/// How often the hub has a turn: it rises through the ones of 22 vertices and then to top, and at last stays.
const HUB_TURNS: u64 = 24;

// One more vertex. Even asks for less at the hub by staying there until that is top. Of those that lead to it 20 have priority 1.
fn push(builder: &mut GameBuilder, v: u32) -> Result<(), AllocError> {
    if v == TRAP {
        push_row(builder, Player::Even, 1, &[TRAP])
    } else if v == HUB {
        push_row(builder, Player::Even, 1, &[TRAP, HUB])
    } else if v % 2 > 0 || v >= 2 * LEADING {
        push_row(builder, Player::Even, 0, &[v])
    } else {
        push_row(builder, Player::Even, u8::from(v / 2 < 20), &[HUB])
    }
}

/// Counts turns, and holds the first of two workers until the hub has had all of its turns.
#[derive(Drop)]
struct Holding {
    turns: Counts,
    of_hub: AtomicU64,
}

impl Gate for Holding {
    fn before(&self, worker: usize, v: u32) {
        self.turns.before(worker, v);
        if v == HUB {
            self.of_hub.fetch_add(1, Ordering::SeqCst);
        }
        if worker == 0 {
            has_come(&self.of_hub, HUB_TURNS);
        }
    }
}

// While the first worker is held, whose own are the even vertices, all that lead to the hub are pending. So the hub's rises give none of them, and each has
// one turn. The first worker had a turn at each vertex that leads to the hub, at half of those behind them and at the trap, where the other one had a turn
// too, since it stands in the hub's block; and all had one at each of the others.
#[test]
fn what_is_pending_is_given_once_however_often_its_hub_rises(rt: HostRuntime) {
    let game = grown(&rt, HUB + 1, &push);
    let gate = Holding {
        turns: Counts::new(&rt, 64),
        of_hub: AtomicU64::new(0),
    };
    holds!(&rt; lifted(&rt, &game, WORDS, 2, &gate).is_ok());
    holds!(&rt; gate.of_hub.load(Ordering::SeqCst) == HUB_TURNS);
    holds!(&rt; gate.turns.of(0) == u64::from(LEADING + BETWEEN / 2 + 1));
    holds!(&rt; gate.turns.all() == u64::from(HUB) + HUB_TURNS + 1);
}
