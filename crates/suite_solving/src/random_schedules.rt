// Events at random: which vertices are pending, and whether all is quiet, agrees with what the outcomes of the events alone tell; and
// a table is settled where it is the one that a single thread finds.

ghost use Rattle.std.specs.Prelude.{◌≡◌, ◌<◌};

use crate::common::*;
use crate::schedules::new_core;
use liftcore::event::{Event, Outcome};
use liftcore::machine::Core;

const WORKERS: usize = 3;

/// How many events a replay has.
const EVENTS: u64 = 5_000;

/// What outcomes tell of a run: which vertices are pending, which vertex each worker holds, and how many it owes.
#[derive(Drop)]
struct RunOutcomes {
    pending: Vec<bool>,
    held: Vec<Option<u32>>,
    owed: Vec<usize>,
}

impl RunOutcomes {
    /// Each vertex is pending, and each worker idle.
    fn new(alloc: Global, vertices: u32) -> Result<RunOutcomes, AllocError> {
        Ok(RunOutcomes {
            pending: vec![in alloc; true; vertices as usize]?,
            held: vec![in alloc; None; WORKERS]?,
            owed: vec![in alloc; 0; WORKERS]?,
        })
    }

    fn holds(&self, worker: usize) -> Option<u32> {
        *self.held.get(worker)?
    }

    /// Whether no vertex is pending, and no worker holds one or owes any.
    fn is_quiet(&self) -> bool {
        !self.pending.contains(&true)
            && self.held.iter().all(|vertex| vertex.is_none())
            && self.owed.iter().all(|count| *count == 0)
    }

    /// Notes an event that was done; a raise has left its worker owing so many.
    fn note(&mut self, event: Event, owed: usize) {
        match event {
            Event::Take { worker, vertex } => {
                put(&mut self.pending, vertex as usize, false);
                put(&mut self.held, worker, Some(vertex));
            }
            Event::Read { .. } => {}
            Event::Raise { worker } => {
                put(&mut self.held, worker, None);
                put(&mut self.owed, worker, owed);
            }
            Event::Push { worker, vertex } => {
                put(&mut self.pending, vertex as usize, true);
                take_one(&mut self.owed, worker);
            }
        }
    }
}

fn take_one(counts: &mut [usize], at: usize) {
    if at < counts.len() {
        counts[at] = counts[at].saturating_sub(1);
    }
}

fn put<T: Copy>(items: &mut [T], at: usize, item: T) {
    if at < items.len() {
        items[at] = item;
    }
}

fn value_at(core: &Core<'_>, v: u32) -> Measure {
    if v < core.vertices() {
        core.value(v)
    } else {
        Measure::top()
    }
}

/// How many vertices have this successor.
fn count_before(game: &Game, successor: u32) -> usize {
    let mut count = 0usize;
    for v in 0..game.vertices() {
        if game.successors(v).contains(&successor) {
            count = count.saturating_add(1);
        }
    }
    count
}

/// One event of the run, and what its outcome tells.
fn step(game: &Game, core: &mut Core<'_>, told: &mut RunOutcomes, event: Event) {
    let raised = match event {
        Event::Raise { worker } => told.holds(worker).unwrap_or(0),
        _ => 0,
    };
    let before = value_at(core, raised);
    if core.step(event) == Outcome::Skipped {
        return;
    }
    let rose = before.compare(&value_at(core, raised)).is_lt();
    let owed = if rose { count_before(game, raised) } else { 0 };
    told.note(event, owed);
}

fn roll_event(dice: &mut Dice, vertices: u32) -> Event
    requires { 0 < vertices }
{
    let worker = dice.roll(3) as usize;
    let vertex = dice.roll(vertices);
    match dice.roll(4) {
        0 => Event::Take { worker, vertex },
        1 => Event::Read { worker, vertex },
        2 => Event::Raise { worker },
        _ => Event::Push { worker, vertex },
    }
}

fn agree(core: &Core<'_>, told: &RunOutcomes) -> bool {
    for v in 0..core.vertices() {
        if core.is_pending(v) != (told.pending.get(v as usize) == Some(&true)) {
            return false;
        }
    }
    core.is_quiet() == told.is_quiet()
}

/// Whether the core's table is this one.
fn has_table(game: &Game, core: &Core<'_>, settled: &Settled) -> bool
    requires { settled.now.game ≡ game.now }
{
    for v in 0..game.vertices() {
        if !settled.value(v).compare(&value_at(core, v)).is_eq() {
            return false;
        }
    }
    true
}

/// Events at random: what is so after each agrees with what was told.
fn follow_at_random(
    rt: &impl Abort,
    dice: &mut Dice,
    game: &Game,
    core: &mut Core<'_>,
    told: &mut RunOutcomes,
) {
    let vertices = game.vertices();
    holds!(rt; vertices > 0);
    for number in 0..EVENTS {
        step(game, core, told, roll_event(dice, vertices));
        holds_of(rt, agree(core, told), "agrees at", number);
    }
}

/// A core is settled where its table is the one that a single thread finds, and a quiet one is settled.
fn is_settled_at_the_least(rt: &impl Host, game: &Game, core: &Core<'_>) {
    let settled = solved(rt, game);
    holds!(rt; core.is_settled() == has_table(game, core, &settled));
    holds!(rt; core.is_settled() || !core.is_quiet());
}

/// Replays events at random from the start.
fn replay_at_random(rt: &impl Host, dice: &mut Dice, game: &Game) {
    let mut told = RunOutcomes::new(rt.alloc(), game.vertices()).expect(rt, "memory");
    let mut core = new_core(rt, game, WORKERS);
    follow_at_random(rt, dice, game, &mut core, &mut told);
    is_settled_at_the_least(rt, game, &core);
}

fn replay_often(rt: &impl Host, dice: &mut Dice, game: &Game) {
    for _ in 0..20 {
        replay_at_random(rt, dice, game);
    }
}

#[test]
fn random_events_agree_with_their_outcomes(rt: HostRuntime) {
    let mut dice = Dice::new(6);
    let rolled = rolled_game(&rt, &mut dice, 12);
    replay_often(&rt, &mut dice, &game_of(&rt, STEP.as_bytes()));
    replay_often(&rt, &mut dice, &game_of(&rt, TWO_STEPS.as_bytes()));
    replay_often(&rt, &mut dice, &rolled);
}
