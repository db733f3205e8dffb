// Deques of jobs, each job a vertex, which stands for the block that begins with it.

ghost use Rattle.std.specs.Prelude.{◌≡◌, ◌<◌, ◌∷◌, [], false, IfOk, IfSome, IsTrue, length, vec_len};
ghost use Rattle.std.specs.List.{AllByRecursion};
ghost use Rattle.workers.specs.Jobs.{Gave, IsFilled};

use crossbeam_deque::protocol::{Outcome, Protocol};
use crossbeam_deque::{Steal, Stealer, Worker};
use game::graph::Game;
use game::name::GameName;
use liftcore::turn::Turn;
use std::alloc::{AllocError, Global};
use std::collections::LinkedList;
use std::marker::PhantomData;
use std::sync::Wait;

/// For how many jobs a deque has room at first.
const FIRST_ROOM: usize = 64;

/// What a worker knows of its deque: the jobs that it gave. No value of it is made.
pub(crate) struct Given {
    pub(crate) jobs: LinkedList<u32>,
}

/// The rule of the deques: each job is a vertex of the game that K names.
pub(crate) struct Jobs<K: GameName> {
    of: PhantomData<K>,
}

impl<K: GameName> Protocol<u32, Given> for Jobs<K> {
    ghost use Rattle.std.specs.Prelude.{[]};
    ghost use Rattle.workers.specs.Jobs.{AreJobs};

    ghost holds = { λ items views. AreJobs K.game items };

    ghost first = { record { jobs = [] } };

    ghost guest = { record { jobs = [] } };
}

/// Jobs that are taken: each is a vertex, and none is given.
impl<K: GameName> Outcome<u32, Given> for Jobs<K> {
    ghost use Rattle.std.specs.Prelude.{◌≡◌};
    ghost use Rattle.workers.specs.Jobs.{AreJobs};

    ghost then = { λ given xs after. AreJobs K.game xs × (after ≡ given) };
}

/// Jobs that are given.
struct Gives;

impl Outcome<u32, Given> for Gives {
    ghost use Rattle.std.specs.Prelude.{◌≡◌};
    ghost use Rattle.workers.specs.Jobs.{more_given};

    ghost then = { λ given xs after. after ≡ more_given given xs };
}

/// A worker's own deque.
pub(crate) type Own<K> = Worker<u32, Global, Given, Jobs<K>>;

/// A handle to the deque of a worker.
pub(crate) type Other<K> = Stealer<u32, Global, Given, Jobs<K>>;

/// Gives a job to one's own deque, and says whether it was taken.
pub(crate) fn give<K: GameName>(own: &mut Own<K>, v: u32) -> bool
    requires { v < length K.game.vertices }
    ensures given { IsTrue result → Gave own.old own.new (v ∷ []) }
    ensures refused { result ≡ false → Gave own.old own.new [] × IsFilled own.old own.new }
{
    own.push_as::<Gives>(v).is_ok()
}

// A job of one's own, the first that was given.
fn take<K: GameName>(own: &mut Own<K>) -> Option<u32>
    ensures vertex { IfSome result (λ v. v < length K.game.vertices) }
    ensures kept { Gave own.old own.new [] }
{
    own.pop_as::<Jobs<K>>()
}

// A job of another's. A steal that asks to be tried again is tried again.
fn steal<K: GameName, R: Wait>(rt: &R, other: &Other<K>) -> Option<u32>
    ensures { IfSome result (λ v. v < length K.game.vertices) }
{
    let mut pass = other.pass();
    for _ in rt.forever() {
        match other.steal_as::<Jobs<K>>(&mut pass) {
            Steal::Success(v) => return Some(v),
            Steal::Empty => return None,
            Steal::Retry => {}
        }
    }
    unreachable!()
}

/// A job of another's: one pass over the others, from the next one on.
pub(crate) fn steal_any<K: GameName, R: Wait>(
    rt: &R,
    number: usize,
    others: &[Other<K>],
) -> Option<u32>
    ensures { IfSome result (λ v. v < length K.game.vertices) }
{
    for step in 1..others.len() {
        let other = &others[(number % others.len() + step) % others.len()];
        if let Some(v) = steal(rt, other) {
            return Some(v);
        }
    }
    None
}

/// A job of one's own, or else of another's.
pub(crate) fn find<K: GameName, R: Wait>(
    rt: &R,
    number: usize,
    own: &mut Own<K>,
    others: &[Other<K>],
) -> Option<u32>
    ensures vertex { IfSome result (λ v. v < length K.game.vertices) }
    ensures kept { Gave own.old own.new [] }
{
    match take(own) {
        Some(v) => Some(v),
        None => steal_any(rt, number, others),
    }
}

/// What a worker has for itself: its deque, and memory for its turns.
#[derive(Drop)]
pub(crate) struct WorkerState<D> {
    pub(crate) own: D,
    pub(crate) turn: Turn,
}

/// What each worker has, and a handle to each deque.
pub(crate) fn states<K: GameName>(
    alloc: Global,
    game: &Game,
    workers: usize,
) -> Result<(Vec<WorkerState<Own<K>>>, Vec<Other<K>>), AllocError>
    ensures count { IfOk result (λ made. (vec_len made.0 ≡ workers) × (vec_len made.1 ≡ workers)) }
    ensures turns { IfOk result (λ made. AllByRecursion (λ state. state.turn.game ≡ game.now) made.0.items) }
{
    let mut states = Vec::new(alloc);
    let mut others = Vec::new(alloc);
    for _ in 0..workers {
        let own = Own::<K>::fifo_as(alloc, FIRST_ROOM)?;
        others.push(own.stealer()?).map_err(AllocError::from)?;
        let turn = Turn::new(alloc, game)?;
        states
            .push(WorkerState { own, turn })
            .map_err(AllocError::from)?;
    }
    Ok((states, others))
}
