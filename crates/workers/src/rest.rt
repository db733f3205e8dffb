// Workers that find no job rest until there is one, or all of them rest.

ghost use Rattle.std.specs.Prelude.{◌<◌, IfSome, length};

use crate::jobs::{Other, steal_any};
use game::name::GameName;
use std::sync::Wait;
use std::sync::atomic::{AtomicU64, AtomicUsize, Ordering};
use std::thread::yield_now;

/// What one that looks for another's job is counted as.
const LOOKS: u64 = 1;

/// What one that works is counted as: more than all that look.
const WORKS: u64 = 4_294_967_296;

/// How often one that rests pauses until it leaves, though some worker hasn't begun: its thread may never be made.
const MOST_PAUSES: u32 = 1_000;

/// How often one yields at most in one pause.
const MOST_YIELDS: u32 = 32;

/// How many workers have begun, and how many of them don't rest. A worker that works has jobs, or takes a turn. Only one that works
/// gives jobs, and it rests only where its own deque is empty. So where nobody works or looks, there is no job. Both numbers stand in
/// one word, since they count at one moment.
#[derive(Drop)]
pub(crate) struct Rest {
    workers: usize,
    begun: AtomicUsize,
    up: AtomicU64,
}

/// What one that rests does next.
#[derive(Clone, Copy)]
enum Next {
    Look,
    Wait,
    Leave,
}

// Lets others go on: the longer, the more often one has paused.
fn pause(pauses: u32) {
    for _ in 0..=pauses.min(MOST_YIELDS) {
        yield_now();
    }
}

impl Rest {
    /// None of so many workers has begun.
    pub(crate) fn new(workers: usize) -> Self {
        Rest {
            workers,
            begun: AtomicUsize::new(0),
            up: AtomicU64::new(0),
        }
    }

    /// One more works.
    pub(crate) fn begin(&self) {
        self.up.fetch_add(WORKS, Ordering::SeqCst);
        self.begun.fetch_add(1, Ordering::SeqCst);
    }

    /// One that worked rests.
    pub(crate) fn lie_down(&self) {
        self.up.fetch_sub(WORKS, Ordering::SeqCst);
    }

    // What one does that has paused so often since it rests. That all have begun is asked first: whoever begins, works.
    fn next(&self, pauses: u32) -> Next {
        let all = self.begun.load(Ordering::SeqCst) >= self.workers;
        let up = self.up.load(Ordering::SeqCst);
        if up >= WORKS {
            Next::Look
        } else if up == 0 && (all || pauses >= MOST_PAUSES) {
            Next::Leave
        } else {
            Next::Wait
        }
    }

    // A job of another's, with which one that rested works. It is counted before it takes the job.
    fn look<K: GameName, R: Wait>(&self, rt: &R, number: usize, others: &[Other<K>]) -> Option<u32>
        ensures { IfSome result (λ v. v < length K.game.vertices) }
    {
        self.up.fetch_add(LOOKS, Ordering::SeqCst);
        let found = steal_any(rt, number, others);
        if found.is_some() {
            self.up.fetch_add(WORKS - LOOKS, Ordering::SeqCst);
        } else {
            self.up.fetch_sub(LOOKS, Ordering::SeqCst);
        }
        found
    }

    /// Rests, and answers the first job of another's that is found. None once all rest.
    pub(crate) fn until_job<K: GameName, R: Wait>(
        &self,
        rt: &R,
        number: usize,
        others: &[Other<K>],
    ) -> Option<u32>
        ensures { IfSome result (λ v. v < length K.game.vertices) }
    {
        self.lie_down();
        let mut pauses = 0u32;
        for _ in rt.forever() {
            match self.next(pauses) {
                Next::Look => {
                    if let Some(v) = self.look(rt, number, others) {
                        return Some(v);
                    }
                }
                Next::Wait => {}
                Next::Leave => return None,
            }
            pause(pauses);
            pauses = pauses.saturating_add(1);
        }
        unreachable!()
    }
}
