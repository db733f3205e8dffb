// Who lifted in a run, and whether it searched.

use calculus::closed::Closed;
use game::gauge::Gauge;
use game::observer::{Observer, Stage};
use lts::Lts;
use requests::watch::Watcher;
use std::sync::atomic::{AtomicU64, Ordering};

/// Keeps how many workers took turns, in how many of these a measure rose, and how often a search was told of.
#[derive(Drop)]
pub struct Lifters {
    workers: AtomicU64,
    rises: AtomicU64,
    searches: AtomicU64,
}

impl Lifters {
    /// Nothing was told yet.
    pub fn new() -> Self {
        Lifters {
            workers: AtomicU64::new(0),
            rises: AtomicU64::new(0),
            searches: AtomicU64::new(0),
        }
    }

    /// Whether so many workers took turns, some measure rose in them, and nothing was searched for.
    pub fn did_all(&self, workers: u64) -> bool {
        self.workers.load(Ordering::SeqCst) == workers
            && self.rises.load(Ordering::SeqCst) > 0
            && self.searches.load(Ordering::SeqCst) == 0
    }
}

impl Observer for Lifters {
    fn sees(&self, stage: Stage) {
        match stage {
            Stage::Searching { vertices: _ } => {
                self.searches.fetch_add(1, Ordering::SeqCst);
            }
            Stage::Worked {
                worker: _,
                turns,
                rises,
            } => {
                self.workers
                    .fetch_add(u64::from(turns > 0), Ordering::SeqCst);
                self.rises.fetch_add(rises, Ordering::SeqCst);
            }
            _ => {}
        }
    }

    fn gauge(&self) -> Option<&Gauge> {
        None
    }
}

impl Watcher for Lifters {
    fn has_read(&self, _system: &Lts, _formula: &Closed) {}
}
