// How far a part of a run has come: written by the run, read by whoever shows it. Nothing that a run promises rests on it.

use std::sync::atomic::{AtomicU64, Ordering};

/// What is told of a part that doesn't say how far it goes.
const UNKNOWN: u64 = 0;

/// How far a part of a run has come, of how far it goes at most. What is counted (bytes, vertices, looks of a search) is for the part to say.
#[derive(Drop)]
pub struct Gauge {
    done: AtomicU64,
    whole: AtomicU64,
}

/// What a gauge shows.
#[derive(Clone, Copy, Debug, PartialEq, Eq)]
pub struct GaugeReading {
    pub done: u64,
    pub whole: u64,
}

impl Gauge {
    /// A gauge that shows nothing.
    pub fn new() -> Gauge {
        Gauge {
            done: AtomicU64::new(0),
            whole: AtomicU64::new(UNKNOWN),
        }
    }

    /// The part has come so far, of so far at most.
    pub fn show(&self, done: u64, whole: u64) {
        self.done.store(done, Ordering::Relaxed);
        self.whole.store(whole, Ordering::Relaxed);
    }

    /// A part begins that goes so far at most.
    pub fn begin(&self, whole: u64) {
        self.show(0, whole);
    }

    /// A part begins that doesn't say how far it goes.
    pub fn clear(&self) {
        self.begin(UNKNOWN);
    }

    /// The part has come so far.
    pub fn put(&self, done: u64) {
        self.done.store(done, Ordering::Relaxed);
    }

    /// The part has come so much further. Threads that share it may add at once.
    pub fn add(&self, more: u64) {
        self.done.fetch_add(more, Ordering::Relaxed);
    }

    /// How far the part has come; none where it doesn't say how far it goes.
    pub fn reading(&self) -> Option<GaugeReading> {
        let whole = self.whole.load(Ordering::Relaxed);
        if whole == UNKNOWN {
            return None;
        }
        let done = self.done.load(Ordering::Relaxed).min(whole);
        Some(GaugeReading { done, whole })
    }
}
