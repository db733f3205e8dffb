// What a watcher is told of a check: each stage that its way has, and both texts once they are read.

use crate::common::{DEFAULTS, request, unwritten, wanted};
use calculus::closed::Closed;
use engines::engine::check_asked;
use engines::request::{Wanted, WitnessForm};
use engines::watch::Watcher;
use game::gauge::{Gauge, GaugeReading};
use game::observer::{Observer, Stage};
use lts::Lts;
use samples::holds;
use samples::host::Host;
use samples::texts::{RING, unseeded};
use std::sync::atomic::{AtomicU64, Ordering};

/// How often each stage was told, a digit for each from the last on: reading the system, reading the formula, building, searching,
/// lifting, evaluating, writing, making evidence, turns of a worker; then how many states the system had that was read.
#[derive(Drop)]
pub(crate) struct StageCounts {
    digits: AtomicU64,
    pub(crate) states: AtomicU64,
    gauge: Gauge,
}

impl StageCounts {
    /// None was told yet.
    pub(crate) fn new() -> StageCounts {
        StageCounts {
            digits: AtomicU64::new(0),
            states: AtomicU64::new(0),
            gauge: Gauge::new(),
        }
    }
}

impl Observer for StageCounts {
    fn sees(&self, stage: Stage) {
        let digit = match stage {
            Stage::ReadingSystem => 1,
            Stage::ReadingFormula => 10,
            Stage::Building { states: _ } => 100,
            Stage::Searching { vertices: _ } => 1_000,
            Stage::Lifting { .. } => 10_000,
            Stage::Evaluating { states: _ } => 100_000,
            Stage::Writing => 1_000_000,
            Stage::MakingEvidence { vertices: _ } => 10_000_000,
            Stage::Worked { .. } => 100_000_000,
        };
        self.digits.fetch_add(digit, Ordering::SeqCst);
    }

    fn gauge(&self) -> Option<&Gauge> {
        Some(&self.gauge)
    }
}

impl Watcher for StageCounts {
    fn has_read(&self, system: &Lts, _formula: &Closed) {
        let states = u64::from(system.states());
        self.states.fetch_add(states, Ordering::SeqCst);
    }
}

/// The answer of a check on the ring of two states, if it has one.
fn answer(rt: &impl Host, plain: bool, wanted: Wanted, told: &StageCounts) -> Option<bool> {
    check_asked(
        rt,
        rt.alloc(),
        &request(DEFAULTS, plain),
        wanted,
        unseeded(),
        RING.as_bytes(),
        b"<a>true".as_slice(),
        &mut unwritten(rt.alloc()),
        told,
    )
    .ok()
}

/// Such a check, by sets of states where it is plain, answers yes. The stages are told this often, and the ring's two states are read once.
fn tells(rt: &impl Host, plain: bool, wanted: Wanted, digits: u64) -> Option<GaugeReading> {
    let told = StageCounts::new();
    holds!(rt; answer(rt, plain, wanted, &told) == Some(true));
    holds!(rt; told.digits.load(Ordering::SeqCst) == digits);
    holds!(rt; told.states.load(Ordering::SeqCst) == 2);
    told.gauge.reading()
}

// Where a ranking or measures that are guessed are good, no game is built.
#[test]
fn a_check_tells_of_its_stages(rt: HostRuntime) {
    tells(&rt, false, wanted(false, false), 1_001_011);
    tells(&rt, true, wanted(false, false), 1_100_011);
    tells(&rt, false, wanted(false, true), 1_001_011);
}

// Two states with two nodes each are built.
#[test]
fn a_check_with_a_witness_tells_that_it_is_made(rt: HostRuntime) {
    let mut asked = wanted(false, false);
    asked.witness = Some(WitnessForm::System);
    let reading = tells(&rt, false, asked, 11_001_111);
    holds!(&rt; reading == Some(GaugeReading { done: 4, whole: 4 }));
}
