// What `--stats` tells of a run: for each of its stages the time, how much there was, and the greatest memory so far.

use crate::size::Size;
use calculus::closed::Closed;
use calculus::priorities::Priorities;
use game::observer::Stage;
use lts::system::Lts;
use normal::make::normal_with;
use requests::request::Options;
use std::alloc::Global;
use std::time::{Clock, Instant};
use std::{fmt, fs};

/// What is told of a run.
#[derive(Clone, Copy)]
pub enum Stats {
    Nothing,
    Stages,
    /// Its stages, and the game of both texts by this rule.
    StagesAndGame(Priorities),
}

impl Stats {
    /// What is told where that is asked for: of the game of both texts, unless there is none, as by sets of states.
    pub fn of(is_asked: bool, plain: bool, options: &Options) -> Stats {
        match (is_asked, plain) {
            (false, _) => Stats::Nothing,
            (true, true) => Stats::Stages,
            (true, false) => Stats::StagesAndGame(options.priorities),
        }
    }

    /// Whether anything is told.
    pub fn are_told(self) -> bool {
        !matches!(self, Stats::Nothing)
    }
}

/// What the program does at a time.
#[derive(Clone, Copy)]
pub enum Activity {
    ReadingGame,
    Seen(Stage),
}

impl Activity {
    /// Whether the other one is the same, or goes on with it.
    pub(crate) fn goes_on(self, other: Activity) -> bool {
        use Stage::{Lifting, Searching};
        match (self, other) {
            (Activity::Seen(own), Activity::Seen(other)) => matches!(
                (own, other),
                (Lifting { .. }, Lifting { .. }) | (Searching { .. }, Searching { .. })
            ),
            _ => false,
        }
    }
}

/// A step that goes on, and since when.
#[derive(Clone, Copy)]
pub(crate) struct Running {
    pub(crate) step: Activity,
    pub(crate) since: Instant,
}

impl Running {
    /// What is told of it as it ends now; none where there is no clock or no memory.
    pub(crate) fn ended<T: Clock>(self, rt: HostRuntime, handle: &T) -> Option<String> {
        let (step, elapsed) = (self.step, self.since.elapsed(handle).ok()?);
        let (seconds, thousandths) = (elapsed.as_secs(), elapsed.subsec_millis());
        let time = format!(in rt.alloc(); "mucheck: {step}: {seconds}.{thousandths:03} s").ok()?;
        match most_memory(rt) {
            Some(kilobytes) => format!(in rt.alloc(); "{time}, {} MB so far\n", kilobytes / 1024),
            None => format!(in rt.alloc(); "{time}\n"),
        }
        .ok()
    }
}

/// What is told of the game of both texts; none where the formula has no normal form, or there is no memory.
pub(crate) fn game_told(
    alloc: Global,
    system: &Lts,
    formula: &Closed,
    rule: Priorities,
) -> Option<String> {
    let normal = normal_with(alloc, formula, rule).ok()?;
    let Size { vertices, edges } = Size::of(alloc, system, &normal).ok()?;
    let nodes = normal.count();
    let priorities = normal.nodes().iter().map(|node| node.priority);
    let greatest = priorities.max().unwrap_or(0);
    format!(in alloc;
        "mucheck: {nodes} nodes, greatest priority {greatest}, {vertices} vertices, {edges} edges\n"
    ).ok()
}

impl fmt::Display for Activity {
    fn fmt<W: fmt::Write>(&self, f: &mut fmt::Formatter<W>) -> fmt::Result {
        let Activity::Seen(stage) = self else {
            return f.write_str("reading the game");
        };
        match stage {
            Stage::ReadingSystem => f.write_str("reading the system"),
            Stage::ReadingFormula => f.write_str("reading the formula"),
            Stage::Building { states } => write!(f, "building, {states} states"),
            Stage::Searching { vertices } => write!(f, "searching, {vertices} vertices"),
            Stage::Lifting { vertices, lifts } => {
                write!(f, "lifting, {vertices} vertices, {lifts} lifts")
            }
            Stage::Worked {
                worker,
                turns,
                rises,
            } => write!(f, "worker {worker}: {turns} turns, {rises} rises"),
            Stage::Evaluating { states } => write!(f, "evaluating by sets, {states} states"),
            Stage::MakingEvidence { vertices } => {
                write!(f, "making evidence, {vertices} vertices")
            }
            Stage::Writing => f.write_str("writing"),
        }
    }
}

/// The greatest memory that the program has had so far, in kilobytes, where the system tells it.
fn most_memory(rt: HostRuntime) -> Option<u64> {
    let status = fs::read_to_string(&rt, "/proc/self/status").ok()?;
    let (_, rest) = status.split_once("VmHWM:")?;
    let (number, _) = rest.trim_start().split_once(" ")?;
    number.parse::<u64>().ok()
}
