// What a check tells on standard error while it runs: notes on its formula, at a terminal a line that says what it is doing, and what it has
// done where that is asked for.

use crate::notes::note_all;
use crate::stats::{Activity, Running, Stats, game_told};
use calculus::closed::Closed;
use formula::strange::strange_words;
use game::gauge::{Gauge, GaugeReading};
use game::observer::{Observer, Stage};
use lts::system::Lts;
use requests::watch::Watcher;
use std::alloc::Global;
use std::io::{IsTerminal, Write};
use std::sync::{Arc, Condvar, Mutex, Wait};
use std::thread::JoinHandle;
use std::time::{Clock, Duration, Instant};
use std::{fmt, io, thread};
use workers::runtime::Runtime;

/// How long a run may be until it has a line, in milliseconds.
const FIRST: u64 = 2000;

/// How long a line stands until it is written anew, in milliseconds.
const NEXT: u64 = 250;

/// Takes the line away, behind whose end the cursor stands: up to its beginning, and all after it. So a run that is broken off leaves a line of
/// its own.
const CLEAR: &[u8] = b"\x1b[A\r\x1b[K";

/// What stands in front of the line: the terminal cuts what it has no room for, and doesn't go on in the next row.
const CUT: &str = "\x1b[?7l";

/// What stands behind it: other lines are not cut.
const WHOLE: &str = "\x1b[?7h\n";

/// The handle by which a thread writes the line, some times a second.
pub trait TimedRuntime: Runtime + Clock + 'static {}

impl<R: Runtime + Clock + 'static> TimedRuntime for R {}

/// What has become of the line.
#[derive(Drop)]
struct Screen {
    /// Something stands on it.
    is_drawn: bool,
    /// The run has ended, or writes where the line would stand.
    is_over: bool,
}

/// What the run and the thread that writes the line share.
#[derive(Drop)]
struct SharedLine {
    /// What the run does.
    step: Mutex<Activity>,
    /// How far that has come.
    gauge: Gauge,
    screen: Mutex<Screen>,
    over: Condvar,
}

impl SharedLine {
    fn new() -> SharedLine {
        let (is_drawn, is_over) = (false, false);
        SharedLine {
            step: Mutex::new(Activity::Seen(Stage::ReadingSystem)),
            gauge: Gauge::new(),
            screen: Mutex::new(Screen { is_drawn, is_over }),
            over: Condvar::new(),
        }
    }
}

// How far a step has come, in its words, where that is known.
#[derive(Drop)]
struct Progress {
    step: Activity,
    reading: Option<GaugeReading>,
}

impl fmt::Display for Progress {
    fn fmt<W: fmt::Write>(&self, f: &mut fmt::Formatter<W>) -> fmt::Result {
        let Some(GaugeReading { done, whole }) = self.reading else {
            return Ok(());
        };
        match self.step {
            Activity::ReadingGame | Activity::Seen(Stage::ReadingSystem | Stage::ReadingFormula) =>
                { write!(f, ", {} of {} MB", done / 1_000_000, whole / 1_000_000) }
            Activity::Seen(Stage::Building { .. }) => write!(f, ", {done} of {whole} vertices"),
            Activity::Seen(Stage::Searching { .. }) => {
                let spent = done.saturating_mul(100).checked_div(whole);
                write!(f, ", {} % of the budget spent", spent.unwrap_or(0))
            }
            _ => Ok(()),
        }
    }
}

// Writes the line anew, some times a second, from the time on that a run may be without one.
fn tick<T: Wait + Clock>(rt: HostRuntime, handle: &T, place: &SharedLine) {
    let Ok(start) = Instant::now(handle) else {
        return;
    };
    let mut pause = FIRST;
    for _ in handle.forever() {
        let screen = place.screen.lock(handle);
        let rest = Duration::from_millis(pause);
        let (mut screen, _) = place
            .over
            .wait_timeout_while(handle, screen, rest, |screen| !screen.is_over);
        if screen.is_over {
            return;
        }
        if let Ok(elapsed) = start.elapsed(handle) {
            let step = *place.step.lock(handle);
            screen.is_drawn = draw(rt, place, step, screen.is_drawn, elapsed.as_secs());
        }
        pause = NEXT;
    }
}

// Writes the line in place of the one that stands, if one does. Whether one stands afterwards.
fn draw(rt: HostRuntime, place: &SharedLine, step: Activity, is_drawn: bool, seconds: u64) -> bool {
    let reading = place.gauge.reading();
    let progress = Progress { step, reading };
    let line = format!(in rt.alloc(); "{CUT}mucheck: {step}{progress}, {seconds} s{WHOLE}");
    let Some(line) = line.ok() else {
        return is_drawn;
    };
    if is_drawn && rt.stderr().write_all(CLEAR).is_err() {
        return false;
    }
    rt.stderr().write_all(line.as_bytes()).is_ok()
}

/// What a check tells while it runs.
#[derive(Drop)]
pub struct ProgressLine<'a, T> {
    rt: HostRuntime,
    handle: &'a T,
    /// None where standard error is no terminal.
    place: Option<Arc<SharedLine, Global>>,
    /// What goes on; where it is told of stages, None before the first.
    running: Mutex<Option<Running>>,
    stats: Stats,
    /// The formula's file, where notes name it.
    name: Option<&'a str>,
}

impl<'a, T: TimedRuntime> ProgressLine<'a, T> {
    /// A line for a run that begins now, and the thread that writes it, where there is one. Where the run is one of several, notes name its formula's
    /// file.
    pub fn start(
        rt: &HostRuntime,
        handle: &'a T,
        stats: Stats,
        name: Option<&'a str>,
    ) -> (ProgressLine<'a, T>, Option<JoinHandle<()>>) {
        let place = if rt.stderr().is_terminal() {
            Arc::new(rt.alloc(), SharedLine::new()).ok()
        } else {
            None
        };
        let line = ProgressLine {
            rt: *rt,
            handle,
            place,
            running: Mutex::new(None),
            stats,
            name,
        };
        let ticker = line.ticker();
        (line, ticker)
    }

    fn ticker(&self) -> Option<JoinHandle<()>> {
        let place = Arc::try_clone(self.place.as_ref()?).ok()?;
        let (rt, handle) = (self.rt, *self.handle);
        thread::spawn(self.handle, move || tick(rt, &handle, &place)).ok()
    }

    /// The run has ended: nothing is told any more, and the thread that wrote the line, if there was one, ends.
    pub fn finish(self, ticker: Option<JoinHandle<()>>) {
        self.end();
        self.end_steps();
        if let Some(ticker) = ticker {
            ticker.join(self.handle);
        }
    }
}

impl<T: Wait + Clock> ProgressLine<'_, T> {
    /// Takes the line away for good.
    pub fn end(&self) {
        if let Some(place) = &self.place {
            let mut screen = place.screen.lock(self.handle);
            screen.is_over = true;
            // Where standard error fails, there is nobody to tell.
            let _ = self.clear(&mut screen);
            place.over.notify_all();
        }
    }

    // Writes where the line stood if there is one.
    fn write_alone<F: FnOnce() -> io::Result<()>>(&self, write: F) -> io::Result<()>
        requires { F.IsAlwaysCallable write }
    {
        let Some(place) = &self.place else {
            return write();
        };
        let mut screen = place.screen.lock(self.handle);
        self.clear(&mut screen)?;
        write()
    }

    fn clear(&self, screen: &mut Screen) -> io::Result<()> {
        if screen.is_drawn {
            screen.is_drawn = false;
            self.rt.stderr().write_all(CLEAR)?;
        }
        Ok(())
    }

    /// The step begins, or goes on; what went on before has ended.
    pub fn step(&self, step: Activity) {
        if let Some(place) = &self.place {
            *place.step.lock(self.handle) = step;
            place.gauge.clear();
        }
        // (a file that is written may be a terminal)
        if matches!(step, Activity::Seen(Stage::Writing)) {
            self.end();
        }
        if self.stats.are_told() {
            self.begin(step);
        }
    }

    fn begin(&self, step: Activity) {
        let mut running = self.running.lock(self.handle);
        let since = match *running {
            Some(Running { step: now, since }) if now.goes_on(step) => Some(since),
            before => {
                self.tell_ended(before);
                Instant::now(self.handle).ok()
            }
        };
        *running = since.map(|since| Running { step, since });
    }

    /// The last step has ended.
    fn end_steps(&self) {
        let mut running = self.running.lock(self.handle);
        self.tell_ended(running.take());
    }

    // Writes what is told, if there was memory for it.
    fn tell_made(&self, told: Option<String>) {
        if let Some(told) = told {
            // Where standard error fails, there is nobody to tell.
            let _ = self.write_alone(|| self.rt.stderr().write_all(told.as_bytes()));
        }
    }

    fn tell_ended(&self, ended: Option<Running>) {
        self.tell_made(ended.and_then(|ended| ended.ended(self.rt, self.handle)));
    }
}

impl<T: Wait + Clock> Observer for ProgressLine<'_, T> {
    fn sees(&self, stage: Stage) {
        let seen = Activity::Seen(stage);
        if !matches!(stage, Stage::Worked { .. }) {
            self.step(seen);
        } else if self.stats.are_told() {
            self.tell_made(format!(in self.rt.alloc(); "mucheck: {seen}\n").ok());
        }
    }

    fn gauge(&self) -> Option<&Gauge> {
        self.place.as_ref().map(|place| &place.gauge)
    }
}

impl<T: Wait + Clock + Sync> Watcher for ProgressLine<'_, T> {
    fn has_read(&self, system: &Lts, formula: &Closed) {
        if self.stats.are_told() {
            self.end_steps();
            let (states, transitions) = (system.states(), system.transitions());
            let alloc = self.rt.alloc();
            self.tell_made(format!(in alloc;
                "mucheck: {states} states, {transitions} transitions\n"
            ).ok());
        }
        if let Stats::StagesAndGame(rule) = self.stats {
            self.tell_made(game_told(self.rt.alloc(), system, formula, rule));
        }
        if let Ok(words) = strange_words(self.rt.alloc(), system, formula) {
            // Where standard error fails, there is nobody to tell.
            let _ = self.write_alone(|| note_all(self.rt, self.name, system, &words));
        }
    }
}
