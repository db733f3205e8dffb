// The commands `check` and `why`. Both files are opened, in the order of the command line, before the first is read.

use console::files::{Files, Output};
use console::input::{label_hasher, open};
use console::line::{ProgressLine, TimedRuntime};
use console::refusal::Refusal;
use console::stats::Stats;
use engines::engine::check_asked;
use engines::reasons::tell_why;
use engines::request::{Check, Why};

/// Writes what is asked for to the files, and then the report.
pub fn run_check<T: TimedRuntime>(
    files: &Files<'_>,
    threads: &T,
    request: &Check<'_>,
) -> Result<bool, Refusal> {
    let rt = files.rt;
    let system = open(rt, request.system)?;
    let formula = open(rt, request.formula)?;
    let hasher = label_hasher(rt)?;
    let stats = Stats::of(files.outputs.stats, request.plain, &request.options);
    let (line, ticker) = ProgressLine::start(rt, threads, stats, None);
    let answer = check_asked(
        threads,
        rt.alloc(),
        request,
        files.wanted(),
        hasher,
        system.counted(&line),
        formula.counted(&line),
        &mut files.writers(),
        &line,
    );
    line.finish(ticker);
    Ok(answer?)
}

/// Writes the answer, and the play that shows it.
pub fn run_why<T: TimedRuntime>(
    files: &Files<'_>,
    threads: &T,
    request: &Why<'_>,
) -> Result<bool, Refusal> {
    let rt = files.rt;
    let system = open(rt, request.system)?;
    let formula = open(rt, request.formula)?;
    let hasher = label_hasher(rt)?;
    let (line, ticker) = ProgressLine::start(rt, threads, Stats::Nothing, None);
    let answer = tell_why(
        threads,
        rt.alloc(),
        request,
        hasher,
        system.counted(&line),
        formula.counted(&line),
        &mut Output::new(files, &line),
        &line,
    );
    line.finish(ticker);
    Ok(answer?)
}
