// The commands `labels`, `normal`, `solve`, `verify` and `replay`. Each opens all files, in the order of the command line, before the first is read.

use crate::files::Files;
use crate::input::{label_hasher, open};
use crate::line::{ProgressLine, TimedRuntime};
use crate::refusal::Refusal;
use crate::stats::{Activity, Stats};
use command_line::request::Labels;
use commands::labels_text::labels_text;
use commands::normal_text::normal_asked;
use commands::replay_text::replay_asked;
use commands::solve_text::solve_asked;
use commands::verify_text::{verify_both_text, verify_text};
use requests::request::{Normalize, Replay, Solve, Verify};

/// Lists the labels of a system, and answers true.
///
/// # Errors
/// U2, and those of `labels_text`.
pub fn run_labels(files: &Files<'_>, request: &Labels<'_>) -> Result<bool, Refusal> {
    let rt = files.rt;
    let system = open(rt, request.system)?;
    let formula = match request.formula {
        None => None,
        Some(name) => Some(open(rt, name)?),
    };
    let hasher = label_hasher(rt)?;
    let answer = labels_text(rt.alloc(), hasher, system, formula, &mut files.output());
    Ok(answer?)
}

/// Writes the normal form of a formula, and answers true.
///
/// # Errors
/// U2, and those of `normal_asked`.
pub fn run_normal(files: &Files<'_>, request: &Normalize<'_>) -> Result<bool, Refusal> {
    let formula = open(files.rt, request.formula)?;
    let answer = normal_asked(files.rt.alloc(), request, formula, &mut files.output());
    Ok(answer?)
}

/// Writes the winners of a game, and evidence to the files that are asked for, and answers as `solve_asked` does.
///
/// # Errors
/// U2, and those of `solve_asked`.
pub fn run_solve<T: TimedRuntime>(
    files: &Files<'_>,
    threads: &T,
    request: &Solve<'_>,
) -> Result<bool, Refusal> {
    let game = open(files.rt, request.game)?;
    let stats = Stats::of(request.stats, true, &request.options);
    let (line, ticker) = ProgressLine::start(files.rt, threads, stats, None);
    line.step(Activity::ReadingGame);
    let writers = files.writers();
    let (mut even, mut odd, mut report) = (writers.even, writers.odd, writers.report);
    let answer = solve_asked(
        threads,
        files.rt.alloc(),
        request,
        game.counted(&line),
        &mut even,
        &mut odd,
        &mut report,
        &line,
    );
    line.finish(ticker);
    Ok(answer?)
}

/// Writes the verdict on evidence, and answers whether it is good.
///
/// # Errors
/// U2, and those of `verify_text` and of `verify_both_text`.
pub fn run_verify(files: &Files<'_>, request: &Verify<'_>) -> Result<bool, Refusal> {
    let rt = files.rt;
    let game = open(rt, request.game)?;
    let evidence = open(rt, request.evidence)?;
    let answer = match request.other {
        None => verify_text(rt.alloc(), game, evidence, &mut files.output()),
        Some(name) => {
            let other = open(rt, name)?;
            verify_both_text(rt.alloc(), game, evidence, other, &mut files.output())
        }
    };
    Ok(answer?)
}

/// Writes what comes of a schedule, and answers as `replay_asked` does.
///
/// # Errors
/// U2, and those of `replay_asked`.
pub fn run_replay<T: TimedRuntime>(
    files: &Files<'_>,
    threads: &T,
    request: &Replay<'_>,
) -> Result<bool, Refusal> {
    let rt = files.rt;
    let system = open(rt, request.system)?;
    let formula = open(rt, request.formula)?;
    let schedule = open(rt, request.schedule)?;
    let hasher = label_hasher(rt)?;
    let answer = replay_asked(
        threads,
        rt.alloc(),
        request,
        hasher,
        system,
        formula,
        schedule,
        &mut files.output(),
    );
    Ok(answer?)
}
