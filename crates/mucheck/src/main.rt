// mucheck: a model checker for the modal mu-calculus. The program opens files, runs an engine over them and tells how it
// ended; all that matters stands in the engines.
#![tactic(auto)]

mod check;
mod table;

use crate::check::{run_check, run_why};
use crate::table::run_table;
use command_line::information::{explanation, help_text, version_text};
use command_line::line::command;
use command_line::request::Command;
use console::files::Files;
use console::input::take_descriptors;
use console::line::TimedRuntime;
use console::refusal::{Refusal, tell};
use console::texts::{run_labels, run_normal, run_replay, run_solve, run_verify};
use engines::error::{ArgumentError, MuError};
use engines::status::{error_status, status_of_answer};
use lts::put;
use std::env;
use std::io::ErrorKind;
use std::process::ExitCode;

fn main(rt: HostRuntime) -> ExitCode {
    let taken = take_descriptors(&rt);
    let status = ended(&rt, &[None; 4], run(&rt, &rt));
    drop(taken);
    ExitCode::from(status)
}

// The status with which the program ends, or why there is no command. Threads are handed on apart, since `main` alone has them.
fn run<T: TimedRuntime>(rt: &HostRuntime, threads: &T) -> Result<u8, Refusal> {
    let words = words(rt)?;
    let command = command(rt.alloc(), &words)?;
    let found = run_command(rt, threads, &command);
    Ok(ended(rt, &command.files(), found))
}

/// The status. A refusal is told, with the files that the command reads.
fn ended(rt: &HostRuntime, files: &[Option<&str>; 4], found: Result<u8, Refusal>) -> u8 {
    match found {
        Ok(status) => status,
        Err(refusal) => {
            // Where standard error fails too, the status alone tells.
            let _ = tell(rt, files, &refusal);
            error_status(&refusal.error)
        }
    }
}

/// That no file is destroyed is seen to before any is opened.
fn run_command<T: TimedRuntime>(
    rt: &HostRuntime,
    threads: &T,
    command: &Command<'_>,
) -> Result<u8, Refusal> {
    let files = Files::of(rt, command)?;
    let answer = match command {
        Command::Check(request, _) => run_check(&files, threads, request),
        Command::Why(request) => run_why(&files, threads, request),
        Command::Table(request) => {
            let status = run_table(&files, threads, request);
            return files.conclude(status);
        }
        Command::Labels(request) => run_labels(&files, request),
        Command::Normal(request) => run_normal(&files, request),
        Command::Solve(request) => run_solve(&files, threads, request),
        Command::Verify(request) => run_verify(&files, request),
        Command::Replay(request) => run_replay(&files, threads, request),
        Command::Explain(code) => show(&files, explanation(rt.alloc(), code)),
        Command::Help(command) => show(&files, help_text(rt.alloc(), *command)),
        Command::Version => show(&files, version_text(rt.alloc())),
    };
    Ok(status_of_answer(files.conclude(answer)?))
}

/// Writes a text that was asked for.
fn show(files: &Files<'_>, text: Result<String, MuError>) -> Result<bool, Refusal> {
    let text = text?;
    let written = put(&mut files.output(), text.as_bytes());
    written.map_err(MuError::Write)?;
    Ok(true)
}

/// The words of the command line. Arguments that are no text are wrong arguments.
fn words(rt: &HostRuntime) -> Result<Vec<String>, MuError> {
    match env::args(rt) {
        Ok(found) => Ok(found.collect(rt.alloc())?),
        Err(error) if error.kind() == ErrorKind::OutOfMemory => Err(MuError::Memory),
        Err(_) => Err(MuError::Arguments(ArgumentError::NoText)),
    }
}
