// What is told of a refusal on standard error.

use crate::notes::is_near;
use crate::sight::{Finding, NOTHING_FOUND, find};
use crate::told::FileName;
use command_line::codes::code_entry;
use command_line::inputs::is_standard_input;
use requests::error::{ArgumentError, MuError};
use std::fs::File;
use std::io::{ErrorKind, Read};
use std::{fs, io};

/// The codes of a read that failed.
const READ_FAULTS: [&str; 4] = ["A8", "U3", "G7", "E4"];

/// What the system says of a file, or of standard output.
#[derive(Drop)]
pub(crate) struct Cause {
    name: String,
    error: io::Error,
}

impl Cause {
    /// None where there is no memory.
    pub(crate) fn of(rt: &HostRuntime, name: &str, error: io::Error) -> Option<Cause> {
        let name = String::from_str(rt.alloc(), name).ok()?;
        Some(Cause { name, error })
    }
}

/// Why there is no answer.
#[derive(Drop)]
pub struct Refusal {
    /// What the exit status goes by.
    pub error: MuError,
    pub(crate) cause: Option<Cause>,
}

impl From<MuError> for Refusal {
    fn from(error: MuError) -> Refusal {
        Refusal { error, cause: None }
    }
}

/// The file that a refusal speaks of, or both where it is one of two.
fn refused<'a>(files: &[Option<&'a str>; 4], error: &MuError) -> [Option<&'a str>; 2] {
    let [main, formula, evidence, other] = *files;
    match error {
        MuError::System(_) | MuError::Game(_) => [main, None],
        MuError::Formula(_) | MuError::NoLabel { .. } => [formula, None],
        MuError::Read => [formula, evidence],
        MuError::Evidence(_) => [evidence, other],
        MuError::Schedule(_) => [evidence, None],
        _ => [None, None],
    }
}

/// Tells a refusal: a line with the code and the place; which file it speaks of, and the line of its text; what is wrong, and what is to be done. After
/// wrong arguments, what is wrong with them, or the help. The files are those that the command reads.
pub fn tell(rt: &HostRuntime, files: &[Option<&str>; 4], refusal: &Refusal) -> io::Result<()> {
    let Refusal { error, cause } = refusal;
    match error {
        MuError::Arguments(ArgumentError::Refused(text)) => tell_wrong_words(rt, text.as_str()),
        MuError::Arguments(argument) => eprint!(rt; "mucheck: U1\n{argument}"),
        _ => {
            eprintln!(rt; "mucheck: {error}")?;
            match error.to_string(rt.alloc()) {
                Ok(text) => tell_rest(rt, refused(files, error), text.as_str(), cause.as_ref()),
                // Where there is no memory, the line with the code stands alone.
                Err(_) => Ok(()),
            }
        }
    }
}

/// Tells what is wrong with the words of a command line, without a tip, and the usage that goes with it, unless it names what is near to one of them.
fn tell_wrong_words(rt: &HostRuntime, text: &str) -> io::Result<()> {
    eprintln!(rt; "mucheck: U1")?;
    match text.split_once("\n\n  tip: ") {
        Some((wrong, rest)) if !names_near(wrong, rest) => match rest.rsplit_once("\n\n") {
            Some((_, end)) => eprint!(rt; "{wrong}\n\n{end}"),
            None => eprintln!(rt; "{wrong}"),
        },
        _ => eprint!(rt; "{text}"),
    }
}

/// Whether what both name between quotes is made of each other by two edits, and isn't the same.
fn names_near(wrong: &str, tip: &str) -> bool {
    match (quoted(wrong), quoted(tip)) {
        (Some(wrong), Some(near)) => wrong != near && is_near(wrong.as_bytes(), near.as_bytes(), 2),
        _ => true,
    }
}

/// What stands between the first quotes.
fn quoted(text: &str) -> Option<&str> {
    let (_, rest) = text.split_once("'")?;
    let (name, _) = rest.split_once("'")?;
    Some(name)
}

/// What follows the line of this text.
fn tell_rest(
    rt: &HostRuntime,
    files: [Option<&str>; 2],
    text: &str,
    cause: Option<&Cause>,
) -> io::Result<()> {
    let (code, words) = text.split_once(" at ").unwrap_or((text, ""));
    if let Some(Cause { name, error }) = cause {
        return tell_cause(rt, code, name.as_str(), error);
    }
    for name in files.iter().flatten() {
        if READ_FAULTS.contains(&code)
            && let Some(error) = unreadable(rt, name)
        {
            return tell_cause(rt, code, name, &error);
        }
    }
    tell_in(rt, code, files, words)
}

/// What the system says of a file, and what is to be done.
fn tell_cause(rt: &HostRuntime, code: &str, name: &str, error: &io::Error) -> io::Result<()> {
    eprintln!(rt; "mucheck: {}: {error}", FileName(name))?;
    match code_entry(code) {
        Some(entry) => eprintln!(rt; "mucheck: {}", entry.remedy),
        None => Ok(()),
    }
}

/// Why a file or a folder can't be read, where that shows again.
fn unreadable(rt: &HostRuntime, name: &str) -> Option<io::Error> {
    let found = fs::metadata(rt, name).ok()?;
    if is_standard_input(name) || !(found.is_file() || found.is_dir()) {
        return None;
    }
    let mut file = File::open(rt, name).ok()?;
    file.read(&mut [0]).err()
}

/// Tells in which file it is, or of which of two, and where, what is wrong and what is to be done.
fn tell_in(rt: &HostRuntime, code: &str, files: [Option<&str>; 2], words: &str) -> io::Result<()> {
    let comma = if words.is_empty() { "" } else { ", " };
    match files {
        [Some(name), None] if words.is_empty() => eprintln!(rt; "mucheck: in {}", FileName(name))?,
        [Some(name), None] => return tell_at(rt, code, name, words),
        [Some(name), Some(other)] => {
            eprintln!(rt;
                "mucheck: in {} or {}{comma}{words}",
                FileName(name),
                FileName(other)
            )?;
        }
        [None, _] => {}
    }
    tell_end(rt, code, NOTHING_FOUND)
}

/// Tells where in a file it is, shows its line, and tells what is wrong and what is to be done.
fn tell_at(rt: &HostRuntime, code: &str, name: &str, words: &str) -> io::Result<()> {
    let found = match find(rt, code, name, words) {
        // Where there is no memory, the line with the code stands alone.
        Err(error) if error.kind() == ErrorKind::OutOfMemory => return Ok(()),
        found => found.unwrap_or(NOTHING_FOUND),
    };
    let name = FileName(name);
    match &found.sight {
        Some(sight) => sight.tell(rt, name)?,
        None => eprintln!(rt; "mucheck: in {name}, {words}")?,
    }
    tell_end(rt, code, found)
}

/// Tells what is wrong and what is to be done, as it was found or as the code says.
fn tell_end(rt: &HostRuntime, code: &str, found: Finding) -> io::Result<()> {
    let Some(entry) = code_entry(code) else {
        return Ok(());
    };
    let wrong = found.wrong.as_deref().unwrap_or(entry.wrong);
    let remedy = found.remedy.unwrap_or(entry.remedy);
    eprintln!(rt; "mucheck: {wrong}\nmucheck: {remedy}")
}
