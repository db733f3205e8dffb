// The texts that the program tells of itself.

ghost use Rattle.std.specs.Prelude.{IfErr, ⊤};
ghost use Rattle.command_line.specs.Refused.{IsLineError};

use crate::codes::code_entry;
use crate::line::refusal;
use crate::version::VERSION;
use clap::Error as ClapError;
use clap::error::ErrorKind;
use command_table::parser::parser;
use requests::error::{ArgumentError, MuError};
use std::alloc::{AllocError, Global};

/// The help of a command, or of the program: what `--help` shows.
///
/// # Errors
/// U1 where there is no such command, U4.
pub fn help_text(alloc: Global, command: Option<&str>) -> Result<String, MuError>
    ensures { IfErr result (IsLineError ⊤) }
{
    match command {
        Some(name) => help_for(alloc, &["mucheck", name, "--help"]),
        None => help_for(alloc, &["mucheck", "--help"]),
    }
}

/// What the program answers to these words, which ask for help.
fn help_for<'a>(alloc: Global, words: &'a [&'a str]) -> Result<String, MuError>
    ensures { IfErr result (IsLineError ⊤) }
{
    let Ok(parser) = parser(alloc, VERSION) else {
        return Err(MuError::Memory);
    };
    match parser.try_get_matches_from(words) {
        Ok(_matches) => Err(MuError::Arguments(ArgumentError::NoCommand)),
        Err(error) => shown(alloc, &error),
    }
}

/// The help that `clap` answers in place of matches.
fn shown(alloc: Global, error: &ClapError) -> Result<String, MuError>
    ensures { IfErr result (IsLineError ⊤) }
{
    match error.kind() {
        ErrorKind::DisplayHelp => text(error.to_string(alloc)),
        _ => Err(refusal(alloc, error)),
    }
}

/// The program's version and what proved it: what `--version` shows.
///
/// # Errors
/// U4.
pub fn version_text(alloc: Global) -> Result<String, MuError>
    ensures { IfErr result (IsLineError ⊤) }
{
    text(format!(in alloc; "mucheck {VERSION}\n"))
}

/// What a code means, in small letters or capital ones, and how it is fixed.
///
/// # Errors
/// U1 where there is no such code, U4.
pub fn explanation(alloc: Global, code: &str) -> Result<String, MuError>
    ensures { IfErr result (IsLineError ⊤) }
{
    let Ok(code) = code.to_ascii_uppercase(alloc) else {
        return Err(MuError::Memory);
    };
    match code_entry(code.as_str()) {
        Some(entry) => {
            let (code, place, wrong, remedy) = (entry.code, entry.place, entry.wrong, entry.remedy);
            text(format!(in alloc; "{code}{place}: {wrong}\nWhat to do: {remedy}\n"))
        }
        None => Err(MuError::Arguments(ArgumentError::UnknownCode)),
    }
}

fn text(made: Result<String, AllocError>) -> Result<String, MuError>
    ensures { IfErr result (IsLineError ⊤) }
{
    Ok(made?)
}
