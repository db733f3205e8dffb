// Whether two names are those of one file: links, and names with other folders in front.

use crate::told::FileName;
use command_line::names::{EvidenceNames, has_ending, is_device};
use command_line::request::Command;
use requests::error::{ArgumentError, CheckFile, MuError};
use requests::request::ReportForm;
use std::fs;
use std::io::ErrorKind;
use std::os::unix::fs::MetadataExt;
use std::path::Path;

/// How the names of pictures end.
static PICTURES: [&str; 7] = [".svg", ".png", ".pdf", ".ps", ".jpg", ".jpeg", ".gif"];

const NO_PICTURE: &str = "error: --witness writes no picture: name its file .dot, and draw that \
by dot -Tsvg\n";

/// What tells a file from every other one: its device and number or, where it isn't there yet, those of its folder with its name.
type Identity<'a> = (u64, u64, &'a str);

/// A file of a command, with what it is, as far as the system tells.
#[derive(Clone, Copy)]
struct NamedFile<'a> {
    file: CheckFile,
    identity: Option<Identity<'a>>,
    /// It is the program's own output, to which any number of texts may go.
    is_own: bool,
}

/// Refuses a command that would write a picture, or to a file twice, or to one that it reads, whatever their names are. What is no file, as a pipe or
/// a terminal, has nothing that could be destroyed.
///
/// # Errors
/// U1, with both files, or with the one that the answer would go to; U4.
pub fn keep_apart(
    rt: &HostRuntime,
    command: &Command<'_>,
    evidence: Option<&EvidenceNames>,
) -> Result<(), MuError> {
    if !matches!(command, Command::Check(_, _) | Command::Solve(_)) {
        return keep_answer_apart(rt, command);
    }
    let outputs = command.outputs();
    if outputs.witness.is_some_and(is_picture) {
        return Err(refused(String::from_str(rt.alloc(), NO_PICTURE)?));
    }
    let [main, formula, ..] = command.files();
    let even = evidence.map(|names| names.even.as_str());
    let odd = evidence.map(|names| names.odd.as_str());
    let files = [
        place_of(rt, CheckFile::Game, outputs.game),
        place_of(rt, CheckFile::EvenEvidence, even),
        place_of(rt, CheckFile::OddEvidence, odd),
        place_of(rt, CheckFile::Witness, outputs.witness),
        reported(rt, outputs.report),
        read(rt, command.main_file(), main),
        read(rt, CheckFile::Formula, formula),
    ];
    // (the last two are only read)
    for at in 0..5 {
        apart_from(&files[at], &files[at + 1..]).map_err(MuError::Arguments)?;
    }
    Ok(())
}

/// Whether the name ends as that of a picture, which isn't written.
fn is_picture(name: &str) -> bool {
    let mut endings = PICTURES.iter();
    endings.any(|ending| has_ending(name.as_bytes(), ending.as_bytes()))
}

/// Refuses a command whose answer would go to a file that it reads.
fn keep_answer_apart(rt: &HostRuntime, command: &Command<'_>) -> Result<(), MuError> {
    let files = command.files();
    let report = reported(rt, ReportForm::Whole);
    for name in files.iter().flatten().chain(command.formulas()) {
        if apart_from(&report, &[read(rt, CheckFile::Formula, Some(name))]).is_err() {
            let name = FileName(name);
            return Err(refused(format!(in rt.alloc();
                "error: standard output and {name} are the same file\n"
            )?));
        }
    }
    Ok(())
}

/// The refusal of a command line with this text.
pub(crate) fn refused(text: String) -> MuError {
    MuError::Arguments(ArgumentError::Refused(text))
}

/// Where the report goes, in a form in which there is one.
fn reported<'a>(rt: &HostRuntime, report: ReportForm) -> NamedFile<'a> {
    let is_written = !matches!(report, ReportForm::Nothing);
    place_of(rt, CheckFile::Report, is_written.then_some("/dev/stdout"))
}

/// The place of what is read under this name.
fn read<'a>(rt: &HostRuntime, file: CheckFile, name: Option<&'a str>) -> NamedFile<'a> {
    let name = match name {
        Some("-") => Some("/dev/stdin"),
        name => name,
    };
    NamedFile {
        is_own: false,
        ..place_of(rt, file, name)
    }
}

/// The place of a text, where it is asked for.
fn place_of<'a>(rt: &HostRuntime, file: CheckFile, name: Option<&'a str>) -> NamedFile<'a> {
    NamedFile {
        file,
        identity: name.and_then(|name| identify(rt, name)),
        is_own: name.is_some_and(is_device),
    }
}

fn identify<'a>(rt: &HostRuntime, name: &'a str) -> Option<Identity<'a>> {
    match fs::metadata(rt, name) {
        Ok(found) if found.is_file() => Some((found.dev(), found.ino(), "")),
        Err(error) if error.kind() == ErrorKind::NotFound => identify_in_folder(rt, name),
        _ => None,
    }
}

fn identify_in_folder<'a>(rt: &HostRuntime, name: &'a str) -> Option<Identity<'a>> {
    let path = Path::new(name);
    let folder = match path.parent() {
        Some(folder) if !folder.as_str().is_empty() => folder,
        _ => Path::new("."),
    };
    let found = fs::metadata(rt, folder).ok()?;
    Some((found.dev(), found.ino(), path.file_name()?))
}

/// Refuses a place that is written to and is another one of these.
fn apart_from(one: &NamedFile<'_>, others: &[NamedFile<'_>]) -> Result<(), ArgumentError> {
    let own = one.identity.is_some();
    for other in others {
        if own && other.identity == one.identity && !(one.is_own && other.is_own) {
            return Err(ArgumentError::SameFile(one.file, other.file));
        }
    }
    Ok(())
}
