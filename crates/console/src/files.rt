// The files that a command writes, and standard output.

ghost use Rattle.std.specs.Prelude.{◌≤◌, IfOk, length};

use crate::line::ProgressLine;
use crate::refusal::{Cause, Refusal};
use crate::same::{keep_apart, refused};
use crate::told::FileName;
use command_line::names::{EvidenceNames, is_drawing};
use command_line::request::{Command, Outputs};
use lts::WriteFault;
use requests::error::MuError;
use requests::request::{Wanted, WitnessForm};
use requests::writers::Writers;
use std::cell::OnceCell;
use std::fs::File;
use std::io::{Error, ErrorKind, IsTerminal, Write};
use std::sync::Wait;
use std::time::Clock;
use std::{fs, io};

/// Where a text goes. What is written to the program's own output is put behind what stands there.
#[derive(Drop)]
enum Target {
    File(File),
    Output,
    ErrorOutput,
}

impl Target {
    /// The file of this name, which is made, or the program's own output.
    fn named(rt: &HostRuntime, name: &str) -> io::Result<Target> {
        Ok(match name {
            "/dev/stdout" => Target::Output,
            "/dev/stderr" => Target::ErrorOutput,
            _ => Target::File(File::create(rt, name)?),
        })
    }

    /// Writes there as `Write::write`, but that bytes which nobody reads any more are done with.
    fn write(&self, rt: &HostRuntime, bytes: &[u8]) -> io::Result<usize>
        ensures { IfOk result (λ n. n ≤ length bytes.now) }
    {
        let written = match self {
            Target::File(file) => {
                let mut file = file;
                file.write(bytes)
            }
            Target::Output => io::writer(rt).write(bytes),
            Target::ErrorOutput => rt.stderr().write(bytes),
        };
        match written {
            Err(error) if error.kind() == ErrorKind::BrokenPipe => Ok(bytes.len()),
            written => written,
        }
    }
}

/// The names of both files of evidence, where a path is given.
fn evidence_names(rt: &HostRuntime, path: Option<&str>) -> Result<Option<EvidenceNames>, MuError> {
    let Some(path) = path else {
        return Ok(None);
    };
    if fs::metadata(rt, path).is_ok_and(|found| !found.is_file() && !found.is_dir()) {
        let path = FileName(path);
        return Err(refused(format!(in rt.alloc();
            "error: {path} of --evidence is no file, and {path}.even and {path}.odd would be made beside it\n"
        )?));
    }
    Ok(Some(EvidenceNames::of(rt.alloc(), path)?))
}

/// The files that a command writes, each of which is made when its own first byte is written, and standard output.
#[derive(Drop)]
pub struct Files<'a> {
    pub rt: &'a HostRuntime,
    /// Their names, but those of evidence, and the form of the report.
    pub outputs: Outputs<'a>,
    evidence_names: Option<EvidenceNames>,
    /// The first of them that could not be made or written.
    fault: OnceCell<Refusal>,
}

/// One of them, as a writer.
#[derive(Drop)]
pub struct FileWriter<'a> {
    all: &'a Files<'a>,
    name: Option<&'a str>,
    target: Option<Target>,
}

/// A writer for each of them.
type AllWriters<'a, F = FileWriter<'a>> = Writers<F, F, F, F, F>;

impl<'a> Files<'a> {
    /// Those of a command. Nothing is made yet, and none is a file that is read or written otherwise.
    ///
    /// # Errors
    /// U1 where one is, or where something has the path's name of evidence that is neither a file nor a folder, as `/dev/full`; U4.
    pub fn of(rt: &'a HostRuntime, command: &Command<'a>) -> Result<Files<'a>, MuError> {
        let outputs = command.outputs();
        let evidence_names = evidence_names(rt, outputs.evidence)?;
        keep_apart(rt, command, evidence_names.as_ref())?;
        Ok(Files {
            rt,
            outputs,
            evidence_names,
            fault: OnceCell::new(),
        })
    }

    /// Which texts are written to them, and the report: a drawing of the witness where its file's name asks for one.
    pub fn wanted(&self) -> Wanted {
        Wanted {
            game: self.outputs.game.is_some(),
            evidence: self.evidence_names.is_some(),
            witness: match self.outputs.witness {
                Some(name) if is_drawing(name) => Some(WitnessForm::Drawing),
                Some(_) => Some(WitnessForm::System),
                None => None,
            },
            report: self.outputs.report,
        }
    }

    /// A writer for each of them, and of the report standard output.
    pub fn writers(&'a self) -> AllWriters<'a> {
        let names = self.evidence_names.as_ref();
        Writers {
            game: self.writer(self.outputs.game),
            even: self.writer(names.map(|names| names.even.as_str())),
            odd: self.writer(names.map(|names| names.odd.as_str())),
            witness: self.writer(self.outputs.witness),
            report: self.output(),
        }
    }

    fn writer(&'a self, name: Option<&'a str>) -> FileWriter<'a> {
        let (all, target) = (self, None);
        FileWriter { all, name, target }
    }

    /// Standard output.
    pub fn output(&'a self) -> FileWriter<'a> {
        FileWriter {
            all: self,
            name: Some("standard output"),
            target: Some(Target::Output),
        }
    }

    /// What comes of a run, or its refusal: where one of them could not be made or written, that, with what the system says.
    pub fn conclude<A>(mut self, answer: Result<A, Refusal>) -> Result<A, Refusal> {
        match (answer, self.fault.take()) {
            (Err(_), Some(fault)) => Err(fault),
            (answer, _) => answer,
        }
    }

    /// Keeps a refusal with what the system says of an error, and answers one of that kind. An interruption isn't kept, since the call is tried again.
    fn keep(&self, name: &str, error: Error, refusal: MuError) -> Error {
        let kind = error.kind();
        if kind != ErrorKind::Interrupted {
            let cause = Cause::of(self.rt, name, error);
            let error = refusal;
            let _ = self.fault.set(Refusal { error, cause });
        }
        Error::from(kind)
    }
}

impl Write for FileWriter<'_> {
    fn write(&mut self, bytes: &[u8]) -> io::Result<usize> {
        let Some(name) = self.name else {
            return Err(Error::from(ErrorKind::NotFound));
        };
        let all = self.all;
        if self.target.is_none() {
            let made = Target::named(all.rt, name);
            self.target = Some(made.map_err(|error| all.keep(name, error, MuError::File))?);
        }
        match &self.target {
            Some(target) => match target.write(all.rt, bytes) {
                Err(error) => Err(all.keep(name, error, MuError::Write(WriteFault))),
                written => written,
            },
            None => Ok(0),
        }
    }

    fn flush(&mut self) -> io::Result<()> {
        Ok(())
    }
}

/// Standard output in a run that may write before it says so.
#[derive(Drop)]
pub struct Output<'a, T> {
    out: FileWriter<'a>,
    line: &'a ProgressLine<'a, T>,
    /// It is a terminal.
    is_shown: bool,
}

impl<'a, T> Output<'a, T> {
    /// In a run that has this line, which is taken away before the first byte at a terminal.
    pub fn new(files: &'a Files<'a>, line: &'a ProgressLine<'a, T>) -> Output<'a, T> {
        Output {
            out: files.output(),
            line,
            is_shown: files.rt.stdout().is_terminal(),
        }
    }
}

impl<T: Wait + Clock> Write for Output<'_, T> {
    fn write(&mut self, bytes: &[u8]) -> io::Result<usize> {
        if self.is_shown {
            self.line.end();
        }
        self.out.write(bytes)
    }

    fn flush(&mut self) -> io::Result<()> {
        Ok(())
    }
}
