// What the program can be asked to do. The files are named as on the command line.

ghost use Rattle.std.specs.Prelude.{◌≡◌, ◌↔◌, IsTrue};
ghost use Rattle.command_line.specs.CommandLine.{IsReportAlone};
ghost use Rattle.command_line.specs.Files.{files_of, formulas_of, main_file_of, outputs_of};

use requests::error::CheckFile;
use requests::request::{Check, Normalize, Replay, ReportForm, Solve, Table, Verify, Why};

/// What the program is asked to do.
#[derive(Drop)]
pub enum Command<'a> {
    /// A check, and where its texts go.
    Check(Check<'a>, Outputs<'a>),
    Why(Why<'a>),
    Table(Table<'a>),
    Labels(Labels<'a>),
    Normal(Normalize<'a>),
    Solve(Solve<'a>),
    Verify(Verify<'a>),
    Replay(Replay<'a>),
    /// The entry of a code.
    Explain(&'a str),
    /// The help of a command, or of the program.
    Help(Option<&'a str>),
    Version,
}

impl<'a> Command<'a> {
    /// The files that it reads: the system or the game, the formula, the evidence or the schedule, and the other evidence. A table's formulas aren't
    /// among them.
    pub fn files(&self) -> [Option<&'a str>; 4]
        ensures { result ≡ files_of self.now }
    {
        match self {
            Command::Check(check, _) => [Some(check.system), Some(check.formula), None, None],
            Command::Why(why) => [Some(why.system), Some(why.formula), None, None],
            Command::Table(table) => [Some(table.system), None, None, None],
            Command::Labels(labels) => [Some(labels.system), labels.formula, None, None],
            Command::Normal(form) => [None, Some(form.formula), None, None],
            Command::Solve(solve) => [Some(solve.game), None, None, None],
            Command::Verify(verify) => {
                [Some(verify.game), None, Some(verify.evidence), verify.other]
            }
            Command::Replay(replay) => {
                let (formula, schedule) = (Some(replay.formula), Some(replay.schedule));
                [Some(replay.system), formula, schedule, None]
            }
            Command::Explain(_) | Command::Help(_) | Command::Version => [None; 4],
        }
    }

    /// A table's formulas.
    pub fn formulas(&self) -> &[&'a str]
        ensures { result.now ≡ formulas_of self.now }
    {
        match self {
            Command::Table(table) => table.formulas.as_slice(),
            _ => &[],
        }
    }

    /// Where its texts go.
    pub fn outputs(&self) -> Outputs<'a>
        ensures { result ≡ outputs_of self.now }
    {
        match self {
            Command::Check(_, outputs) => *outputs,
            Command::Solve(solve) => Outputs::of(solve.evidence, solve.stats),
            _ => Outputs::of(None, false),
        }
    }

    /// Which file the first of those is that it reads beside files that it writes.
    pub fn main_file(&self) -> CheckFile
        ensures { result ≡ main_file_of self.now }
    {
        match self {
            Command::Solve(_) => CheckFile::SolvedGame,
            _ => CheckFile::System,
        }
    }
}

/// The labels of a system, and which of them a formula takes.
#[derive(Clone, Copy)]
pub struct Labels<'a> {
    pub system: &'a str,
    pub formula: Option<&'a str>,
}

/// Where a check's texts go.
#[derive(Clone, Copy)]
pub struct Outputs<'a> {
    /// The file of the game.
    pub game: Option<&'a str>,
    /// The files of Even's and of Odd's evidence, without `.even` and `.odd`.
    pub evidence: Option<&'a str>,
    /// The file of the transitions that the answer rests on.
    pub witness: Option<&'a str>,
    /// In which form the report is written.
    pub report: ReportForm,
    /// Whether standard error tells of each stage.
    pub stats: bool,
}

impl<'a> Outputs<'a> {
    /// Evidence, if it is asked for, and a whole report.
    fn of(evidence: Option<&'a str>, stats: bool) -> Outputs<'a>
        ensures { result ≡ record { game = None; evidence = evidence.entry; witness = None; report = ReportForm.Whole; stats = stats } }
    {
        Outputs {
            game: None,
            evidence,
            witness: None,
            report: ReportForm::Whole,
            stats,
        }
    }

    /// Whether none of the files is asked for.
    pub fn is_report_alone(&self) -> bool
        ensures { IsTrue result ↔ IsReportAlone self.now }
    {
        self.game.is_none() && self.evidence.is_none() && self.witness.is_none()
    }
}
