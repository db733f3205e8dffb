// The command `table`.

use console::fault::{note_expectation, tell_fault};
use console::files::{Files, Output};
use console::input::{Input, open, read_system};
use console::line::{ProgressLine, TimedRuntime};
use console::refusal::{Refusal, tell};
use console::stats::Stats;
use console::told::FileName;
use engines::error::MuError;
use engines::request::Table;
use engines::status::error_status;
use game::observer::{Observer, Stage};
use lts::system::Lts;
use lts::{Piece, put_pieces};
use table_lines::table::table_line;

/// The status of a line whose formula is at fault.
const AT_FAULT: u8 = 2;

/// What the lines of a table are made of.
#[derive(Drop)]
struct TableRun<'a, T> {
    files: &'a Files<'a>,
    threads: &'a T,
    request: &'a Table<'a>,
    stats: Stats,
    system: &'a Lts,
}

/// Reads the system once, and writes a line for each formula as soon as it is known. It answers the greatest of their statuses. Notes on words that
/// no label has, what is to be told of refusals, and how many lines there are of each kind go to standard error.
pub fn run_table<T: TimedRuntime>(
    files: &Files<'_>,
    threads: &T,
    request: &Table<'_>,
) -> Result<u8, Refusal> {
    let rt = files.rt;
    let stats = Stats::of(request.stats, request.plain, &request.options);
    let system = &read_system(rt, threads, request.system, stats)?;
    let run = TableRun {
        files,
        threads,
        request,
        stats,
        system,
    };
    // (of each status, and of all that are greater than 2)
    let mut counts = [0usize; 3];
    let mut greatest = 0;
    for name in &request.formulas {
        let status = run.write(name)?;
        let count = &mut counts[usize::from(status.min(2))];
        *count = count.saturating_add(1);
        greatest = status.max(greatest);
    }
    let [_, unexpected, refused] = counts;
    let formulas = request.formulas.len();
    let s = if formulas == 1 { "" } else { "s" };
    // Where standard error fails, there is nobody to tell.
    let _ = eprintln!(rt;
        "mucheck: {formulas} formula{s}, {unexpected} not as expected, {refused} refused"
    );
    Ok(greatest)
}

impl<T: TimedRuntime> TableRun<'_, T> {
    /// Writes the line of the file of this name, and answers its status.
    fn write(&self, name: &str) -> Result<u8, Refusal> {
        let rt = self.files.rt;
        note_expectation(rt, name);
        let shown = format!(in rt.alloc(); "{}", FileName(name)).ok();
        // (where there is no memory, the name is told as it is)
        let shown = shown.as_deref().unwrap_or(name);
        match open(rt, name) {
            Ok(formula) => self.write_answer(name, shown, formula),
            Err(refusal) => self.write_unopened(shown, refusal),
        }
    }

    /// Writes the line of a file that can't be opened, and answers its status. Standard error tells why.
    fn write_unopened(&self, shown: &str, refusal: Refusal) -> Result<u8, Refusal> {
        let line = [
            Piece::Bytes(b"U2 "),
            Piece::Bytes(shown.as_bytes()),
            Piece::Bytes(b"\n"),
        ];
        put_pieces(&mut self.files.output(), &line).map_err(MuError::Write)?;
        // Where standard error fails too, the line tells.
        let _ = tell(self.files.rt, &[None; 4], &refusal);
        Ok(error_status(&refusal.error))
    }

    /// Writes the line of a formula's file, and answers its status. Where the formula is at fault, standard error tells the place.
    fn write_answer(&self, name: &str, shown: &str, formula: Input<'_>) -> Result<u8, Refusal> {
        let rt = self.files.rt;
        let (line, ticker) = ProgressLine::start(rt, self.threads, self.stats, Some(name));
        line.sees(Stage::ReadingFormula);
        let status = table_line(
            self.threads,
            rt.alloc(),
            self.system,
            self.request,
            shown,
            formula.counted(&line),
            &mut Output::new(self.files, &line),
            &line,
        );
        line.finish(ticker);
        let status = status.map_err(MuError::Write)?;
        if status == AT_FAULT {
            tell_fault(rt, self.system, self.request.strict, name);
        }
        Ok(status)
    }
}
