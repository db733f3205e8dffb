// The report of a check.

ghost use Rattle.std.specs.Prelude.{◌≡◌, ◌++◌, length, count_by, decimal, slice_index_or, false, IfOk, IfErr, take};
ghost use Rattle.text.specs.Pieces.{line_end};
ghost use Rattle.text.specs.Wrote.{Wrote};
ghost use Rattle.calculus.specs.Closed.{closed_formula};
ghost use Rattle.requests.specs.Report.{
  at_most,
  formula_line,
  initial_line,
  is_mark,
  mark_end,
  number_lines,
  numbers_with,
  report,
  report_in,
  state_lines,
  summary,
  system_line,
  yes_line,
};

use crate::error::MuError;
use crate::request::ReportForm;
use calculus::closed::Closed;
use formula::print;
use lts::system::Lts;
use lts::{Piece, WriteFault, put, put_pieces};
use std::alloc::Global;
use text::sink::Sink;

/// The report in a form. The whole of it is: what was read, how many states satisfy the formula, whether the initial one does, and a line for each
/// state.
///
/// # Errors
/// U4.
pub fn report_text(
    alloc: Global,
    lts: &Lts,
    formula: &Closed,
    marks: &[bool],
    form: ReportForm,
) -> Result<Vec<u8>, MuError>
    requires { length marks.now ≡ lts.now.system.states }
    ensures text { IfOk result (λ text. text.items ≡ report_in form lts.now.system (closed_formula formula.now) marks.now) }
    ensures refusal { IfErr result (λ e. e ≡ MuError.Memory) }
{
    let mut text = Vec::new(alloc);
    // A vector refuses what there is no memory for, and nothing else.
    match write_report(lts, formula, marks, form, &mut text) {
        Ok(()) => Ok(text),
        Err(WriteFault) => Err(MuError::Memory),
    }
}

fn write_report<W: Sink>(
    lts: &Lts,
    formula: &Closed,
    marks: &[bool],
    form: ReportForm,
    out: &mut W,
) -> Result<(), WriteFault>
    requires { length marks.now ≡ lts.now.system.states }
    ensures { Wrote (W.taken out.old) (W.taken out.new) result
        (report_in form lts.now.system (closed_formula formula.now) marks.now) }
{
    match form {
        ReportForm::Whole => write_whole(lts, formula, marks, out),
        ReportForm::Summary => write_summary(lts, formula, marks, out),
        ReportForm::States { mark, most } => write_numbers(marks, mark, most, out),
        ReportForm::Nothing => Ok(()),
    }
}

fn write_whole<W: Sink>(
    lts: &Lts,
    formula: &Closed,
    marks: &[bool],
    out: &mut W,
) -> Result<(), WriteFault>
    requires { length marks.now ≡ lts.now.system.states }
    ensures { Wrote (W.taken out.old) (W.taken out.new) result
        (report lts.now.system (closed_formula formula.now) marks.now) }
{
    write_summary(lts, formula, marks, out)?;
    write_state_lines(marks, out)
}

fn write_summary<W: Sink>(
    lts: &Lts,
    formula: &Closed,
    marks: &[bool],
    out: &mut W,
) -> Result<(), WriteFault>
    requires { length marks.now ≡ lts.now.system.states }
    ensures { Wrote (W.taken out.old) (W.taken out.new) result
        (summary lts.now.system (closed_formula formula.now) marks.now) }
{
    write_system_line(lts, out)?;
    write_formula_line(formula, out)?;
    write_yes_line(lts, marks, out)?;
    write_initial_line(lts, marks, out)
}

fn write_system_line<W: Sink>(lts: &Lts, out: &mut W) -> Result<(), WriteFault>
    ensures { Wrote (W.taken out.old) (W.taken out.new) result
        (system_line lts.now.system.states (length lts.now.system.arrows) lts.now.system.initial) }
{
    put_pieces(
        out,
        &[
            Piece::Bytes(b"system "),
            Piece::Number(u64::from(lts.states())),
            Piece::Bytes(b" states "),
            Piece::Number(lts.transitions() as u64),
            Piece::Bytes(b" transitions initial "),
            Piece::Number(u64::from(lts.initial())),
            Piece::Bytes(b"\n"),
        ],
    )
}

/// Writes the formula's canonical text.
pub fn write_formula_line<W: Sink>(formula: &Closed, out: &mut W) -> Result<(), WriteFault>
    ensures { Wrote (W.taken out.old) (W.taken out.new) result
        (formula_line (closed_formula formula.now)) }
{
    put(out, b"formula ")?;
    print(formula, out)?;
    put(out, b"\n")
}

fn write_yes_line<W: Sink>(lts: &Lts, marks: &[bool], out: &mut W) -> Result<(), WriteFault>
    ensures { Wrote (W.taken out.old) (W.taken out.new) result
        (yes_line (count_by (λ mark. mark) marks.now) lts.now.system.states) }
{
    put_pieces(
        out,
        &[
            Piece::Bytes(b"yes "),
            Piece::Number(marked(marks) as u64),
            Piece::Bytes(b" of "),
            Piece::Number(u64::from(lts.states())),
            Piece::Bytes(b"\n"),
        ],
    )
}

/// Writes whether the initial state is marked.
pub fn write_initial_line<W: Sink>(lts: &Lts, marks: &[bool], out: &mut W) -> Result<(), WriteFault>
    requires { length marks.now ≡ lts.now.system.states }
    ensures { Wrote (W.taken out.old) (W.taken out.new) result
        (initial_line (slice_index_or marks.now lts.now.system.initial false)) }
{
    let mark = marks[lts.initial() as usize];
    put_pieces(
        out,
        &[Piece::Bytes(b"initial"), Piece::Bytes(answer_line(mark))],
    )
}

fn write_state_lines<W: Sink>(marks: &[bool], out: &mut W) -> Result<(), WriteFault>
    ensures { Wrote (W.taken out.old) (W.taken out.new) result (state_lines 0 marks.now) }
{
    for (state, mark) in marks.iter().enumerate() {
        write_state_line(state, *mark, out)?;
    }
    Ok(())
}

fn write_state_line<W: Sink>(state: usize, mark: bool, out: &mut W) -> Result<(), WriteFault>
    ensures { Wrote (W.taken out.old) (W.taken out.new) result (decimal state ++ mark_end mark) }
{
    put_pieces(
        out,
        &[Piece::Number(state as u64), Piece::Bytes(answer_line(mark))],
    )
}

/// The numbers of the states with this mark: all, or so many.
fn write_numbers<W: Sink>(
    marks: &[bool],
    wanted: bool,
    most: Option<u32>,
    out: &mut W,
) -> Result<(), WriteFault>
    ensures { Wrote (W.taken out.old) (W.taken out.new) result
        (number_lines (at_most most (numbers_with wanted 0 marks.now))) }
{
    match most {
        Some(most) => write_first_numbers(marks, wanted, most as usize, out),
        None => write_first_numbers(marks, wanted, marks.len(), out),
    }
}

/// The first so many numbers of the states with this mark.
fn write_first_numbers<W: Sink>(
    marks: &[bool],
    wanted: bool,
    most: usize,
    out: &mut W,
) -> Result<(), WriteFault>
    ensures { Wrote (W.taken out.old) (W.taken out.new) result
        (number_lines (take most (numbers_with wanted 0 marks.now))) }
{
    let mut left = most;
    for (state, mark) in marks.iter().enumerate() {
        if left == 0 || !is_mark(wanted, *mark) {
            continue;
        }
        write_number_line(state, out)?;
        left -= 1;
    }
    Ok(())
}

fn write_number_line<W: Sink>(number: usize, out: &mut W) -> Result<(), WriteFault>
    ensures { Wrote (W.taken out.old) (W.taken out.new) result (decimal number ++ line_end) }
{
    put_pieces(out, &[Piece::Number(number as u64), Piece::Bytes(b"\n")])
}

/// Whether a mark is the one that is looked for.
fn is_mark(wanted: bool, mark: bool) -> bool
    ensures { result ≡ is_mark wanted mark }
{
    mark == wanted
}

/// How many are marked.
pub fn marked(marks: &[bool]) -> usize
    ensures { result ≡ count_by (λ mark. mark) marks.now }
{
    marks.iter().filter(|mark| **mark).count()
}

/// The end of a line that tells whether a mark stands.
fn answer_line(mark: bool) -> &'static [u8]
    ensures { result.now ≡ mark_end mark }
{
    if mark { b" yes\n" } else { b" no\n" }
}
