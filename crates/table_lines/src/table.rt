// A table: the answers of one system to many formulas, a line for each.

ghost use Rattle.std.specs.Prelude.{◌≡◌, ℕ, List, Some, Ok, Err, false, IfErr, MatchResult, if◌then◌else◌};
ghost use Rattle.calculus.specs.Closed.{closed_formula};
ghost use Rattle.text.specs.Cause.{HasCause};
ghost use Rattle.text.specs.Wrote.{Wrote};
ghost use Rattle.requests.specs.declared.error.MuError.TheVariants as error;
ghost use Rattle.requests.specs.Check.{AreMarks, IsBeyond};
ghost use Rattle.requests.specs.Texts.{IsFormulaOf};
ghost use Rattle.table_lines.specs.Table.{IsFound, IsRefused, TellsLine, answer_line, code_of, fault_code, is_as_expected, refusal_line, remark, way_by};

use crate::expectation::expectation;
use calculus::closed::Closed;
use formula::error::{FormulaError, FormulaFault};
use game::error::BuildError;
use game::observer::{Observer, Stage};
use lts::system::Lts;
use lts::{Piece, WriteFault, put_pieces};
use normal::error::NormalError;
use requests::error::MuError;
use requests::report::marked;
use requests::request::{Options, Table};
use requests::status::error_status;
use requests::texts::{look_where, parse_front, read_front};
use requests::watch::Watcher;
use std::alloc::Global;
use tables::error::TableError;
use text::sink::Sink;
use text::source::Source;
use verdicts::marks::{game_marks, plain_marks};
use workers::runtime::Runtime;

/// What is found of a formula at the states of a system, and what its text says is expected.
#[derive(Clone, Copy)]
pub struct LineAnswer {
    pub expected: Option<bool>,
    /// Whether the initial state satisfies the formula.
    pub answer: bool,
    /// How many states do.
    pub marked: usize,
}

/// Writes the line of a formula's text, as a table is asked for: the initial state's answer and how many states satisfy the formula, or why there
/// is no answer; and the name. It answers the status that the line comes to: 0 where the answer is as expected, which is yes where the
/// text says nothing, else 1, and of a refusal that of `status`. Where the table is strict, a formula is refused of which a word is on no
/// transition. A watcher is told that the formula is read, and what is being built, searched and lifted.
///
/// # Errors
/// W1.
pub fn table_line<S: Source + Drop, W: Sink, U: Watcher, H: Runtime>(
    rt: &H,
    alloc: Global,
    system: &Lts,
    request: &Table<'_>,
    name: &str,
    formula: S,
    out: &mut W,
    watcher: &U,
) -> Result<u8, WriteFault>
    ensures { TellsLine request.now.strict (way_by request.now.options request.now.plain) system.now.system S.can_fail name.now
        (S.remaining formula) (W.taken out.old) (W.taken out.new) result }
{
    match find(rt, alloc, system, request, formula, watcher) {
        Ok(found) => told(
            put_answer(name, &found, system.states(), out),
            answer_status(&found),
        ),
        Err(error) => told(put_refusal(name, &error, out), error_status(&error)),
    }
}

/// The status, where the line was written.
fn told(wrote: Result<(), WriteFault>, status: u8) -> Result<u8, WriteFault>
    ensures { MatchResult wrote (λ _. result ≡ Ok status) (λ fault. result ≡ Err fault) }
{
    wrote?;
    Ok(status)
}

/// What is found of the formula that the reader's text spells.
fn find<S: Source + Drop, U: Watcher, H: Runtime>(
    rt: &H,
    alloc: Global,
    system: &Lts,
    request: &Table<'_>,
    formula: S,
    watcher: &U,
) -> Result<LineAnswer, MuError>
    ensures finds { let strict = request.now.strict in let way = way_by request.now.options request.now.plain in let l = system.now.system in
        (text : List ℕ) → S.remaining formula ≡ Some text → MatchResult result (IsFound strict way l text) (IsRefused strict way l text) }
    ensures cause { IfErr result (HasCause S.can_fail error.Read) }
{
    let front = read_front(alloc, formula)?;
    let formula = parse_front(alloc, &front)?;
    find_known(rt, alloc, system, request, &front, &formula, watcher)
}

/// What is found of a formula with this text, of which each word has to be on a transition where the table is strict.
fn find_known<U: Watcher, H: Runtime>(
    rt: &H,
    alloc: Global,
    system: &Lts,
    request: &Table<'_>,
    text: &[u8],
    formula: &Closed,
    watcher: &U,
) -> Result<LineAnswer, MuError>
    ensures finds { let strict = request.now.strict in let way = way_by request.now.options request.now.plain in let l = system.now.system in
        IsFormulaOf text.now (closed_formula formula.now) → MatchResult result (IsFound strict way l text.now) (IsRefused strict way l text.now) }
    ensures cause { IfErr result (HasCause false error.Read) }
{
    watcher.has_read(system, formula);
    look_where(alloc, system, text, request.strict)?;
    let options = &request.options;
    let marks = marks_by(rt, alloc, system, formula, options, request.plain, watcher)?;
    Ok(LineAnswer {
        expected: expectation(text),
        answer: marks[system.initial() as usize],
        marked: marked(&marks),
    })
}

/// A mark for each state, true where it satisfies the formula: by sets of states where it is plain, else by the game, as the
/// options ask for.
///
/// # Errors
/// Those of `plain_marks`, or of `game_marks`.
fn marks_by<O: Observer + Sync, H: Runtime>(
    rt: &H,
    alloc: Global,
    system: &Lts,
    formula: &Closed,
    options: &Options,
    plain: bool,
    observer: &O,
) -> Result<Vec<bool>, MuError>
    ensures { let l = system.now.system in let f = closed_formula formula.now in let way = way_by options.now plain in
        MatchResult result (λ marks. AreMarks way l f marks.items) (IsBeyond way l f) }
{
    if plain {
        observer.sees(Stage::Evaluating {
            states: system.states(),
        });
        plain_marks(alloc, system, formula)
    } else {
        game_marks(rt, alloc, system, formula, options, observer)
    }
}

/// 0 where the answer is as expected, which is yes where nothing is said, and 1 where it isn't.
fn answer_status(found: &LineAnswer) -> u8
    ensures { result ≡ (if is_as_expected found.now.expected found.now.answer then 0 else 1) }
{
    if is_as_expected(found) { 0 } else { 1 }
}

fn is_as_expected(found: &LineAnswer) -> bool
    ensures { result ≡ is_as_expected found.now.expected found.now.answer }
{
    match found.expected {
        Some(false) => !found.answer,
        Some(true) | None => found.answer,
    }
}

/// Writes the line of an answer.
fn put_answer<W: Sink>(
    name: &str,
    found: &LineAnswer,
    states: u32,
    out: &mut W,
) -> Result<(), WriteFault>
    ensures { Wrote (W.taken out.old) (W.taken out.new) result
        (answer_line name.now found.now.expected found.now.answer found.now.marked states) }
{
    let answer: &[u8] = if found.answer { b"yes " } else { b"no " };
    put_pieces(
        out,
        &[
            Piece::Bytes(answer),
            Piece::Number(found.marked as u64),
            Piece::Bytes(b" of "),
            Piece::Number(u64::from(states)),
            Piece::Bytes(b" "),
            Piece::Bytes(name.as_bytes()),
            Piece::Bytes(remark(found)),
            Piece::Bytes(b"\n"),
        ],
    )
}

/// What is said of an answer where one is expected.
fn remark(found: &LineAnswer) -> &'static [u8]
    ensures { result.now ≡ remark found.now.expected found.now.answer }
{
    match found.expected {
        None => b"",
        Some(_) if is_as_expected(found) => b" as expected",
        Some(_) => b" UNEXPECTED",
    }
}

/// Writes the line of a refusal, with its place in the formula's text, if it has one.
fn put_refusal<W: Sink>(name: &str, error: &MuError, out: &mut W) -> Result<(), WriteFault>
    ensures { Wrote (W.taken out.old) (W.taken out.new) result (refusal_line name.now error.now) }
{
    let code = Piece::Bytes(code(error));
    let name = Piece::Bytes(name.as_bytes());
    let (blank, end) = (Piece::Bytes(b" "), Piece::Bytes(b"\n"));
    match error {
        MuError::Formula(FormulaError::Fault { fault: _, offset }) | MuError::NoLabel { offset } =>
            {
                let place = Piece::Number(*offset as u64);
                put_pieces(
                    out,
                    &[code, Piece::Bytes(b" at offset "), place, blank, name, end],
                )
            }
        _ => put_pieces(out, &[code, blank, name, end]),
    }
}

/// The code of a refusal, as the program shows it.
fn code(error: &MuError) -> &'static [u8]
    ensures { result.now ≡ code_of error.now }
{
    match error {
        MuError::Read => b"U3",
        MuError::Memory => b"U4",
        MuError::Formula(FormulaError::Fault { fault, offset: _ }) => fault_code(*fault),
        MuError::Formula(FormulaError::Memory) => b"F9",
        MuError::Normal(NormalError::TooManyNodes) => b"N1",
        MuError::Normal(NormalError::PriorityTooGreat) => b"N2",
        MuError::Normal(NormalError::Memory) => b"N3",
        MuError::Build(BuildError::TooManyVertices) => b"B1",
        MuError::Build(BuildError::Memory) => b"B2",
        MuError::Table(TableError::TooManyRanks) => b"T1",
        MuError::Table(TableError::Memory) => b"T2",
        MuError::Table(TableError::NoSeat) => b"T3",
        MuError::Solve(_) => b"V1",
        MuError::NoLabel { .. } => b"L1",
        // No formula is refused so.
        _ => b"",
    }
}

fn fault_code(fault: FormulaFault) -> &'static [u8]
    ensures { result.now ≡ fault_code fault }
{
    match fault {
        FormulaFault::NoToken => b"F1",
        FormulaFault::Unexpected => b"F2",
        FormulaFault::Unfinished => b"F3",
        FormulaFault::ReservedWord => b"F4",
        FormulaFault::Unbound => b"F5",
        FormulaFault::OddNegations => b"F6",
        FormulaFault::NotAnAction => b"F7",
        FormulaFault::TooLarge => b"F8",
    }
}
