// Questions about all states that can be reached, whose answer is told in one line.

ghost use Rattle.std.specs.Prelude.{◌≡◌, ◌<◌, ◌↔◌, ◌++◌, ℕ, false, IfOk, IsTrue, MatchOption, codes, decimal, length, slice_index_or};
ghost use Rattle.text.specs.Pieces.{line_end};
ghost use Rattle.text.specs.Wrote.{Wrote};
ghost use Rattle.calculus.specs.Closed.{closed_formula};
ghost use Rattle.calculus.specs.Normal.{normal_nodes};
ghost use Rattle.witness.specs.Walk.{CountsReached, is_marked};
ghost use Rattle.engines.specs.Everywhere.{HaveMark, IsToldIn, answer_front as answer_front_of, answer_text, asks_of_states as asks_of_states_in};

use calculus::closed::Closed;
use calculus::form::Normal;
use lts::{Lts, Memory, Piece, WriteFault, put_pieces};
use requests::error::MuError;
use requests::report::write_formula_line;
use requests::texts::Texts;
use std::alloc::Global;
use text::sink::Sink;
use why::everywhere::{asked_part, is_greatest};
use witness::walk::{count_marked, reached_states};

/// How many states can be reached, where the formula asks of all of them, or whether there is one, and each has the answer of the initial state.
pub(crate) fn alike_states(
    alloc: Global,
    system: &Lts,
    form: &Normal,
    marks: &[bool],
) -> Result<Option<usize>, Memory>
    requires { length marks.now ≡ system.now.system.states }
    ensures { let l = system.now.system in let nodes = normal_nodes form.now in
        IfOk result (λ found. MatchOption found (HaveMark l nodes marks.now → ⊥) (λ count. HaveMark l nodes marks.now × CountsReached l l.initial count)) }
{
    let answer = marks[system.initial() as usize];
    if !asks_of_states(form, answer) {
        return Ok(None);
    }
    let reached = reached_states(alloc, system, system.initial())?;
    if !have_mark(&reached, marks, answer) {
        return Ok(None);
    }
    Ok(Some(count_marked(&reached)))
}

/// Whether all these states have the mark.
fn have_mark(states: &[bool], marks: &[bool], mark: bool) -> bool
    requires { length marks.now ≡ length states.now }
    ensures { IsTrue result ↔ ((s : ℕ) → s < length states.now → IsTrue (is_marked states.now s) → is_marked marks.now s ≡ mark) }
{
    for s in 0..states.len() {
        if states[s] && marks[s] != mark {
            return false;
        }
    }
    true
}

/// Whether the formula asks of all reachable states, where the answer is yes, or whether there is one, where it is no.
fn asks_of_states(form: &Normal, answer: bool) -> bool
    ensures { result ≡ asks_of_states_in (normal_nodes form.now) answer }
{
    let is_greatest = is_greatest(form, 0);
    let may_ask = if answer { is_greatest } else { !is_greatest };
    may_ask && asked_part(form, 0).is_some()
}

/// Writes the formula, and that the initial state's answer is that of all states that can be reached, of which there are so many; and gives that answer.
pub(crate) fn tell_answer<W: Sink>(
    texts: &Texts,
    marks: &[bool],
    count: usize,
    out: &mut W,
) -> Result<bool, MuError>
    requires { length marks.now ≡ texts.now.system.system.states }
    ensures inside { texts.now.system.system.initial < texts.now.system.system.states }
    ensures told { let answer = is_marked marks.now texts.now.system.system.initial in
        IsToldIn (W.taken out.old) (W.taken out.new) (answer_text (closed_formula texts.now.formula) answer count) answer result }
{
    let answer = marks[texts.system.initial() as usize];
    match put_answer(&texts.formula, answer, count, out) {
        Ok(()) => Ok(answer),
        Err(fault) => Err(MuError::Write(fault)),
    }
}

fn put_answer<W: Sink>(
    formula: &Closed,
    answer: bool,
    count: usize,
    out: &mut W,
) -> Result<(), WriteFault>
    ensures { Wrote (W.taken out.old) (W.taken out.new) result (answer_text (closed_formula formula.now) answer count) }
{
    write_formula_line(formula, out)?;
    put_pieces(
        out,
        &[
            Piece::Bytes(answer_front(answer)),
            Piece::Number(count as u64),
            Piece::Bytes(b" states that can be reached"),
            Piece::Bytes(b"\n"),
        ],
    )
}

fn answer_front(answer: bool) -> &'static [u8]
    ensures { result.now ≡ answer_front_of answer }
{
    if answer {
        b"initial yes: holds in all "
    } else {
        b"initial no: holds in none of the "
    }
}
