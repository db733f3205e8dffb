// The canonical text of a tree.

ghost use Rattle.std.specs.Prelude.{◌++◌, codes};
ghost use Rattle.text.specs.Wrote.{Wrote};
ghost use Rattle.systems.specs.Label.{texts};
ghost use Rattle.calculus.specs.View.{action_of, regular_of, formula_of};
ghost use Rattle.calculus.specs.Canon.{action_text, regular_text, canon, names_text, barred};

use crate::tree::{Act, Reg, State};
use text::sink::Sink;
use text::{Piece, WriteFault, put, put_pieces};

/// Writes the formula's canonical text, without an end of line and without memory. Each operator between two operands and
/// each binder has parentheses, the outermost too: `(nu X. (mu Y. (<a>X || <b>Y)))`.
///
/// # Errors
/// After a fault the writer holds a beginning of the text.
#[cycle(state_text)]
pub fn put_state<W: Sink>(formula: &State, writer: &mut W) -> Result<(), WriteFault>
    ensures { Wrote (W.taken writer.old) (W.taken writer.new) result
        (canon (formula_of formula.now)) }
{
    match formula {
        State::True => put(writer, b"true"),
        State::False => put(writer, b"false"),
        State::Var(name) => put(writer, name),
        State::Not(operand) => put_signed(b"!", operand, writer),
        State::And(left, right) => put_pair(left, b" && ", right, writer),
        State::Or(left, right) => put_pair(left, b" || ", right, writer),
        State::Implies(left, right) => put_pair(left, b" => ", right, writer),
        State::Dia(regular, operand) => put_modal(b"<", regular, b">", operand, writer),
        State::Box(regular, operand) => put_modal(b"[", regular, b"]", operand, writer),
        State::Mu(name, body) => put_binder(b"(mu ", name, body, writer),
        State::Nu(name, body) => put_binder(b"(nu ", name, body, writer),
    }
}

/// Writes a sign and the formula after it.
#[cycle(state_text)]
fn put_signed<W: Sink>(sign: &[u8], formula: &State, writer: &mut W) -> Result<(), WriteFault>
    ensures { Wrote (W.taken writer.old) (W.taken writer.new) result
        (sign.now ++ canon (formula_of formula.now)) }
{
    put(writer, sign)?;
    put_state(formula, writer)
}

#[cycle(state_text)]
fn put_pair<W: Sink>(
    left: &State,
    sign: &[u8],
    right: &State,
    writer: &mut W,
) -> Result<(), WriteFault>
    ensures { Wrote (W.taken writer.old) (W.taken writer.new) result
        (codes "(" ++ (canon (formula_of left.now) ++ ((sign.now ++ canon (formula_of right.now)) ++ codes ")"))) }
{
    put_signed(b"(", left, writer)?;
    put_signed(sign, right, writer)?;
    put(writer, b")")
}

#[cycle(state_text)]
fn put_binder<W: Sink>(
    opening: &[u8],
    name: &[u8],
    body: &State,
    writer: &mut W,
) -> Result<(), WriteFault>
    ensures { Wrote (W.taken writer.old) (W.taken writer.new) result
        ((opening.now ++ name.now) ++ ((codes ". " ++ canon (formula_of body.now)) ++ codes ")")) }
{
    put_pieces(writer, &[Piece::Bytes(opening), Piece::Bytes(name)])?;
    put_signed(b". ", body, writer)?;
    put(writer, b")")
}

#[cycle(state_text)]
fn put_modal<W: Sink>(
    opening: &[u8],
    regular: &Reg,
    closing: &[u8],
    operand: &State,
    writer: &mut W,
) -> Result<(), WriteFault>
    ensures { Wrote (W.taken writer.old) (W.taken writer.new) result
        (opening.now ++ (regular_text (regular_of regular.now) ++ (closing.now ++ canon (formula_of operand.now)))) }
{
    put(writer, opening)?;
    put_regular(regular, writer)?;
    put_signed(closing, operand, writer)
}

#[cycle(regular_text)]
fn put_regular<W: Sink>(regular: &Reg, writer: &mut W) -> Result<(), WriteFault>
    ensures { Wrote (W.taken writer.old) (W.taken writer.new) result
        (regular_text (regular_of regular.now)) }
{
    match regular {
        Reg::Act(action) => put_action(action, writer),
        Reg::Seq(first, second) => put_regular_pair(first, b" . ", second, writer),
        Reg::Choice(left, right) => put_regular_pair(left, b" + ", right, writer),
        Reg::Star(operand) => put_repeated(operand, b"*", writer),
        Reg::Plus(operand) => put_repeated(operand, b"+", writer),
    }
}

/// Writes a regular formula and the sign after it.
#[cycle(regular_text)]
fn put_repeated<W: Sink>(regular: &Reg, sign: &[u8], writer: &mut W) -> Result<(), WriteFault>
    ensures { Wrote (W.taken writer.old) (W.taken writer.new) result
        (regular_text (regular_of regular.now) ++ sign.now) }
{
    put_regular(regular, writer)?;
    put(writer, sign)
}

/// Writes a sign and the regular formula after it.
#[cycle(regular_text)]
fn put_signed_regular<W: Sink>(sign: &[u8], regular: &Reg, writer: &mut W) -> Result<(), WriteFault>
    ensures { Wrote (W.taken writer.old) (W.taken writer.new) result
        (sign.now ++ regular_text (regular_of regular.now)) }
{
    put(writer, sign)?;
    put_regular(regular, writer)
}

#[cycle(regular_text)]
fn put_regular_pair<W: Sink>(
    left: &Reg,
    sign: &[u8],
    right: &Reg,
    writer: &mut W,
) -> Result<(), WriteFault>
    ensures { Wrote (W.taken writer.old) (W.taken writer.new) result
        (codes "(" ++ (regular_text (regular_of left.now) ++ ((sign.now ++ regular_text (regular_of right.now)) ++ codes ")"))) }
{
    put_signed_regular(b"(", left, writer)?;
    put_signed_regular(sign, right, writer)?;
    put(writer, b")")
}

/// Writes the action formula's canonical text, as it stands in the text of a formula.
///
/// # Errors
/// After a fault the writer holds a beginning of the text.
#[cycle(action_text)]
pub fn put_action<W: Sink>(action: &Act, writer: &mut W) -> Result<(), WriteFault>
    ensures { Wrote (W.taken writer.old) (W.taken writer.new) result
        (action_text (action_of action.now)) }
{
    match action {
        Act::True => put(writer, b"true"),
        Act::False => put(writer, b"false"),
        Act::Names(names) => put_names(names, writer),
        Act::Quoted(bytes) => put_quoted(bytes, writer),
        Act::Not(operand) => put_signed_action(b"!", operand, writer),
        Act::And(left, right) => put_action_pair(left, b" && ", right, writer),
        Act::Or(left, right) => put_action_pair(left, b" || ", right, writer),
        Act::Implies(left, right) => put_action_pair(left, b" => ", right, writer),
    }
}

/// Writes a sign and the action formula after it.
#[cycle(action_text)]
fn put_signed_action<W: Sink>(sign: &[u8], action: &Act, writer: &mut W) -> Result<(), WriteFault>
    ensures { Wrote (W.taken writer.old) (W.taken writer.new) result
        (sign.now ++ action_text (action_of action.now)) }
{
    put(writer, sign)?;
    put_action(action, writer)
}

#[cycle(action_text)]
fn put_action_pair<W: Sink>(
    left: &Act,
    sign: &[u8],
    right: &Act,
    writer: &mut W,
) -> Result<(), WriteFault>
    ensures { Wrote (W.taken writer.old) (W.taken writer.new) result
        (codes "(" ++ (action_text (action_of left.now) ++ ((sign.now ++ action_text (action_of right.now)) ++ codes ")"))) }
{
    put_signed_action(b"(", left, writer)?;
    put_signed_action(sign, right, writer)?;
    put(writer, b")")
}

fn put_names<W: Sink>(names: &[Vec<u8>], writer: &mut W) -> Result<(), WriteFault>
    ensures { Wrote (W.taken writer.old) (W.taken writer.new) result (names_text (texts names.now)) }
{
    let Some((first, others)) = names.split_first() else {
        return put(writer, b"tau");
    };
    put(writer, first)?;
    put_barred(others, writer)
}

/// Writes each name after a bar.
fn put_barred<W: Sink>(names: &[Vec<u8>], writer: &mut W) -> Result<(), WriteFault>
    ensures { Wrote (W.taken writer.old) (W.taken writer.new) result (barred (texts names.now)) }
{
    for name in names {
        put_pieces(writer, &[Piece::Bytes(b"|"), Piece::Bytes(name)])?;
    }
    Ok(())
}

fn put_quoted<W: Sink>(bytes: &[u8], writer: &mut W) -> Result<(), WriteFault>
    ensures { Wrote (W.taken writer.old) (W.taken writer.new) result
        (codes "\"" ++ (bytes.now ++ codes "\"")) }
{
    put_pieces(
        writer,
        &[
            Piece::Bytes(b"\""),
            Piece::Bytes(bytes),
            Piece::Bytes(b"\""),
        ],
    )
}
