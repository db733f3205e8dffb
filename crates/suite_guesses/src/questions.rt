// Systems and formulas at random.

ghost use Rattle.std.specs.Prelude.{◌<◌, ◌≤◌};

use calculus::closed::Closed;
use calculus::form::Normal;
use lts::Lts;
use normal::make::normal;
use samples::dice::Dice;
use samples::host::Host;
use samples::texts::{parsed_formula, system_read};
use std::process::Abort;

// The labels of the systems: formulas name the first two.
static LABELS: [&str; 3] = ["a", "b", "c"];

// Variables by the depth of their binders. Leaves have those of the first four.
static NAMES: [&str; 6] = ["W", "X", "Y", "Z", "S", "T"];

// Closed operands, which are solved before what is around them.
static CLOSED: [&str; 6] = [
    "true",
    "false",
    "(mu V. ([a]V && <true>true))",
    "(nu V. (<b>V || [c]V))",
    "(nu V. mu U. (<a>V || <true>U))",
    "(mu V. nu U. ([a]V && [!a]U))",
];

// Actions, each with a parenthesis that it opens.
static HEADS: [&str; 5] = ["[a](", "<true>(", "[!a](", "<b>(", "[a|b]("];

// A system with so many states: some have no steps, some several to the same state, some one to themselves.
fn roll_system(rt: &impl Host, dice: &mut Dice, states: u32) -> Lts
    requires { 0 < states }
{
    let mut rows = String::new(rt.alloc());
    let mut count = 0_u32;
    for source in 0..states {
        for _ in 0..dice.roll(4) {
            let (label, target) = (LABELS[dice.roll(3) as usize], dice.roll(states));
            write!(rows, "({source},\"{label}\",{target})\n").expect(rt, "memory");
            count = count.saturating_add(1);
        }
    }
    let text = format!(in rt.alloc(); "des (0,{count},{states})\n{rows}").expect(rt, "memory");
    system_read(rt.alloc(), &text).expect(rt, "a system")
}

// A text gets this at its end.
fn push_text(rt: &impl Abort, text: &mut String, part: &str) {
    text.push_str(part).expect(rt, "memory");
}

// A variable in parentheses, behind an action unless it is bare.
fn push_variable(rt: &impl Abort, dice: &mut Dice, text: &mut String, is_bare: bool, variable: u32)
    requires { variable < 6 }
{
    let head = if is_bare {
        "("
    } else {
        HEADS[dice.roll(5) as usize]
    };
    let name = NAMES[variable as usize];
    write!(text, "{head}{name})").expect(rt, "memory");
}

// A variable in scope, where there is one, or else something closed.
fn roll_leaf(rt: &impl Abort, dice: &mut Dice, text: &mut String, binders: u32) {
    let (is_closed, variable) = (dice.roll(4) == 0, dice.roll(4));
    if is_closed || variable >= binders {
        push_text(rt, text, CLOSED[dice.roll(6) as usize]);
    } else {
        let is_bare = dice.roll(2) != 0;
        push_variable(rt, dice, text, is_bare, variable);
    }
}

// A binder at this depth, with the parenthesis that it opens.
fn push_binder(rt: &impl Abort, text: &mut String, is_least: bool, binders: u32)
    requires { binders < 6 }
{
    let (binder, name) = (if is_least { "mu" } else { "nu" }, NAMES[binders as usize]);
    write!(text, "{binder} {name}. (").expect(rt, "memory");
}

// What stands between an operand in parentheses and the next.
fn roll_junction(rt: &impl Abort, dice: &mut Dice, text: &mut String) {
    let is_and = dice.roll(2) == 0;
    push_text(rt, text, if is_and { ") && (" } else { ") || (" });
}

// One more operand, and what stands behind it.
fn roll_operand(rt: &impl Abort, dice: &mut Dice, text: &mut String, binders: u32) {
    push_text(rt, text, "((");
    roll_leaf(rt, dice, text, binders);
    roll_junction(rt, dice, text);
}

// One more binder, action or junction. The answer is how many parentheses and binders it opens.
fn roll_head(rt: &impl Abort, dice: &mut Dice, text: &mut String, binders: u32) -> (u32, u32) {
    match dice.roll(6) {
        0 | 1 if binders < 4 => {
            push_binder(rt, text, dice.roll(2) == 0, binders);
            (1, 1)
        }
        2 | 3 => {
            push_text(rt, text, HEADS[dice.roll(5) as usize]);
            (1, 0)
        }
        _ => {
            roll_operand(rt, dice, text, binders);
            (2, 0)
        }
    }
}

// Any closed formula, but for its last parentheses. The answer is how many these are.
fn roll_any(rt: &impl Abort, dice: &mut Dice, text: &mut String) -> u32 {
    let (mut parentheses, mut binders) = (0_u32, 0_u32);
    for _ in 0..4 + dice.roll(8) {
        let more = roll_head(rt, dice, text, binders);
        parentheses = parentheses.saturating_add(more.0);
        binders = binders.saturating_add(more.1);
    }
    roll_leaf(rt, dice, text, binders);
    parentheses
}

// So many binders that alternate, around the variables of all of them, mostly behind actions, and two more operands. The answer is how many parentheses
// are open.
fn roll_nested(rt: &impl Abort, dice: &mut Dice, text: &mut String, binders: u32) -> u32
    requires { binders ≤ 6 }
{
    let first = dice.roll(2);
    for binder in 0..binders {
        push_binder(rt, text, (first + binder) % 2 == 0, binder);
    }
    for binder in 0..binders {
        push_text(rt, text, "((");
        let is_bare = dice.roll(4) == 0;
        push_variable(rt, dice, text, is_bare, binder);
        roll_junction(rt, dice, text);
    }
    roll_operand(rt, dice, text, binders);
    roll_operand(rt, dice, text, binders);
    roll_leaf(rt, dice, text, binders);
    3 * binders + 4
}

// A formula: so many binders that alternate or one more, or any formula where none is asked for.
fn roll_formula(rt: &impl Host, dice: &mut Dice, least: u32) -> Closed
    requires { least < 6 }
{
    let mut text = String::new(rt.alloc());
    let parentheses = if least == 0 {
        roll_any(rt, dice, &mut text)
    } else {
        let binders = least + dice.roll(2);
        roll_nested(rt, dice, &mut text, binders)
    };
    for _ in 0..parentheses {
        push_text(rt, &mut text, ")");
    }
    parsed_formula(rt.alloc(), &text).expect(rt, "a formula")
}

/// A system, and a formula with its normal form.
#[derive(Drop)]
pub(crate) struct Question {
    pub(crate) lts: Lts,
    pub(crate) formula: Closed,
    pub(crate) form: Normal,
}

/// A system of up to twelve states, and a formula: one in which so many binders alternate or one more, or any formula where none is asked for.
pub(crate) fn roll_question(rt: &impl Host, dice: &mut Dice, least: u32) -> Question
    requires { least < 6 }
{
    let states = 1 + dice.roll(12);
    let lts = roll_system(rt, dice, states);
    let formula = roll_formula(rt, dice, least);
    let form = normal(rt.alloc(), &formula).expect(rt, "a normal form");
    Question { lts, formula, form }
}
