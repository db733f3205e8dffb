// Finds the operands inside modalities that are no action formulas. Places are numbers of tokens.

ghost use Rattle.std.specs.Prelude.{◌+◌, ◌<◌, ◌^◌, length};
ghost use Rattle.grammar.specs.Syntax.{tokens, reg_tokens};
ghost use Rattle.formula.specs.Fault.{operand_fault, reg_faults, operand_faults};
ghost use Rattle.grammar.specs.Written.{reg_syntax, state_syntax};
ghost use Rattle.formula.specs.Checked.{IsChecked};

use grammar::written::{WrittenRegular, WrittenState};

/// The place after an operand that begins at this place, or that of the first operand that is no action formula.
#[cycle(operands)]
fn action_operand(operand: &WrittenRegular, at: usize) -> Result<usize, usize>
    requires { at + length (reg_tokens (reg_syntax operand.now)) < 2 ^ 64 }
    ensures { let s = reg_syntax operand.now in IsChecked (operand_fault s at (reg_faults at s)) at (length (reg_tokens s)) result }
{
    if !operand.counts_as_action() {
        return Err(at);
    }
    regular_operands(operand, at)
}

/// The place after a regular formula that begins at this place, or that of its first operand that is no action formula.
#[cycle(operands)]
fn regular_operands(regular: &WrittenRegular, at: usize) -> Result<usize, usize>
    requires { at + length (reg_tokens (reg_syntax regular.now)) < 2 ^ 64 }
    ensures { let s = reg_syntax regular.now in IsChecked (reg_faults at s) at (length (reg_tokens s)) result }
{
    match regular {
        WrittenRegular::True
        | WrittenRegular::False
        | WrittenRegular::Tau
        | WrittenRegular::Quoted(_) => Ok(at + 1),
        WrittenRegular::Names(_, others) => Ok(at + 1 + 2 * others.len()),
        WrittenRegular::Parens(inner) => Ok(regular_operands(inner, at + 1)? + 1),
        WrittenRegular::Not(operand) => action_operand(operand, at + 1),
        WrittenRegular::Repeated(_, inner) => Ok(regular_operands(inner, at)? + 1),
        WrittenRegular::Joined(sign, left, right) => {
            if sign.joins_actions() {
                let place = action_operand(left, at)?;
                action_operand(right, place + 1)
            } else {
                let place = regular_operands(left, at)?;
                regular_operands(right, place + 1)
            }
        }
    }
}

/// The place after a state formula that begins at this place, or that of its first operand that is no action formula.
pub fn state_operands(state: &WrittenState, at: usize) -> Result<usize, usize>
    requires { at + length (tokens (state_syntax state.now)) < 2 ^ 64 }
    ensures { let s = state_syntax state.now in IsChecked (operand_faults at s) at (length (tokens s)) result }
{
    match state {
        WrittenState::True | WrittenState::False | WrittenState::Var(_) => Ok(at + 1),
        WrittenState::Group(inner) => Ok(state_operands(inner, at + 1)? + 1),
        WrittenState::Not(inner) => state_operands(inner, at + 1),
        WrittenState::Joined(_, left, right) => {
            let place = state_operands(left, at)?;
            state_operands(right, place + 1)
        }
        WrittenState::Modal(_, regular, inner) => {
            let place = regular_operands(regular, at + 1)?;
            state_operands(inner, place + 1)
        }
        WrittenState::Bind(_, _, inner) => state_operands(inner, at + 3),
    }
}
