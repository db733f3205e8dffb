// Reads state formulas from tokens.

ghost use Rattle.std.specs.Prelude.{◌≡◌, ◌+◌, ◌^◌, ◌<◌, ◌≤◌, ◌∷◌, MatchOption, MatchResult};
ghost use Rattle.grammar.specs.Token.{Name, Dot, Open, NotSign};
ghost use Rattle.grammar.specs.Written.{token_of, bare_tokens, opening_bracket, closing, binder_token, connective_token, connective_row};
ghost use Rattle.grammar.specs.Read.{state_tokens, IsReadState, IsStateOf, IsConnective, IsOneToken, state_row, IsPrefix, prefix_token};
ghost use Rattle.grammar.specs.Misread.{IsMissing, StateOf, StateFrom};

use crate::misread::Misread;
use crate::regular::{ANY_REGULAR, after_close, name_first, regular};
use crate::room::{Room, boxed};
use crate::token::{Placed, Token};
use crate::written::{Binder, Brackets, Connective, WrittenState};

/// A state formula, how deep its signs nest, and the tokens after it.
#[derive(Drop)]
pub struct ReadState<'a> {
    pub syntax: Box<WrittenState<'a>>,
    pub height: usize,
    pub rest: &'a [Placed<'a>],
}

/// The weakest row of the grammar's table: any state formula.
pub const ANY_STATE: u8 = 3;

/// What stands before a unary formula in a longer one.
#[derive(Clone, Copy)]
enum Prefix {
    Not,
    Modal(Brackets),
    Bind(Binder),
}

fn prefix_of(token: Token<'_>) -> Option<Prefix>
    ensures { IsPrefix (token_of token.entry) result }
{
    match token {
        Token::NotSign => Some(Prefix::Not),
        Token::Less => Some(Prefix::Modal(Brackets::Diamond)),
        Token::OpenBox => Some(Prefix::Modal(Brackets::Box)),
        Token::MuWord => Some(Prefix::Bind(Binder::Mu)),
        Token::NuWord => Some(Prefix::Bind(Binder::Nu)),
        _ => None,
    }
}

fn connective(token: Token<'_>) -> Option<Connective>
    ensures { IsConnective (token_of token.entry) result }
{
    match token {
        Token::AndSign => Some(Connective::And),
        Token::OrSign => Some(Connective::Or),
        Token::ImpliesSign => Some(Connective::Implies),
        _ => None,
    }
}

/// A formula that is one token.
fn word<'a>(token: Token<'a>) -> Option<WrittenState<'a>>
    ensures { IsOneToken (token_of token.entry) result }
{
    match token {
        Token::TrueWord => Some(WrittenState::True),
        Token::FalseWord => Some(WrittenState::False),
        Token::Name(name) => Some(WrittenState::Var(name)),
        _ => None,
    }
}

/// The tokens after a dot, which has to stand first.
fn after_dot<'a>(rest: &'a [Placed<'a>]) -> Result<&'a [Placed<'a>], Misread>
    ensures { MatchResult result (λ after. bare_tokens rest.now ≡ Dot ∷ bare_tokens after.now) (IsMissing Dot (bare_tokens rest.now)) }
{
    match rest.split_first() {
        Some(
            (
                Placed {
                    token: Token::Dot,
                    ..
                },
                after,
            ),
        ) => Ok(after),
        _ => Err(Misread::unexpected(rest)),
    }
}

/// The tokens after the bracket that closes a modality, which has to stand first.
fn after_bracket<'a>(
    brackets: Brackets,
    rest: &'a [Placed<'a>],
) -> Result<&'a [Placed<'a>], Misread>
    ensures { MatchResult result (λ after. bare_tokens rest.now ≡ closing brackets ∷ bare_tokens after.now) (IsMissing (closing brackets) (bare_tokens rest.now)) }
{
    match (brackets, rest.split_first()) {
        (
            Brackets::Diamond,
            Some(
                (
                    Placed {
                        token: Token::Greater,
                        ..
                    },
                    after,
                ),
            ),
        ) => Ok(after),
        (
            Brackets::Box,
            Some(
                (
                    Placed {
                        token: Token::CloseBox,
                        ..
                    },
                    after,
                ),
            ),
        ) => Ok(after),
        _ => Err(Misread::unexpected(rest)),
    }
}

/// A formula that was read, of this height and before these tokens.
fn built<'a>(
    room: Room,
    syntax: WrittenState<'a>,
    height: usize,
    rest: &'a [Placed<'a>],
) -> Result<ReadState<'a>, Misread>
    ensures { MatchResult result (IsStateOf syntax.entry height rest.now) (λ e. e ≡ Misread.Memory) }
{
    Ok(ReadState {
        syntax: boxed(room.alloc, syntax)?,
        height,
        rest,
    })
}

/// What stands after an opening parenthesis, up to the closing one.
#[cycle(state)]
fn group<'a>(room: Room, tokens: &'a [Placed<'a>]) -> Result<ReadState<'a>, Misread>
    ensures { StateOf 0 room.depth (room.parens + 1) (Open ∷ bare_tokens tokens.now) result }
{
    let inner = state(room, ANY_STATE, tokens)?;
    let rest = after_close(inner.rest)?;
    built(room, WrittenState::Group(inner.syntax), inner.height, rest)
}

/// What stands after a `!`.
#[cycle(state)]
fn negated<'a>(room: Room, tokens: &'a [Placed<'a>]) -> Result<ReadState<'a>, Misread>
    requires { room.depth + 1 < 2 ^ 64 }
    ensures { StateOf 0 (room.depth + 1) room.parens (NotSign ∷ bare_tokens tokens.now) result }
{
    let inner = unary(room, tokens)?;
    built(
        room,
        WrittenState::Not(inner.syntax),
        inner.height + 1,
        inner.rest,
    )
}

/// What stands after the bracket that opens a modality.
#[cycle(state)]
fn modal<'a>(
    room: Room,
    brackets: Brackets,
    tokens: &'a [Placed<'a>],
) -> Result<ReadState<'a>, Misread>
    requires { room.depth + 1 < 2 ^ 64 }
    ensures { StateOf 0 (room.depth + 1) room.parens (opening_bracket brackets ∷ bare_tokens tokens.now) result }
{
    let inside = regular(room, ANY_REGULAR, tokens)?;
    let tokens = after_bracket(brackets, inside.rest)?;
    let inner = unary(room, tokens)?;
    let height = inside.height.max(inner.height) + 1;
    let regular = Box::into_inner(inside.syntax);
    let syntax = WrittenState::Modal(brackets, regular, inner.syntax);
    built(room, syntax, height, inner.rest)
}

/// What stands after the word of a binder.
#[cycle(state)]
fn bound<'a>(room: Room, binder: Binder, tokens: &'a [Placed<'a>]) -> Result<ReadState<'a>, Misread>
    requires { room.depth + 1 < 2 ^ 64 }
    ensures { StateOf 0 (room.depth + 1) room.parens (binder_token binder ∷ bare_tokens tokens.now) result }
{
    let (name, tokens) = name_first(tokens)?;
    let tokens = after_dot(tokens)?;
    let body = state(room, ANY_STATE, tokens)?;
    let syntax = WrittenState::Bind(binder, name, body.syntax);
    built(room, syntax, body.height + 1, body.rest)
}

/// What stands after what is written before a unary formula.
#[cycle(state)]
fn prefixed<'a>(
    room: Room,
    prefix: Prefix,
    tokens: &'a [Placed<'a>],
) -> Result<ReadState<'a>, Misread>
    requires { room.depth + 1 < 2 ^ 64 }
    ensures { StateOf 0 (room.depth + 1) room.parens (prefix_token prefix ∷ bare_tokens tokens.now) result }
{
    match prefix {
        Prefix::Not => negated(room, tokens),
        Prefix::Modal(brackets) => modal(room, brackets, tokens),
        Prefix::Bind(binder) => bound(room, binder, tokens),
    }
}

/// A unary formula.
#[cycle(state)]
fn unary<'a>(room: Room, tokens: &'a [Placed<'a>]) -> Result<ReadState<'a>, Misread>
    ensures { StateOf 0 room.depth room.parens (bare_tokens tokens.now) result }
{
    let Some((first, rest)) = tokens.split_first() else {
        return Err(Misread::unexpected(tokens));
    };
    if let Some(prefix) = prefix_of(first.token) {
        return prefixed(room.below(tokens, 0)?, prefix, rest);
    }
    if let Token::Open = first.token {
        return group(room.inside(tokens)?, rest);
    }
    match word(first.token) {
        Some(syntax) => built(room, syntax, 0, rest),
        None => Err(Misread::unexpected(tokens)),
    }
}

/// The longest formula of this row of the grammar's table at the front of the tokens.
#[cycle(state)]
pub fn state<'a>(room: Room, level: u8, tokens: &'a [Placed<'a>]) -> Result<ReadState<'a>, Misread>
    requires { level ≤ 3 }
    ensures { StateOf level room.depth room.parens (bare_tokens tokens.now) result }
{
    extended(room, level, unary(room, tokens)?)
}

/// The sign that goes on after a formula of this row, and the tokens after it.
fn sign_first<'a>(level: u8, tokens: &'a [Placed<'a>]) -> Option<(Connective, &'a [Placed<'a>])>
    requires { level ≤ 3 }
    ensures { MatchOption result
        (level < state_row (bare_tokens tokens.now))
        (λ (sign, rest). (connective_row sign ≤ level) × (bare_tokens tokens.now ≡ connective_token sign ∷ bare_tokens rest.now)) }
{
    let (first, rest) = tokens.split_first()?;
    let sign = connective(first.token)?;
    if sign.level() <= level {
        Some((sign, rest))
    } else {
        None
    }
}

/// The longest formula of this row that begins with this one.
#[cycle(state)]
fn extended<'a>(room: Room, level: u8, left: ReadState<'a>) -> Result<ReadState<'a>, Misread>
    requires level { level ≤ 3 }
    requires left { IsReadState level room.depth room.parens left }
    ensures { StateOf level room.depth room.parens (state_tokens left.entry) result }
{
    match sign_first(level, left.rest) {
        Some((sign, rest)) => {
            let longer = joined(room, level, left, sign, rest)?;
            extended(room, level, longer)
        }
        None => Ok(left),
    }
}

/// The formula of this one, the sign after it and the longest one after the sign.
#[cycle(state)]
fn joined<'a>(
    room: Room,
    level: u8,
    left: ReadState<'a>,
    sign: Connective,
    rest: &'a [Placed<'a>],
) -> Result<ReadState<'a>, Misread>
    requires left { IsReadState level room.depth room.parens left }
    requires sign { connective_row sign ≤ level }
    requires first { bare_tokens left.rest.now ≡ connective_token sign ∷ bare_tokens rest.now }
    ensures { StateFrom level room.depth room.parens left.entry result }
{
    let below = room.below(left.rest, left.height)?;
    let right = state(below, sign.level(), rest)?;
    let height = left.height.max(right.height) + 1;
    let syntax = WrittenState::Joined(sign, left.syntax, right.syntax);
    built(room, syntax, height, right.rest)
}
