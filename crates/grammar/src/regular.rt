// Reads regular formulas from tokens.

ghost use Rattle.std.specs.Prelude.{◌≡◌, ◌+◌, ◌^◌, ◌<◌, ◌≤◌, ◌∷◌, length, MatchOption, MatchResult};
ghost use Rattle.grammar.specs.Token.{Name, Bar, Close, Open, NotSign};
ghost use Rattle.grammar.specs.Written.{token_of, bare_tokens, infix_token, infix_row, repeat_token};
ghost use Rattle.grammar.specs.Read.{regular_tokens, IsRegular, IsRegularOf, MayGoOn, IsSuffix, suffix_row, suffix_token, IsWordOf, MatchBar, reg_row};
ghost use Rattle.grammar.specs.Misread.{IsMissing, IsNameMissing, RegularOf, RegularFrom};

use crate::misread::Misread;
use crate::room::{Room, boxed};
use crate::token::{Placed, Token};
use crate::written::{Infix, Repeat, WrittenRegular};

/// A regular formula, how deep its signs nest, and the tokens after it.
#[derive(Drop)]
pub struct ReadRegular<'a> {
    pub syntax: Box<WrittenRegular<'a>>,
    pub height: usize,
    pub rest: &'a [Placed<'a>],
}

/// The weakest row of the grammar's table: any regular formula.
pub const ANY_REGULAR: u8 = 7;

/// The row of postfixed formulas.
const POSTFIXED: u8 = 5;

/// What may follow a regular formula in a longer one.
#[derive(Clone, Copy)]
enum Suffix {
    Repeat(Repeat),
    Infix(Infix),
}

impl Suffix {
    /// The row of the grammar's table that it makes.
    fn level(self) -> u8
        ensures { result ≡ suffix_row self }
    {
        match self {
            Suffix::Repeat(_) => POSTFIXED,
            Suffix::Infix(sign) => sign.level(),
        }
    }
}

fn suffix_of(token: Token<'_>) -> Option<Suffix>
    ensures { IsSuffix (token_of token.entry) result }
{
    match token {
        Token::StarSign => Some(Suffix::Repeat(Repeat::Star)),
        Token::PlusSign => Some(Suffix::Repeat(Repeat::Plus)),
        Token::AndSign => Some(Suffix::Infix(Infix::And)),
        Token::OrSign => Some(Suffix::Infix(Infix::Or)),
        Token::ImpliesSign => Some(Suffix::Infix(Infix::Implies)),
        Token::Dot => Some(Suffix::Infix(Infix::Then)),
        Token::ChoiceSign => Some(Suffix::Infix(Infix::Either)),
        _ => None,
    }
}

/// A formula that was read, of this height and before these tokens.
fn built<'a>(
    room: Room,
    syntax: WrittenRegular<'a>,
    height: usize,
    rest: &'a [Placed<'a>],
) -> Result<ReadRegular<'a>, Misread>
    ensures { MatchResult result (IsRegularOf syntax.entry height rest.now) (λ e. e ≡ Misread.Memory) }
{
    Ok(ReadRegular {
        syntax: boxed(room.alloc, syntax)?,
        height,
        rest,
    })
}

/// An atom that is one token.
fn word<'a>(token: Token<'a>) -> Option<WrittenRegular<'a>>
    ensures { IsWordOf (token_of token.entry) result }
{
    match token {
        Token::TrueWord => Some(WrittenRegular::True),
        Token::FalseWord => Some(WrittenRegular::False),
        Token::TauWord => Some(WrittenRegular::Tau),
        Token::Atom(bytes) => Some(WrittenRegular::Quoted(bytes)),
        _ => None,
    }
}

/// The tokens after a closing parenthesis, which has to stand first.
pub fn after_close<'a>(rest: &'a [Placed<'a>]) -> Result<&'a [Placed<'a>], Misread>
    ensures { MatchResult result (λ after. bare_tokens rest.now ≡ Close ∷ bare_tokens after.now) (IsMissing Close (bare_tokens rest.now)) }
{
    match rest.split_first() {
        Some(
            (
                Placed {
                    token: Token::Close,
                    ..
                },
                after,
            ),
        ) => Ok(after),
        _ => Err(Misread::unexpected(rest)),
    }
}

/// The name that has to stand first, and the tokens after it.
pub fn name_first<'a>(rest: &'a [Placed<'a>]) -> Result<(&'a [u8], &'a [Placed<'a>]), Misread>
    ensures { MatchResult result (λ (name, after). bare_tokens rest.now ≡ Name name.now ∷ bare_tokens after.now) (IsNameMissing (bare_tokens rest.now)) }
{
    match rest.split_first() {
        Some(
            (
                Placed {
                    token: Token::Name(name),
                    ..
                },
                after,
            ),
        ) => Ok((name, after)),
        _ => Err(Misread::unexpected(rest)),
    }
}

fn is_bar_first(tokens: &[Placed<'_>]) -> bool
    ensures { MatchBar (bare_tokens tokens.now) result }
{
    match tokens.first() {
        Some(
            Placed {
                token: Token::Bar,
                ..
            },
        ) => true,
        _ => false,
    }
}

/// Names joined by bars, of which the first is given.
fn names<'a>(
    room: Room,
    first: &'a [u8],
    tokens: &'a [Placed<'a>],
) -> Result<ReadRegular<'a>, Misread>
    ensures { RegularOf 1 room.depth room.parens (Name first.now ∷ bare_tokens tokens.now) result }
{
    let mut others = Vec::new(room.alloc);
    let mut at = 0;
    'names: while is_bar_first(&tokens[at..]) {
        let (name, _) = name_first(&tokens[at + 1..])?;
        others.push(name)?;
        at += 2;
    }
    built(room, WrittenRegular::Names(first, others), 0, &tokens[at..])
}

/// This atom, which no bar may follow.
fn unbarred<'a>(atom: ReadRegular<'a>) -> Result<ReadRegular<'a>, Misread>
    ensures { MatchResult result
        (λ r. (r ≡ atom.entry) × (0 < reg_row (bare_tokens r.rest.now)))
        (λ e. (e ≡ Misread.Unexpected (length atom.entry.rest.now)) × (reg_row (bare_tokens atom.entry.rest.now) ≡ 0)) }
{
    if is_bar_first(atom.rest) {
        return Err(Misread::unexpected(atom.rest));
    }
    Ok(atom)
}

/// Refuses a sign of action formulas right after a postfix sign.
fn after_repeat(rest: &[Placed<'_>]) -> Result<(), Misread>
    ensures { MatchResult result
        (λ _. 5 ≤ reg_row (bare_tokens rest.now))
        (λ e. (e ≡ Misread.Unexpected (length rest.now)) × (reg_row (bare_tokens rest.now) < 5)) }
{
    match rest.first() {
        Some(
            Placed {
                token: Token::Bar | Token::AndSign | Token::OrSign | Token::ImpliesSign,
                ..
            },
        ) => Err(Misread::unexpected(rest)),
        _ => Ok(()),
    }
}

/// What stands after an opening parenthesis, up to the closing one.
#[cycle(regular)]
fn parens<'a>(room: Room, tokens: &'a [Placed<'a>]) -> Result<ReadRegular<'a>, Misread>
    ensures { RegularOf 1 room.depth (room.parens + 1) (Open ∷ bare_tokens tokens.now) result }
{
    let inner = regular(room, ANY_REGULAR, tokens)?;
    let rest = after_close(inner.rest)?;
    let syntax = WrittenRegular::Parens(inner.syntax);
    unbarred(built(room, syntax, inner.height, rest)?)
}

/// What stands after a `!`.
#[cycle(regular)]
fn negated<'a>(room: Room, tokens: &'a [Placed<'a>]) -> Result<ReadRegular<'a>, Misread>
    requires { room.depth + 1 < 2 ^ 64 }
    ensures { RegularOf 1 (room.depth + 1) room.parens (NotSign ∷ bare_tokens tokens.now) result }
{
    let inner = negation(room, tokens)?;
    let syntax = WrittenRegular::Not(inner.syntax);
    built(room, syntax, inner.height + 1, inner.rest)
}

/// A negation or an atom.
#[cycle(regular)]
fn negation<'a>(room: Room, tokens: &'a [Placed<'a>]) -> Result<ReadRegular<'a>, Misread>
    ensures { RegularOf 1 room.depth room.parens (bare_tokens tokens.now) result }
{
    let Some((first, rest)) = tokens.split_first() else {
        return Err(Misread::unexpected(tokens));
    };
    match first.token {
        Token::NotSign => negated(room.below(tokens, 0)?, rest),
        Token::Open => parens(room.inside(tokens)?, rest),
        Token::Name(name) => names(room, name, rest),
        token => match word(token) {
            Some(syntax) => unbarred(built(room, syntax, 0, rest)?),
            None => Err(Misread::unexpected(tokens)),
        },
    }
}

/// The longest formula of this row of the grammar's table at the front of the tokens.
#[cycle(regular)]
pub fn regular<'a>(
    room: Room,
    level: u8,
    tokens: &'a [Placed<'a>],
) -> Result<ReadRegular<'a>, Misread>
    requires above { 1 ≤ level }
    requires row { level ≤ 7 }
    ensures { RegularOf level room.depth room.parens (bare_tokens tokens.now) result }
{
    extended(room, level, negation(room, tokens)?)
}

/// What goes on after a formula of this row, and the tokens after it.
fn suffix_first<'a>(level: u8, tokens: &'a [Placed<'a>]) -> Option<(Suffix, &'a [Placed<'a>])>
    requires { level ≤ 7 }
    ensures { MatchOption result
        (0 < reg_row (bare_tokens tokens.now) → level < reg_row (bare_tokens tokens.now))
        (λ (suffix, rest). (suffix_row suffix ≤ level) × (bare_tokens tokens.now ≡ suffix_token suffix ∷ bare_tokens rest.now)) }
{
    let (first, rest) = tokens.split_first()?;
    let suffix = suffix_of(first.token)?;
    if suffix.level() <= level {
        Some((suffix, rest))
    } else {
        None
    }
}

/// The longest formula of this row that begins with this one.
#[cycle(regular)]
fn extended<'a>(room: Room, level: u8, left: ReadRegular<'a>) -> Result<ReadRegular<'a>, Misread>
    requires row { level ≤ 7 }
    requires left { IsRegular level room.depth room.parens left }
    requires onward { MayGoOn left }
    ensures { RegularOf level room.depth room.parens (regular_tokens left.entry) result }
{
    match suffix_first(level, left.rest) {
        Some((suffix, rest)) => {
            let longer = lengthened(room, level, left, suffix, rest)?;
            extended(room, level, longer)
        }
        None => Ok(left),
    }
}

/// The formula of this one, what goes on after it and its right operand where it has one.
#[cycle(regular)]
fn lengthened<'a>(
    room: Room,
    level: u8,
    left: ReadRegular<'a>,
    suffix: Suffix,
    rest: &'a [Placed<'a>],
) -> Result<ReadRegular<'a>, Misread>
    requires row { level ≤ 7 }
    requires left { IsRegular level room.depth room.parens left }
    requires onward { MayGoOn left }
    requires sign { suffix_row suffix ≤ level }
    requires first { bare_tokens left.rest.now ≡ suffix_token suffix ∷ bare_tokens rest.now }

    ensures { RegularFrom level room.depth room.parens left.entry result }
{
    match suffix {
        Suffix::Repeat(repeat) => repeated(room, level, left, repeat, rest),
        Suffix::Infix(sign) => joined(room, level, left, sign, rest),
    }
}

/// The formula under a postfix sign that stands after it.
fn repeated<'a>(
    room: Room,
    level: u8,
    left: ReadRegular<'a>,
    repeat: Repeat,
    rest: &'a [Placed<'a>],
) -> Result<ReadRegular<'a>, Misread>
    requires left { IsRegular level room.depth room.parens left }
    requires onward { MayGoOn left }
    requires sign { 5 ≤ level }
    requires first { bare_tokens left.rest.now ≡ repeat_token repeat ∷ bare_tokens rest.now }

    ensures { RegularFrom level room.depth room.parens left.entry result }
{
    let _ = room.below(left.rest, left.height)?;
    after_repeat(rest)?;
    let syntax = WrittenRegular::Repeated(repeat, left.syntax);
    built(room, syntax, left.height + 1, rest)
}

/// The formula of this one, the sign after it and the longest one after the sign.
#[cycle(regular)]
fn joined<'a>(
    room: Room,
    level: u8,
    left: ReadRegular<'a>,
    sign: Infix,
    rest: &'a [Placed<'a>],
) -> Result<ReadRegular<'a>, Misread>
    requires left { IsRegular level room.depth room.parens left }
    requires onward { MayGoOn left }
    requires sign { infix_row sign ≤ level }
    requires first { bare_tokens left.rest.now ≡ infix_token sign ∷ bare_tokens rest.now }

    ensures { RegularFrom level room.depth room.parens left.entry result }
{
    let below = room.below(left.rest, left.height)?;
    let right = regular(below, sign.level(), rest)?;
    let height = left.height.max(right.height) + 1;
    let syntax = WrittenRegular::Joined(sign, left.syntax, right.syntax);
    built(room, syntax, height, right.rest)
}
