// Where the first word of a formula's text stands that is on no transition of the system.

ghost use Rattle.std.specs.Prelude.{◌≡◌, ◌&&◌, false, map, IfOk};
ghost use Rattle.grammar.specs.Written.{token_of, bare_tokens};
ghost use Rattle.formula.specs.Absent.{IsFirstAbsent, first_unknown, is_inside_after, is_unknown};
ghost use Rattle.formula.specs.Noted.{knows};

use crate::lexer::tokens;
use crate::strange::{Known, Word, known_in};
use crate::token::{Placed, Token};
use std::alloc::Global;
use systems::system::Lts;
use text::Memory;

/// Where the first name or quoted label in a modality begins that is on no transition of the system, in bytes, if there is one. `true`,
/// `false` and `tau` are neither.
///
/// # Errors
/// Out of memory; and where the bytes are no tokens, so that they are no formula's text.
pub fn first_absent(alloc: Global, system: &Lts, text: &[u8]) -> Result<Option<usize>, Memory>
    ensures { IfOk result (IsFirstAbsent system.now.system text.now) }
{
    let Ok(tokens) = tokens(alloc, text) else {
        return Err(Memory);
    };
    // For the proof: the field is within its type's limits.
    let _labels = system.labels();
    let _transitions = system.all();
    match known_in(alloc, system) {
        Ok(known) => Ok(first_in(&known, &tokens)),
        Err(_) => Err(Memory),
    }
}

/// The place of the first of these tokens that is a name or a quoted label in a modality, and isn't known.
fn first_in(known: &Known<'_>, tokens: &[Placed<'_>]) -> Option<usize>
    ensures { result ≡ first_unknown (knows known.now) false (bare_tokens tokens.now) (map (λ p. p.offset) tokens.now) }
{
    let mut inside = false;
    for placed in tokens {
        if is_found(known, placed.token, inside) {
            return Some(placed.offset);
        }
        inside = is_inside_after(placed.token, inside);
    }
    None
}

/// Whether the token is one that is looked for: in a modality, and unknown.
fn is_found(known: &Known<'_>, token: Token<'_>, inside: bool) -> bool
    ensures { result ≡ (inside && is_unknown (knows known.now) (token_of token.entry)) }
{
    inside && is_unknown(known, token)
}

/// Whether the token is a name or a quoted label that isn't known.
fn is_unknown(known: &Known<'_>, token: Token<'_>) -> bool
    ensures { result ≡ is_unknown (knows known.now) (token_of token.entry) }
{
    match token {
        Token::Name(bytes) => !known.has(Word::Name(bytes)),
        Token::Atom(bytes) => !known.has(Word::Atom(bytes)),
        _ => false,
    }
}

/// Whether what comes after the token stands in a modality.
fn is_inside_after(token: Token<'_>, inside: bool) -> bool
    ensures { result ≡ is_inside_after (token_of token.entry) inside }
{
    match token {
        Token::Less | Token::OpenBox => true,
        Token::Greater | Token::CloseBox => false,
        _ => inside,
    }
}
