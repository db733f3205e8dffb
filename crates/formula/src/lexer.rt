// Cuts a formula's text into tokens, blanks and comments.

ghost use Rattle.std.specs.Prelude.{◌≡◌, ◌+◌, ◌-◌, ◌<◌, true, false, not, length, drop, IsTrue, IsFalse, MatchOption};
ghost use Rattle.std.specs.Prelude.{MatchResult, Option, slice_index, slice_get, ◌==◌, ◌&&◌, ◌||◌};
ghost use Rattle.std.specs.List.{take_while, list_any};
ghost use Rattle.std.specs.Str.{bytes_eq};
ghost use Rattle.text.specs.Text.{is_letter as is_letter_of, is_name_byte as is_name_byte_of};
ghost use Rattle.systems.specs.Label.{is_label_byte as is_label_byte_of};
ghost use Rattle.grammar.specs.Token.{ChoiceSign, PlusSign, reserved_words, begins};
ghost use Rattle.grammar.specs.Written.{token_of};
ghost use Rattle.formula.specs.Cutting.{IsGap, IsFirst, IsSingle, IsDouble, IsNameToken, IsLexed, IsDecidedBy, IsAtomless, IsSignless, BeginsReserved};
ghost use Rattle.formula.specs.Cutting.{IsTokenless, IsTokenRefusal, begins_gap, is_double, is_single, is_postfix_before};

use crate::error::{FormulaError, FormulaFault};
use grammar::token::{Placed, Token};
use std::alloc::Global;
use systems::limits::LONGEST_LABEL;
use text::bytes::{is_letter, is_name_byte};

fn is_label_byte(byte: u8) -> bool
    ensures { result ≡ is_label_byte_of byte }
{
    byte >= 0x20 && byte <= 0x7e && byte != b'"'
}

fn is_blank(byte: u8) -> bool
    ensures { result ≡ (byte == 32 || byte == 9 || byte == 13 || byte == 10) }
{
    byte == b' ' || byte == b'\t' || byte == b'\r' || byte == b'\n'
}

/// How many bytes stand before the first line feed.
fn line_len(text: &[u8]) -> usize
    ensures { result ≡ length (take_while (λ b. not (b == 10)) text.now) }
{
    text.iter().take_while(|byte| **byte != b'\n').count()
}

/// How many bytes of a name stand at the front.
fn name_len(text: &[u8]) -> usize
    ensures { result ≡ length (take_while is_name_byte_of text.now) }
{
    text.iter().take_while(|byte| is_name_byte(**byte)).count()
}

/// How many bytes of a label stand at the front.
fn label_len(text: &[u8]) -> usize
    ensures { result ≡ length (take_while is_label_byte_of text.now) }
{
    text.iter().take_while(|byte| is_label_byte(**byte)).count()
}

/// How many bytes of blanks and comments stand at the front.
fn gap_len(text: &[u8]) -> usize
    ensures gap { IsGap result text.now }
    ensures over { IsFalse (begins begins_gap (drop result text.now)) }
{
    let mut at = 0;
    'gap: while at < text.len() {
        if is_blank(text[at]) {
            at += 1;
        } else if text[at] == b'%' {
            at += line_len(&text[at..]);
        } else {
            break;
        }
    }
    at
}

/// Whether two texts are the same.
fn is_same(name: &[u8], word: &[u8]) -> bool
    ensures { result ≡ bytes_eq name.now word.now }
{
    name == word
}

fn is_reserved(name: &[u8]) -> bool
    ensures { result ≡ list_any (bytes_eq name.now) reserved_words }
{
    is_same(name, b"forall")
        || is_same(name, b"exists")
        || is_same(name, b"val")
        || is_same(name, b"delay")
        || is_same(name, b"yaled")
        || is_same(name, b"nil")
}

/// The word or the name that these bytes are.
fn word(name: &[u8]) -> Token<'_>
    ensures { IsNameToken name.now (token_of result) }
{
    if is_same(name, b"true") {
        Token::TrueWord
    } else if is_same(name, b"false") {
        Token::FalseWord
    } else if is_same(name, b"mu") {
        Token::MuWord
    } else if is_same(name, b"nu") {
        Token::NuWord
    } else if is_same(name, b"tau") {
        Token::TauWord
    } else {
        Token::Name(name)
    }
}

/// The quoted atom at the front of a text that begins with a quote, and its length.
fn atom(text: &[u8]) -> Result<(Token<'_>, usize), FormulaFault>
    requires some { 0 < length text.now }
    requires quoted { slice_index text.now 0 ≡ 34 }
    ensures { MatchResult result (λ (token, len). IsFirst (token_of token) len text.now) (IsAtomless text.now) }
{
    let inside = &text[1..];
    let len = label_len(inside);
    if len == 0 || len > LONGEST_LABEL || len >= inside.len() || inside[len] != b'"' {
        return Err(FormulaFault::NoToken);
    }
    Ok((Token::Atom(&inside[..len]), len + 2))
}

/// The sign of two bytes that begins with this byte.
fn double_sign(first: u8, second: Option<u8>) -> Option<Token<'static>>
    ensures { MatchOption result (IsFalse (is_double first second)) (λ token. IsDouble first second (token_of token)) }
{
    match (first, second) {
        (b'=', Some(b'>')) => Some(Token::ImpliesSign),
        (b'|', Some(b'|')) => Some(Token::OrSign),
        (b'&', Some(b'&')) => Some(Token::AndSign),
        _ => None,
    }
}

/// The sign that is this byte; a `+` is taken as the sign of choice.
fn single_sign(byte: u8) -> Option<Token<'static>>
    ensures { MatchOption result (IsFalse (is_single byte)) (λ token. IsSingle byte (token_of token)) }
{
    match byte {
        b'|' => Some(Token::Bar),
        b'!' => Some(Token::NotSign),
        b'<' => Some(Token::Less),
        b'>' => Some(Token::Greater),
        b'[' => Some(Token::OpenBox),
        b']' => Some(Token::CloseBox),
        b'(' => Some(Token::Open),
        b')' => Some(Token::Close),
        b'.' => Some(Token::Dot),
        b'+' => Some(Token::ChoiceSign),
        b'*' => Some(Token::StarSign),
        _ => None,
    }
}

/// The sign at the front of a text, and its length.
fn sign(text: &[u8]) -> Result<(Token<'_>, usize), FormulaFault>
    requires { 0 < length text.now }
    ensures { MatchResult result (λ (token, len). IsFirst (token_of token) len text.now) (IsSignless text.now) }
{
    if let Some(token) = double_sign(text[0], text.get(1).copied()) {
        return Ok((token, 2));
    }
    match single_sign(text[0]) {
        Some(token) => Ok((token, 1)),
        None => Err(FormulaFault::NoToken),
    }
}

/// The name or word at the front of a text that begins with a letter, and its length.
fn named(text: &[u8]) -> Result<(Token<'_>, usize), FormulaFault>
    requires some { 0 < length text.now }
    requires letter { IsTrue (is_letter_of (slice_index text.now 0)) }
    ensures { MatchResult result (λ (token, len). IsFirst (token_of token) len text.now) (BeginsReserved text.now) }
{
    let len = name_len(text);
    let name = &text[..len];
    if is_reserved(name) {
        return Err(FormulaFault::ReservedWord);
    }
    Ok((word(name), len))
}

/// The token at the front of a text, and its length; a `+` is taken as the sign of choice.
fn first_token(text: &[u8]) -> Result<(Token<'_>, usize), FormulaFault>
    requires { 0 < length text.now }
    ensures { MatchResult result (λ (token, len). IsFirst (token_of token) len text.now) (IsTokenless text.now) }
{
    if text[0] == b'"' {
        atom(text)
    } else if is_letter(text[0]) {
        named(text)
    } else {
        sign(text)
    }
}

/// Whether a `+` before this byte, the first of the next token, is the postfix sign.
fn is_after_postfix(byte: Option<u8>) -> bool
    ensures { result ≡ is_postfix_before byte }
{
    match byte {
        Some(b'.' | b'+' | b'*' | b')' | b']' | b'>') => true,
        _ => false,
    }
}

/// The byte at this place, if there is one.
fn byte_at(text: &[u8], at: usize) -> Option<u8>
    ensures { result ≡ slice_get text.now at }
{
    text.get(at).copied()
}

/// The sign that a `+` is by what follows it; other tokens as they are.
fn decided<'a>(token: Token<'a>, next: Option<u8>) -> Token<'a>
    ensures { IsDecidedBy (token_of token.entry) next (token_of result) }
{
    match token {
        Token::ChoiceSign | Token::PlusSign => {
            if is_after_postfix(next) {
                Token::PlusSign
            } else {
                Token::ChoiceSign
            }
        }
        _ => token,
    }
}

/// The tokens of a text.
pub fn tokens<'a>(alloc: Global, text: &'a [u8]) -> Result<Vec<Placed<'a>>, FormulaError>
    ensures { MatchResult result (λ v. IsLexed text.now v.items) (IsTokenRefusal text.now) }
{
    let mut tokens = Vec::new(alloc);
    let mut at = gap_len(text);
    'tokens: while at < text.len() {
        let (token, len) = match first_token(&text[at..]) {
            Ok(found) => found,
            Err(fault) => return Err(FormulaError::Fault { fault, offset: at }),
        };
        let end = at + len;
        let next = end + gap_len(&text[end..]);
        let token = decided(token, byte_at(text, next));
        tokens.push(Placed { token, offset: at })?;
        at = next;
    }
    Ok(tokens)
}
