// The tokens of a line: each function takes one off the front.

ghost use Rattle.std.specs.Prelude.{◌≡◌, ◌≤◌, length, take, IfSome, IsTrue};
ghost use Rattle.std.specs.List.{prefix_len, list_all};
ghost use Rattle.text.specs.Text as spec;
ghost use Rattle.text.specs.Tokens.{Finds, capped, is_other};
ghost use Rattle.text.specs.Tokens as at;

use crate::bytes::{is_blank, is_digit};
use memchr::memchr;

// To a number up to this one another digit can be added.
const MOST_BEFORE_A_DIGIT: u32 = 99_999_999;

// How many blanks stand in front.
fn blanks(line: &[u8]) -> usize
    ensures count { result ≡ prefix_len spec.is_blank line.now }
    ensures within { result ≤ length line.now }
{
    line.iter().take_while(|byte| is_blank(**byte)).count()
}

// The bytes past the blanks.
fn past_blanks(line: &[u8]) -> &[u8]
    ensures { result.now ≡ at.past_blanks line.now }
{
    let (_, rest) = line.split_at(blanks(line));
    rest
}

/// What follows the token, past the blanks.
#[tactic(auto, unfolding(crate::specs::Tokens::sign_at))]
pub fn sign<'a>(line: &'a [u8], token: &[u8]) -> Option<&'a [u8]>
    ensures { Finds (λ rest. rest.now) result (at.sign_at token.now line.now) }
{
    past_blanks(line).strip_prefix(token)
}

// The number of these digits, or the greatest that there is.
fn value_of(digits: &[u8]) -> u32
    ensures { result ≡ capped (spec.value_of digits.now) }
{
    let mut value = 0u32;
    for digit in digits {
        value = value
            .saturating_mul(10)
            .saturating_add(u32::from(digit.saturating_sub(b'0')));
    }
    value
}

// How many digits stand in front.
fn digits(line: &[u8]) -> usize
    ensures count { result ≡ prefix_len spec.is_digit line.now }
    ensures within { result ≤ length line.now }
{
    line.iter().take_while(|byte| is_digit(**byte)).count()
}

fn are_digits(bytes: &[u8]) -> bool
    ensures { result ≡ list_all spec.is_digit bytes.now }
{
    bytes.iter().all(|byte| is_digit(*byte))
}

// Whether digits are a number: there are some, and no 0 stands in front of another.
fn begins_well(digits: &[u8]) -> bool
    requires { IsTrue (list_all spec.is_digit digits.now) }
    ensures { result ≡ spec.is_numeral digits.now }
{
    match digits {
        [] => false,
        [_] => true,
        [first, ..] => *first >= b'1',
    }
}

// Whether the bytes are a number.
fn is_numeral(bytes: &[u8]) -> bool
    ensures { result ≡ spec.is_numeral bytes.now }
{
    are_digits(bytes) && begins_well(bytes)
}

/// The number whose numeral the bytes are, if they are one. A number that is too great for its type is read as the greatest one.
#[tactic(auto, unfolding(crate::specs::Tokens::whole_number))]
pub fn whole_number(bytes: &[u8]) -> Option<u32>
    ensures { at.whole_number bytes.now ≡ result }
{
    if is_numeral(bytes) {
        Some(value_of(bytes))
    } else {
        None
    }
}

// The number of the digits in front, and how many they are, where they are few enough to be added up in one pass.
fn few_digits(line: &[u8]) -> Option<(u32, usize)>
    ensures value { IfSome result (λ found. found.0 ≡ capped (spec.value_of (take found.1 line.now))) }
    ensures count { IfSome result (λ found. found.1 ≡ prefix_len spec.is_digit line.now) }
    ensures within { IfSome result (λ found. found.1 ≤ length line.now) }
{
    let mut value = 0u32;
    for (count, byte) in line.iter().enumerate() {
        if !is_digit(*byte) {
            return Some((value, count));
        }
        if value > MOST_BEFORE_A_DIGIT {
            return None;
        }
        value = value * 10 + u32::from(*byte - b'0');
    }
    Some((value, line.len()))
}

// The number of the digits in front, and how many they are, however many.
fn all_digits(line: &[u8]) -> (u32, usize)
    ensures value { result.0 ≡ capped (spec.value_of (take result.1 line.now)) }
    ensures count { result.1 ≡ prefix_len spec.is_digit line.now }
    ensures within { result.1 ≤ length line.now }
{
    match few_digits(line) {
        Some(found) => found,
        None => {
            let (numeral, _) = line.split_at(digits(line));
            (value_of(numeral), numeral.len())
        }
    }
}

/// The number right in front, without a blank before it, and what follows it. A number that is too great for its type is read as the greatest one.
#[tactic(auto, unfolding(crate::specs::Tokens::number_here))]
pub fn number_here(line: &[u8]) -> Option<(u32, &[u8])>
    ensures { Finds (λ found. (found.0, found.1.now)) result (at.number_here line.now) }
{
    let (value, count) = all_digits(line);
    let (numeral, rest) = line.split_at(count);
    if begins_well(numeral) {
        Some((value, rest))
    } else {
        None
    }
}

/// The number past the blanks, and what follows it. A number that is too great for its type is read as the greatest one.
#[tactic(auto, unfolding(crate::specs::Tokens::number_at, crate::specs::Tokens::number_here))]
pub fn number(line: &[u8]) -> Option<(u32, &[u8])>
    ensures { Finds (λ found. (found.0, found.1.now)) result (at.number_at line.now) }
{
    number_here(past_blanks(line))
}

/// The number before the token, past the blanks, and what follows both.
#[tactic(auto, unfolding(crate::specs::Tokens::number_before))]
pub fn number_before<'a>(line: &'a [u8], token: &[u8]) -> Option<(u32, &'a [u8])>
    ensures { Finds (λ found. (found.0, found.1.now)) result (at.number_before token.now line.now) }
{
    let (number, rest) = number(line)?;
    let rest = sign(rest, token)?;
    Some((number, rest))
}

/// The bytes before the next of these, and what follows it.
#[tactic(auto, unfolding(crate::specs::Tokens::cut_at))]
pub fn cut_at(line: &[u8], byte: u8) -> Option<(&[u8], &[u8])>
    ensures { Finds (λ found. (found.0.now, found.1.now)) result (at.cut_at byte line.now) }
{
    let count = memchr(byte, line)?;
    let (front, _) = line.split_at(count);
    let (_, rest) = line.split_at(count + 1);
    Some((front, rest))
}

/// The bytes between the quotes past the blanks, and what follows them.
#[tactic(auto, unfolding(crate::specs::Tokens::quoted_at))]
pub fn quoted(line: &[u8]) -> Option<(&[u8], &[u8])>
    ensures { Finds (λ found. (found.0.now, found.1.now)) result (at.quoted_at line.now) }
{
    let rest = sign(line, b"\"")?;
    cut_at(rest, b'"')
}

/// Whether only blanks follow.
pub fn is_end(line: &[u8]) -> bool
    ensures { result ≡ list_all spec.is_blank line.now }
{
    line.iter().all(|byte| is_blank(*byte))
}
