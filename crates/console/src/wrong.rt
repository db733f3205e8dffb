// What is wrong at a place of a text, where the text tells more than the code.

use formula::error::{FormulaError, FormulaFault};
use requests::error::MuError;
use requests::texts::parse_front;
use std::alloc::{AllocError, Global};

/// What is told of a text, where it shows something, and a lack of memory.
pub type Explanation = Result<Option<String>, AllocError>;

/// Tokens that begin a formula, a step, or a name alone, and what they stand for.
static FIRST_TOKENS: [(&str, &str); 3] = [("mu", "a formula"), ("tau", "a step"), ("X", "a name")];

/// Tokens that follow one, and the end.
static NEXT_TOKENS: [(&str, &str); 11] = [
    (">", "`>`"),
    ("]", "`]`"),
    (")", "`)`"),
    ("&&", "`&&`"),
    ("||", "`||`"),
    ("=>", "`=>`"),
    ("|", "`|`"),
    (".", "`.`"),
    ("+", "`+`"),
    ("*", "`*`"),
    ("", "the end"),
];

/// What is wrong with the byte with which this begins, or with the label in quotes.
pub fn wrong_byte(alloc: Global, rest: &[u8]) -> Explanation {
    let Some((byte, rest)) = rest.split_first() else {
        return Ok(None);
    };
    let more = match byte {
        b'"' => return wrong_quote(alloc, rest),
        b';' => ": `.` stands between steps",
        b'=' => ": `.` follows a binder's variable",
        b'\'' => ": a label is quoted by `\"`",
        b'&' => ": it is doubled, `&&`",
        _ => "",
    };
    told_of_byte(alloc, *byte, "begins no token", more)
}

fn told_of_byte(alloc: Global, byte: u8, what: &str, more: &str) -> Explanation {
    let told = if byte.is_ascii_graphic() {
        format!(in alloc; "`{}` {what}{more}", char::from(byte))?
    } else {
        format!(in alloc; "the byte 0x{byte:02X} {what}{more}")?
    };
    Ok(Some(told))
}

/// What is wrong with the label behind a quote.
fn wrong_quote(alloc: Global, rest: &[u8]) -> Explanation {
    let line = rest.split(|byte| *byte == b'\n').next().unwrap_or(rest);
    if line.contains(&b'"') {
        wrong_label(alloc, line)
    } else {
        sentence(alloc, "the quote that opens here isn't closed on its line")
    }
}

/// What is wrong with the label of a line.
pub fn wrong_in_line(alloc: Global, line: &[u8]) -> Explanation {
    match line.iter().position(|byte| *byte == b'"') {
        Some(quote) => wrong_label(alloc, &line[quote + 1..]),
        None => Ok(None),
    }
}

/// What is wrong with the label that stands here, up to a quote.
fn wrong_label(alloc: Global, text: &[u8]) -> Explanation {
    let mut bytes = text.iter();
    match bytes.find(|byte| matches!(**byte, b'"' | ..b' ' | 127..)) {
        Some(byte) if *byte != b'"' => {
            let what = "can't stand in a label, which is printable ASCII";
            told_of_byte(alloc, *byte, what, "")
        }
        _ if text.first() == Some(&b'"') => sentence(alloc, "the label is empty"),
        _ => sentence(alloc, "the label is longer than 4,096 bytes"),
    }
}

fn sentence(alloc: Global, words: &str) -> Explanation {
    Ok(Some(String::from_str(alloc, words)?))
}

/// How many lines of transitions this header announces, beside how many were found; nothing where it tells none.
pub fn wrong_counts(alloc: Global, header: &[u8], found: usize) -> Explanation {
    let header = str::from_utf8(header).unwrap_or("");
    let number = header.split(",").nth(1).unwrap_or("").trim();
    let Ok(announced) = number.parse::<u64>() else {
        return Ok(None);
    };
    Ok(Some(format!(in alloc; "transitions announced: {announced}, found: {found}")?))
}

/// What could stand in place of the token at this offset, or where the text ends.
pub fn wrong_token(alloc: Global, text: &[u8], offset: usize) -> Explanation {
    let front = text.get(..offset).unwrap_or(text).trim_ascii_end();
    match (front.last(), text.get(offset)) {
        (None, None) => return sentence(alloc, "the text is empty"),
        (Some(b'<'), Some(b'>')) | (Some(b'['), Some(b']')) => {
            let words = "nothing stands between the brackets, where `true` stands for any step";
            return sentence(alloc, words);
        }
        _ => {}
    }
    let mut expected = accepted(alloc, front, &FIRST_TOKENS)?;
    expected.truncate(1);
    if expected.is_empty() {
        expected = accepted(alloc, front, &NEXT_TOKENS)?;
    }
    let mut told = String::from_str(alloc, "expected here")?;
    for (at, words) in expected.iter().enumerate() {
        told.push_str(match at {
            0 => ": ",
            _ if at + 1 == expected.len() => " or ",
            _ => ", ",
        })?;
        told.push_str(words)?;
    }
    Ok((!expected.is_empty()).then_some(told))
}

/// What those of the tokens stand for with which a formula goes on behind this text.
fn accepted(
    alloc: Global,
    front: &[u8],
    tokens: &[(&str, &'static str)],
) -> Result<Vec<&'static str>, AllocError> {
    let mut found = Vec::new(alloc);
    for (token, words) in tokens {
        if accepts(alloc, front, token)? {
            found.push(*words)?;
        }
    }
    Ok(found)
}

/// Whether some formula begins with the text and this token behind it; of no token, whether the text is one.
fn accepts(alloc: Global, front: &[u8], token: &str) -> Result<bool, AllocError> {
    let mut text = Vec::new(alloc);
    text.extend_from_slice(front)?;
    // (what stands in front may end in a comment)
    text.push(b'\n')?;
    text.extend_from_slice(token.as_bytes())?;
    match parse_front(alloc, &text) {
        Err(MuError::Formula(FormulaError::Fault { fault, .. })) => Ok(match fault {
            FormulaFault::Unexpected | FormulaFault::TooLarge => false,
            FormulaFault::Unfinished => !token.is_empty(),
            _ => true,
        }),
        Err(MuError::Formula(FormulaError::Memory)) => Err(AllocError),
        _ => Ok(true),
    }
}
