// What stands in a text at the place at which a refusal points. The file is read anew: of a formula all, and else up to that line.

use crate::input::lasts;
use crate::told::FileName;
use crate::wrong::{wrong_byte, wrong_counts, wrong_in_line, wrong_token};
use command_line::codes::{BARE_LABEL, BLANK_LINE, BYTE_ORDER_MARK};
use requests::error::MuError;
use requests::texts::read_front;
use std::alloc::{AllocError, Global};
use std::fs::File;
use std::io;
use std::io::{BufRead, BufReader, ErrorKind, Read, Seek, SeekFrom};

/// How many bytes of a line are shown at most: with a margin of four blanks 80 columns.
const SHOWN: usize = 76;

/// How far from the end of what is shown the place is at least, where the line goes on so far.
const BEHIND: usize = 20;

/// What stands in front of the sign under the place.
const BLANKS: &str = "                                                                            ";

/// How many bytes of a line are looked at: more than a label has.
const LOOKED_AT: u64 = 8192;

/// What some editors put in front of a text.
const MARK: &[u8] = b"\xef\xbb\xbf";

/// A line of a text, as far as it is shown.
#[derive(Drop)]
pub struct Sight {
    /// Which line it is, from 1.
    pub line: usize,
    /// Which byte of it the place is, from 1, where it isn't the whole line.
    pub column: Option<usize>,
    /// How many bytes of it stand in front of what is shown.
    hidden: usize,
    shown: String,
}

impl Sight {
    /// Writes where it is in the file of this name, what is shown, and a sign under the place.
    pub fn tell(&self, rt: &HostRuntime, name: FileName<'_>) -> io::Result<()> {
        let (line, shown) = (self.line, self.shown.as_str());
        let Some(column) = self.column else {
            return eprintln!(rt; "mucheck: in {name}:{line}\n    {shown}");
        };
        let before = column.saturating_sub(self.hidden).saturating_sub(1);
        let blanks = BLANKS.get(..before).unwrap_or(BLANKS);
        eprintln!(rt; "mucheck: in {name}:{line}:{column}\n    {shown}\n    {blanks}^")
    }
}

/// What a text shows of a fault.
#[derive(Drop)]
pub struct Finding {
    /// The line, where there is one.
    pub sight: Option<Sight>,
    /// What is wrong, where the text tells more than the code.
    pub wrong: Option<String>,
    /// What is to be done, where it tells more of that.
    pub remedy: Option<&'static str>,
}

/// What is found in a text that doesn't show it.
pub const NOTHING_FOUND: Finding = Finding {
    sight: None,
    wrong: None,
    remedy: None,
};

/// What the file of this name shows at the place that these words name, as `line 3` or `offset 6`, of a fault of this code; nothing where it can't be
/// read a second time, as standard input or a pipe.
///
/// # Errors
/// A read failed, or memory was refused.
pub fn find(rt: &HostRuntime, code: &str, name: &str, words: &str) -> io::Result<Finding> {
    let Some((kind, number)) = words.split_once(" ").filter(|_| lasts(rt, name)) else {
        return Ok(NOTHING_FOUND);
    };
    let file = File::open(rt, name)?;
    match (kind, number.parse::<usize>()) {
        ("line", Ok(line)) => {
            let mut reader = BufReader::new(rt.alloc(), file)?;
            find_at_line(rt.alloc(), code, &mut reader, line)
        }
        ("offset", Ok(offset)) => match read_front(rt.alloc(), file) {
            Ok(text) => Ok(find_at_byte(rt.alloc(), code, &text, offset)?),
            Err(MuError::Memory) => Err(io::Error::from(ErrorKind::OutOfMemory)),
            Err(_) => Ok(NOTHING_FOUND),
        },
        _ => Ok(NOTHING_FOUND),
    }
}

/// What is found in the line of this number.
fn find_at_line(
    alloc: Global,
    code: &str,
    reader: &mut BufReader<File>,
    line: usize,
) -> io::Result<Finding> {
    skip_lines(reader, line.saturating_sub(1))?;
    let text = front_of_line(alloc, reader, LOOKED_AT)?;
    let mut found = NOTHING_FOUND;
    found.wrong = match code {
        "A5" => count_lines(alloc, reader)?,
        "A7" => wrong_in_line(alloc, &text)?,
        _ => None,
    };
    if !text.is_empty() {
        found.sight = Some(Sight {
            line,
            column: None,
            hidden: 0,
            shown: text_shown(alloc, &text)?,
        });
        found.remedy = remedy_of_line(&text);
    }
    Ok(found)
}

/// How many lines the header of a system announces, and how many there are.
fn count_lines(alloc: Global, reader: &mut BufReader<File>) -> io::Result<Option<String>> {
    reader.seek(SeekFrom::Start(0))?;
    let header = front_of_line(alloc, reader, LOOKED_AT)?;
    let found = skip_lines(reader, usize::MAX)?;
    Ok(wrong_counts(alloc, &header, found)?)
}

/// As much of the rest of a line as this, with its end.
pub(crate) fn front_of_line(
    alloc: Global,
    reader: &mut BufReader<File>,
    most: u64,
) -> io::Result<Vec<u8>> {
    let mut front = Vec::new(alloc);
    reader.take(most).read_until(b'\n', &mut front)?;
    Ok(front)
}

/// Reads so many lines, or all that are left, and answers how many it were.
fn skip_lines(reader: &mut BufReader<File>, count: usize) -> io::Result<usize> {
    for done in 0..count {
        if reader.skip_until(b'\n')? == 0 {
            return Ok(done);
        }
    }
    Ok(count)
}

/// What is found at this offset; where the text ends before, at the end of its last line.
fn find_at_byte(alloc: Global, code: &str, text: &[u8], at: usize) -> Result<Finding, AllocError> {
    let (before, rest) = text.split_at(at.min(text.len()));
    let front = match before.strip_suffix(b"\n") {
        Some(front) if rest.is_empty() => front,
        _ => before,
    };
    let lines = front.split(|byte| *byte == b'\n');
    let inside = lines.last().unwrap_or(front).len();
    let line = &text[front.len() - inside..];
    let hidden = inside.saturating_sub(SHOWN - BEHIND);
    Ok(Finding {
        sight: Some(Sight {
            line: front.split(|byte| *byte == b'\n').count(),
            column: Some(inside.saturating_add(1)),
            hidden,
            shown: text_shown(alloc, line.get(hidden..).unwrap_or(&[]))?,
        }),
        wrong: match code {
            "F1" => wrong_byte(alloc, rest)?,
            "F2" | "F3" => wrong_token(alloc, text, at)?,
            _ => None,
        },
        remedy: remedy_of_byte(text, line, inside),
    })
}

/// The front of a line, with another sign in the place of each byte that a terminal would not show.
fn text_shown(alloc: Global, line: &[u8]) -> Result<String, AllocError> {
    let mut shown = String::new(alloc);
    for byte in line.iter().take(SHOWN).take_while(|byte| **byte != b'\n') {
        shown.push(match byte {
            b'\t' => ' ',
            b' '..=b'~' => char::from(*byte),
            _ => '?',
        })?;
    }
    Ok(shown)
}

/// What is to be done about a line that begins so, where it shows that.
fn remedy_of_line(front: &[u8]) -> Option<&'static str> {
    if front.starts_with(MARK) {
        Some(BYTE_ORDER_MARK)
    } else if front.trim_ascii().is_empty() {
        Some(BLANK_LINE)
    } else {
        None
    }
}

/// What is to be done about the byte of this number in a line of a text, where that shows it.
fn remedy_of_byte(text: &[u8], line: &[u8], at: usize) -> Option<&'static str> {
    if at == 0 && line.len() == text.len() && text.starts_with(MARK) {
        Some(BYTE_ORDER_MARK)
    } else if is_bare_label(line, at) {
        Some(BARE_LABEL)
    } else {
        None
    }
}

/// Whether the byte of this number stands where parameters follow a name, between the brackets of a modality: it is a parenthesis behind a name, or
/// a digit or a comma somewhere behind such a parenthesis.
fn is_bare_label(line: &[u8], at: usize) -> bool {
    let (front, rest) = line.split_at(at.min(line.len()));
    let bracket = front.iter().rev().find(|byte| b"<>[]".contains(byte));
    if !matches!(bracket, Some(b'<' | b'[')) {
        return false;
    }
    let name = match rest.first() {
        Some(b'(') => Some(front),
        Some(b',' | b'0'..=b'9') => {
            let inside = front.iter().rev().take_while(|byte| is_parameter(**byte));
            let before = front.len().saturating_sub(inside.count());
            front[..before].strip_suffix(b"(")
        }
        _ => None,
    };
    matches!(name, Some([.., last]) if is_name_byte(*last))
}

fn is_name_byte(byte: u8) -> bool {
    byte == b'_' || byte.is_ascii_alphanumeric()
}

fn is_parameter(byte: u8) -> bool {
    byte == b',' || byte == b' ' || is_name_byte(byte)
}
