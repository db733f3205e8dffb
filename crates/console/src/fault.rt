// What is told of a formula in a table: of one that is refused the place in the text, and of one whose text nearly says what is expected that it doesn't.

use crate::input::{lasts, open};
use crate::refusal::{Refusal, tell};
use crate::sight::front_of_line;
use crate::told::FileName;
use lts::system::Lts;
use requests::error::MuError;
use requests::texts::{look_where, parse_front, read_front};
use std::fs::File;
use std::io;
use std::io::BufReader;

/// How much of a line is looked at.
const LOOKED_AT: u64 = 80;

/// Tells where the formula of a file is at fault, as a check does. What came from standard input or a pipe can't be read again.
pub fn tell_fault(rt: &HostRuntime, system: &Lts, strict: bool, name: &str) {
    if lasts(rt, name)
        && let Some(error @ (MuError::Formula(_) | MuError::NoLabel { .. })) = fault_of(
            rt, system, strict, name,
        )
    {
        // Where standard error fails too, the line of the table tells.
        let _ = tell(rt, &[None, Some(name), None, None], &Refusal::from(error));
    }
}

/// Why the text of a file is refused when it is read anew.
fn fault_of(rt: &HostRuntime, system: &Lts, strict: bool, name: &str) -> Option<MuError> {
    let formula = open(rt, name).ok()?;
    let text = read_front(rt.alloc(), formula).ok()?;
    let refusal = parse_front(rt.alloc(), &text).err();
    refusal.or_else(|| look_where(rt.alloc(), system, &text, strict).err())
}

/// Notes that one of the first two lines nearly says what is expected, where the first one doesn't say it. What came from standard input or a pipe
/// can't be read again.
pub fn note_expectation(rt: &HostRuntime, name: &str) {
    if lasts(rt, name)
        && let Ok(true) = nearly_says(rt, name)
    {
        let name = FileName(name);
        // Where standard error fails, there is nobody to tell.
        let _ = eprintln!(rt;
            "mucheck: note: {name}: an answer is expected only where the first line is just % expect yes or % expect no"
        );
    }
}

fn nearly_says(rt: &HostRuntime, name: &str) -> io::Result<bool> {
    let mut reader = BufReader::new(rt.alloc(), File::open(rt, name)?)?;
    let first = front_of_line(rt.alloc(), &mut reader, LOOKED_AT)?;
    let second = front_of_line(rt.alloc(), &mut reader, LOOKED_AT)?;
    let line = first.trim_ascii_end();
    let says = line == b"% expect yes".as_slice() || line == b"% expect no".as_slice();
    Ok(!says && (is_near(&first) || is_near(&second)))
}

/// Whether a line says it but for blanks, colons and capital letters.
fn is_near(line: &[u8]) -> bool {
    is_loosely(line, b"%expectyes") || is_loosely(line, b"%expectno")
}

fn is_loosely(line: &[u8], words: &[u8]) -> bool {
    let bytes = line
        .iter()
        .filter(|byte| !byte.is_ascii_whitespace() && **byte != b':');
    bytes
        .map(|byte| byte.to_ascii_lowercase())
        .eq(words.iter().copied())
}
