// Notes on the words of a formula that no label of a system has.

use crate::told::FileName;
use formula::strange::Word;
use lts::system::Lts;
use std::io;

/// How many bytes of a word are told at most.
const TOLD: usize = 60;

/// Writes a note for each word. It names the formula's file, where that is one of several.
pub fn note_all(
    rt: HostRuntime,
    file: Option<&str>,
    system: &Lts,
    words: &[Word<'_>],
) -> io::Result<()> {
    for word in words {
        eprint!(rt; "mucheck: note: ")?;
        if let Some(file) = file {
            eprint!(rt; "{}: ", FileName(file))?;
        }
        note_one(rt, system, *word)?;
    }
    Ok(())
}

fn note_one(rt: HostRuntime, system: &Lts, word: Word<'_>) -> io::Result<()> {
    let (quote, bytes, what) = match word {
        Word::Name(bytes) => ("", bytes, " is a name in no label of this system"),
        Word::Atom(bytes) => ("\"", bytes, " is no label of this system"),
    };
    let (front, rest) = shortened(bytes);
    eprint!(rt; "{quote}{front}{rest}{quote}{what}")?;
    let Some(near) = nearest(system, word, 1).or(nearest(system, word, 2)) else {
        return eprintln!(rt; "");
    };
    let (front, rest) = shortened(near);
    eprintln!(rt; "; did you mean {quote}{front}{rest}{quote}?")
}

/// The beginning of a word, and what stands for the rest of a long one; nothing of what is no text.
fn shortened(bytes: &[u8]) -> (&str, &str) {
    let rest = if bytes.len() > TOLD { ".." } else { "" };
    let front = str::from_utf8(bytes.get(..TOLD).unwrap_or(bytes));
    (front.unwrap_or(""), rest)
}

/// The first of the system's labels, or of their names, from which so many edits make the word.
fn nearest<'a>(system: &'a Lts, word: Word<'_>, edits: usize) -> Option<&'a [u8]> {
    for number in 0..system.labels() {
        let Ok(number) = u32::try_from(number) else {
            break;
        };
        let label = system.label(number);
        let near = match word {
            Word::Name(bytes) => near_name(label.names.unwrap_or(&[]), bytes, edits),
            Word::Atom(bytes) => Some(label.bytes).filter(|label| is_near(bytes, label, edits)),
        };
        if near.is_some() {
            return near;
        }
    }
    None
}

fn near_name<'a>(names: &'a [Vec<u8>], word: &[u8], edits: usize) -> Option<&'a [u8]> {
    let mut names = names.iter().map(|name| name.as_slice());
    names.find(|name| is_near(word, name, edits))
}

/// Whether one edit, or else two, make the word from the other one, less than half as many as it has bytes.
pub(crate) fn is_near(word: &[u8], other: &[u8], edits: usize) -> bool {
    match edits {
        1 => word.len() > 2 && differ_by_one(word, other),
        _ => {
            let rests = past_edit(word, other);
            word.len() > 4 && rests.iter().any(|(one, other)| differ_by_one(one, other))
        }
    }
}

/// Whether one is made from the other one by one edit at most.
fn differ_by_one(one: &[u8], other: &[u8]) -> bool {
    let rests = past_edit(one, other);
    rests.iter().any(|(one, other)| one == other)
}

/// What is left of both behind the bytes with which they begin alike, where the other one, the one, or each of them is without its next byte.
fn past_edit<'a>(one: &'a [u8], other: &'a [u8]) -> [(&'a [u8], &'a [u8]); 3] {
    let same = one.iter().zip(other).take_while(|(a, b)| a == b).count();
    let (one, other) = (past(one, same), past(other, same));
    let (past_one, past_other) = (past(one, 1), past(other, 1));
    [(one, past_other), (past_one, other), (past_one, past_other)]
}

fn past(bytes: &[u8], count: usize) -> &[u8] {
    bytes.get(count..).unwrap_or(&[])
}
