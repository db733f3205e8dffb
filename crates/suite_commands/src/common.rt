// What the tests of several topics use.

ghost use Rattle.std.specs.Prelude.{◌≡◌, true};

use requests::error::MuError;
use samples::answers::answer_text;
use samples::holds;
use samples::host::Host;
use samples::writers::{AtEnd, Narrow};
use std::alloc::Global;
use std::process::Abort;

/// The answer about a text is this, or the code of the refusal and its place.
pub(crate) fn answers(rt: &impl Host, text: &str, answer: &Result<bool, MuError>, wanted: &str) {
    let found = answer_text(rt.alloc(), answer).expect(rt, "memory");
    same(rt, text, found.as_str(), wanted);
}

/// A text was written, and nothing else.
pub(crate) fn is_written(rt: &impl Abort, text: &str, out: &Narrow) {
    holds!(rt; out.taken.as_slice() == text.as_bytes(), text);
}

/// More than the commands write here.
const MOST_WRITTEN: usize = 1_000;

/// A writer that has the memory for all that is written.
pub(crate) fn ready(rt: &impl Host) -> Narrow {
    Narrow::ready(rt.alloc(), MOST_WRITTEN).expect(rt, "memory")
}

/// A writer that has so little room, and behind it fails or takes nothing.
pub(crate) fn cramped(alloc: Global, room: usize) -> Narrow {
    let mut out = Narrow::new(alloc, 4, room);
    out.at_end = if room % 2 == 0 {
        AtEnd::Fails
    } else {
        AtEnd::TakesNothing
    };
    out
}

/// W1 is told, and what was written fills the room with a beginning of the text.
pub(crate) fn is_cut(
    rt: &impl Abort,
    text: &str,
    room: usize,
    answer: &Result<bool, MuError>,
    taken: &[u8],
) {
    holds!(rt; is_unwritten(answer), text);
    holds!(rt; taken.len() == room, text);
    holds!(rt; text.as_bytes().starts_with(taken), text);
}

/// Whether a write failed.
pub(crate) fn is_unwritten(answer: &Result<bool, MuError>) -> bool {
    matches!(answer, Err(MuError::Write(_)))
}

/// What is claimed is so, or else the test tells the text.
pub(crate) fn require(rt: &impl Abort, is_so: bool, text: &str)
    ensures { is_so ≡ true }
{
    assert!(rt; is_so, "{text}");
}

/// Of a text what was found is what was wanted.
pub(crate) fn same(rt: &impl Abort, text: &str, found: &str, wanted: &str) {
    assert_eq!(rt; found, wanted, "{text}");
}
