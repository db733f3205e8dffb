// How names of files are told on standard error.

use std::fmt;

/// A file's name as it is told: in quotes, with escapes, where it isn't plain.
#[derive(Clone, Copy)]
pub struct FileName<'a>(pub &'a str);

impl fmt::Display for FileName<'_> {
    fn fmt<W: fmt::Write>(&self, f: &mut fmt::Formatter<W>) -> fmt::Result {
        if is_plain(self.0) {
            f.write_str(self.0)
        } else {
            fmt::Debug::fmt(&self.0, f)
        }
    }
}

/// Whether a name can be told as it is, also at the end of a table's line: it has no control character, and is not taken for one in quotes or for what
/// is said of an answer.
fn is_plain(name: &str) -> bool {
    !name.chars().any(|c| c.is_control())
        && !name.starts_with("\"")
        && !name.ends_with(" as expected")
        && !name.ends_with(" UNEXPECTED")
}
