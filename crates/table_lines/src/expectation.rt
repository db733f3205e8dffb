// What the first line of a formula's text says is expected.

ghost use Rattle.std.specs.Prelude.{◌≡◌, ◌≤◌, length};
ghost use Rattle.std.specs.List.{prefix_len};
ghost use Rattle.text.specs.Text.{is_blank};
ghost use Rattle.text.specs.Tokens.{past_blanks};
ghost use Rattle.table_lines.specs.Table as spec;

use text::bytes::is_blank;

/// The answer that the text's first line says is expected: `% expect yes` or `% expect no`.
pub(crate) fn expectation(text: &[u8]) -> Option<bool>
    ensures { result ≡ spec.expectation text.now }
{
    if has_first_line(text, b"% expect yes") {
        Some(true)
    } else if has_first_line(text, b"% expect no") {
        Some(false)
    } else {
        None
    }
}

/// Whether the text's first line is this one, but for blanks at its end.
fn has_first_line(text: &[u8], line: &[u8]) -> bool
    ensures { result ≡ spec.has_first_line text.now line.now }
{
    text.starts_with(line) && is_line_end(past_blanks(&text[line.len()..]))
}

/// How many blanks stand in front.
fn blanks(bytes: &[u8]) -> usize
    ensures count { result ≡ prefix_len is_blank bytes.now }
    ensures within { result ≤ length bytes.now }
{
    bytes.iter().take_while(|byte| is_blank(**byte)).count()
}

/// The bytes past the blanks.
fn past_blanks(bytes: &[u8]) -> &[u8]
    ensures { result.now ≡ past_blanks bytes.now }
{
    let (_, rest) = bytes.split_at(blanks(bytes));
    rest
}

/// Whether a line ends here.
fn is_line_end(bytes: &[u8]) -> bool
    ensures { result ≡ spec.is_line_end bytes.now }
{
    matches!(bytes, [] | [b'\n', ..] | [b'\r', b'\n', ..])
}
