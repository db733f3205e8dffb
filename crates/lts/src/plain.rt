// A line as tools write it, `(12,"label",34)` and an LF, read off a block at once.

ghost use Rattle.std.specs.Prelude.{◌≡◌, ◌≤◌, ◌++◌, length, drop, IfSome, IsTrue};
ghost use Rattle.std.specs.List.{prefix_len, list_all};
ghost use Rattle.lts.specs.Plain.{is_inner, IsPlainThen};

use text::scan::number_here;

/// What such a line says, and how many bytes it has with its LF.
#[derive(Clone, Copy)]
pub(crate) struct PlainTransitionLine<'a> {
    pub source: u32,
    pub label: &'a [u8],
    pub target: u32,
    pub len: usize,
}

// What follows the sign, if it stands in front.
fn past<'a>(bytes: &'a [u8], sign: &[u8]) -> Option<&'a [u8]>
    ensures { IfSome result (λ rest. bytes.now ≡ sign.now ++ rest.now) }
{
    bytes.strip_prefix(sign)
}

// How many bytes of a label stand in front.
fn inner(bytes: &[u8]) -> usize
    ensures count { result ≡ prefix_len is_inner bytes.now }
    ensures within { result ≤ length bytes.now }
{
    bytes
        .iter()
        .take_while(|byte| **byte >= b' ' && **byte != b'"')
        .count()
}

// The bytes of a label in front, and what follows them.
fn label(bytes: &[u8]) -> (&[u8], &[u8])
    ensures cut { bytes.now ≡ result.0.now ++ result.1.now }
    ensures inner { IsTrue (list_all is_inner result.0.now) }
{
    bytes.split_at(inner(bytes))
}

/// The plain line in front of the block, if one stands there whole.
pub(crate) fn plain_line(block: &[u8]) -> Option<PlainTransitionLine<'_>>
    ensures plain { IfSome result (λ line. IsPlainThen line.source line.label.now line.target block.now (drop line.len block.now)) }
    ensures within { IfSome result (λ line. line.len ≤ length block.now) }
{
    let rest = past(block, b"(")?;
    let (source, rest) = number_here(rest)?;
    let rest = past(rest, b",\"")?;
    let (label, rest) = label(rest);
    let rest = past(rest, b"\",")?;
    let (target, rest) = number_here(rest)?;
    let rest = past(rest, b")\n")?;
    Some(PlainTransitionLine {
        source,
        label,
        target,
        len: block.len() - rest.len(),
    })
}
