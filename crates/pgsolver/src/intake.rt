// A vertex line as it is read: at once where it stands whole in the block at hand, as tools write it, and else token by token.

ghost use Rattle.std.specs.Prelude.{MatchResult};
ghost use Rattle.text.specs.Cause.{HasCause};
ghost use Rattle.text.specs.Lines.{IfKnown};
ghost use Rattle.text.specs.declared.error.ReadFault.TheVariants as reads;
ghost use Rattle.pgsolver.specs.Passes.{PassesVertex};
ghost use Rattle.pgsolver.specs.Plain.{PassesPgAtHand};

use crate::plain::{PlainVertexLine, plain_line};
use crate::scan::Head;
use crate::tokens::by_tokens;
use std::io::ErrorKind;
use text::error::ReadFault;
use text::source::Blocks;

// Reads the line that is next where it stands whole in the block at hand, as tools write it. Else it takes nothing.
fn at_hand<B: Blocks>(reader: &mut B, targets: &mut Vec<u32>) -> Result<Option<Head>, ReadFault>
    ensures { MatchResult result (λ found. IfKnown (B.remaining reader.old) (B.remaining reader.new) (PassesPgAtHand targets.new.items found))
        (HasCause B.can_fail reads.Read) }
{
    let block = match reader.fill_buf() {
        Ok(block) => block,
        Err(error) if error.kind() == ErrorKind::Interrupted => return Ok(None),
        Err(_) => return Err(reader.fault()),
    };
    let Some(line) = plain_line(block, targets)? else {
        return Ok(None);
    };
    let PlainVertexLine { head, len } = line;
    reader.consume(len);
    Ok(Some(head))
}

/// Reads the line that is next as a vertex line, if it has the shape of one. Its successors are put into the list, where one that stands twice may be
/// once.
pub(crate) fn vertex<B: Blocks>(
    reader: &mut B,
    kept: &mut Vec<u8>,
    targets: &mut Vec<u32>,
) -> Result<Option<Head>, ReadFault>
    ensures { MatchResult result (λ found. IfKnown (B.remaining reader.old) (B.remaining reader.new) (PassesVertex targets.new.items found))
        (HasCause B.can_fail reads.Read) }
{
    match at_hand(reader, targets)? {
        Some(head) => Ok(Some(head)),
        None => by_tokens(reader, kept, targets),
    }
}
