// What a vertex line says before its successors, and which names it may have.

ghost use Rattle.std.specs.Prelude.{◌≡◌};
ghost use Rattle.std.specs.List.{list_all};
ghost use Rattle.systems.specs.Label.{is_label_byte};
ghost use Rattle.pgsolver.specs.Spelling as spec;

use crate::limits::LONGEST_NAME;
use game::player::Player;

/// What a vertex line says before its successors. A number that is too great for its type is read as the greatest one.
#[derive(Clone, Copy)]
pub(crate) struct Head {
    pub id: u32,
    pub priority: u32,
    pub owner: Player,
}

fn are_name_bytes(bytes: &[u8]) -> bool
    ensures { result ≡ list_all is_label_byte bytes.now }
{
    bytes
        .iter()
        .all(|byte| 32 <= *byte && *byte <= 126 && *byte != 34)
}

/// Whether a name may be so.
pub(crate) fn is_name(bytes: &[u8]) -> bool
    ensures { result ≡ spec.is_vertex_name bytes.now }
{
    bytes.len() <= LONGEST_NAME && are_name_bytes(bytes)
}
