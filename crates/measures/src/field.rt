// Fields of numbers.

ghost use Rattle.std.specs.Prelude.{◌≡◌};
ghost use Rattle.measures.specs.StoredProposal.{count_in};

// All counts are less.
const COUNT_LIMIT: u64 = 4294967296;

/// Where a count stands in a number: what is left of the number, shifted to the left and then to the right by so many bits, of 64.
#[derive(Clone, Copy, Default)]
pub struct CountField {
    pub left: u32,
    pub right: u32,
}

impl CountField {
    /// The count that a number has in the field.
    #[inline(always)]
    pub(crate) fn count(self, number: u64) -> u32
        ensures { result ≡ count_in self number }
    {
        let count = number.wrapping_shl(self.left).wrapping_shr(self.right);
        (count % COUNT_LIMIT) as u32
    }
}
