// The numbers of labels that came lately.

ghost use Rattle.std.specs.Prelude.{◌<◌, IfSome};
ghost use Rattle.systems.specs.Label.{texts};
ghost use Rattle.lts.specs.Gathered.{HasLabel};

// So many numbers are kept.
const PLACES: usize = 16_384;

// So many bytes at the end of a label tell its place.
const TELLING: usize = 6;

/// Numbers of labels that came lately, each at a place that its label tells. More than one label may tell a place, so the label of a
/// number is compared.
#[derive(Drop)]
pub(crate) struct Recent {
    numbers: [u32; PLACES],
}

fn place_of(label: &[u8]) -> usize
    ensures { result < PLACES }
{
    let mut place = label.len();
    for byte in label.iter().rev().take(TELLING) {
        place = place.wrapping_mul(31).wrapping_add(usize::from(*byte));
    }
    place % PLACES
}

impl Recent {
    pub(crate) fn new() -> Recent {
        Recent {
            numbers: [0; PLACES],
        }
    }

    /// The label's number, where it stands at the label's place.
    pub(crate) fn number(&self, labels: &[Vec<u8>], label: &[u8]) -> Option<u32>
        ensures { IfSome result (λ number. HasLabel (texts labels.now) number label.now) }
    {
        let number = self.numbers[place_of(label)];
        match labels.get(number as usize) {
            Some(found) if found.as_slice() == label => Some(number),
            _ => None,
        }
    }

    pub(crate) fn put(&mut self, label: &[u8], number: u32) {
        self.numbers[place_of(label)] = number;
    }
}
