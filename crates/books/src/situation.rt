// What a book is asked about: the loads of the bins and the size of the item, as one row of numbers.
ghost use Rattle.std.specs.Prelude.{◌≡◌, ◌+◌, ◌≤◌, [], ◌∷◌, ◌++◌, take};
ghost use Rattle.certificate.specs.Lawful.{most_bins};
ghost use Rattle.search.specs.Ascending.{standing};
ghost use Rattle.players.specs.Held.{held};

use certificate::limits::MOST_BINS;
use players::bins::Bins;
use std::cmp::Ordering;

// A load for each bin, and a size.
pub const MOST_NUMBERS: usize = MOST_BINS + 1;

// The loads in bin order, then the size; the slots past `len` are not used. Copied as it is, which a vector of fixed capacity
// is not.
#[derive(Clone, Copy)]
pub struct Situation {
    slots: [u16; MOST_NUMBERS],
    len: usize,
    ghost sized: { len ≤ most_bins + 1 },
}

impl Situation {
    // The present loads with an item.
    pub fn new(bins: &Bins, size: u16) -> Situation
        ensures { take result.len result.slots ≡ held bins.now ++ (size ∷ []) }
    {
        let mut slots = [0; MOST_NUMBERS];
        let loads = bins.loads();
        slots[0..loads.len()].copy_from_slice(loads);
        slots[loads.len()] = size;
        Situation {
            slots,
            len: loads.len() + 1,
        }
    }

    // The numbers of the situation.
    pub fn numbers(&self) -> &[u16]
        ensures { result.now ≡ take self.now.len self.now.slots }
    {
        &self.slots[0..self.len]
    }
}

// How a row of bytes stands to a row of numbers: the first that differs decides.
pub fn compare_row(row: &[u8], numbers: &[u16]) -> Ordering
    ensures { result ≡ standing row.now numbers.now }
{
    row.iter()
        .map(|byte| u16::from(*byte))
        .cmp(numbers.iter().copied())
}
