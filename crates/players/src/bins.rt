// The loads of 2 to 8 bins, as every player here holds them.
ghost use Rattle.std.specs.Prelude.{◌≡◌, ◌<◌, ◌≤◌, length, take, sum};
ghost use Rattle.certificate.specs.Lawful.{most_bins};
ghost use Rattle.players.specs.Placing.{least_bins, most_total};
ghost use Rattle.players.specs.Choosing.{least_full};
ghost use Rattle.players.specs.Fitting.{LeastFull};

use certificate::limits::MOST_BINS;

mod methods;

// The limits of a placing: the size of an item, and all loads together. The bins are as many as a certificate can have.
pub const MOST_SIZE: u16 = 127;

pub const MOST_TOTAL: u16 = 4095;

// The load of each bin; the slots past the last bin are not used. Copied as it is, which a vector of fixed capacity is not.
#[derive(Copy)]
pub struct Bins {
    slots: [u16; MOST_BINS],
    count: usize,
    ghost sized: { (least_bins ≤ count) × (count ≤ most_bins) },
    ghost slotted: { length (take count slots) ≡ count },
    ghost light: { sum (take count slots) ≤ most_total },
}

// The least full bin, the lowest one on a tie.
pub fn least_full(loads: &[u16]) -> usize
    ensures answer { result ≡ least_full loads.now }
    ensures least { 0 < length loads.now → LeastFull loads.now result }
{
    let least = loads.iter().enumerate().min_by_key(|(_, load)| **load);
    least.map_or(0, |(bin, _)| bin)
}
