// What bins can do: tell their loads, and take an item.
ghost use Rattle.std.specs.Prelude.{⊤, ◌≡◌, ◌<◌, length, Ok, sum};
ghost use Rattle.players.specs.Placing.{declined, load_of, raised, answered, Placed, MadeEmpty};
ghost use Rattle.players.specs.Choosing.{or_least_full};
ghost use Rattle.players.specs.Held.{held};

use super::{Bins, MOST_SIZE, MOST_TOTAL, least_full};
use certificate::fault::Fault;
use certificate::limits::{LEAST_BINS, MOST_BINS};
use certificate::reason::Reason;
use std::alloc::AllocError;

impl Bins {
    // Empty bins, refused for a number of bins that is out of range.
    pub fn new(count: usize) -> Result<Bins, Fault>
        ensures { MadeEmpty held count result }
    {
        if !(LEAST_BINS..=MOST_BINS).contains(&count) {
            return Err(Reason::PlayerBins.into());
        }
        Ok(Bins {
            slots: [0; MOST_BINS],
            count,
        })
    }

    // How many bins there are.
    pub fn count(&self) -> usize
        ensures { result ≡ length (held self.now) }
    {
        self.loads().len()
    }

    // The load of each bin.
    pub fn loads(&self) -> &[u16]
        ensures { result.now ≡ held self.now }
    {
        &self.slots[0..self.count]
    }

    // The load of a bin; none for a missing bin.
    pub fn get(&self, bin: usize) -> Option<u16>
        ensures { result ≡ load_of (held self.now) bin }
    {
        self.loads().get(bin).copied()
    }

    // All loads together.
    pub fn total(&self) -> u16
        ensures { result ≡ sum (held self.now) }
    {
        self.loads().iter().sum()
    }

    // Passes an item that may be placed; the fault that declines any other.
    pub fn admit(&self, size: u16) -> Result<(), Fault>
        ensures { result ≡ declined (held self.now) size }
    {
        if !(1..=MOST_SIZE).contains(&size) {
            return Err(Reason::ItemSize.into());
        }
        if self.total() + size > MOST_TOTAL {
            return Err(Reason::TotalLoad.into());
        }
        Ok(())
    }

    // The bin that is preferred, if there is such a bin, else the least full one.
    fn choose(&self, preferred: Option<usize>) -> usize
        ensures answer { result ≡ or_least_full preferred (held self.now) }
        ensures there { result < length (held self.now) }
    {
        preferred
            .filter(|bin| *bin < self.count())
            .unwrap_or_else(|| least_full(self.loads()))
    }

    // Adds an item that is not declined to a bin.
    fn raise(&mut self, bin: usize, size: u16)
        requires { (bin < length (held self.old)) × (declined (held self.old) size ≡ Ok tt) }
        ensures { held self.new ≡ raised (held self.old) bin size }
    {
        self.slots[bin] += size;
    }

    // Puts an item into the bin that is preferred, if there is such a bin, else into the least full one.
    pub fn place(&mut self, size: u16, preferred: Option<usize>) -> Result<usize, Fault>
        ensures placed { Placed (held self.old) size result (held self.new) }
        ensures chosen { result ≡ answered (held self.old) size (or_least_full preferred (held self.old)) }
    {
        self.admit(size)?;
        let bin = self.choose(preferred);
        self.raise(bin, size);
        Ok(bin)
    }
}

// The same bins again; this needs no memory.
impl Clone for Bins {
    ghost is_clone = { λ bins copy. copy ≡ bins };

    ghost is_infallible = { λ _. ⊤ };

    fn clone(&self) -> Result<Self, AllocError> {
        Ok(*self)
    }
}
