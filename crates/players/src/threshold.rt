// Threshold: the lowest bin that stays within a limit.
ghost use Rattle.std.specs.Prelude.{◌≡◌, ◌+◌, IfOk, nat_le};
ghost use Rattle.players.specs.Placing.{MadeEmpty};
ghost use Rattle.players.specs.Choosing.{lowest_within};
ghost use Rattle.players.specs.Fitting.{FitsWithin};
ghost use Rattle.players.specs.Held.{held};

use crate::bins::Bins;
use crate::by_rule::{ByRule, PlacingRule};
use certificate::fault::Fault;

// Takes the lowest bin that stays within the limit with the item, else the least full bin.
#[derive(Drop)]
pub struct Threshold {
    limit: u8,
}

// Whether a bin stays within the limit with the item.
fn stays_within(load: u16, size: u16, limit: u16) -> bool
    ensures { result ≡ nat_le (load + size) limit }
{
    u32::from(load) + u32::from(size) <= u32::from(limit)
}

// The lowest bin that stays within the limit with the item.
pub fn lowest_within(loads: &[u16], size: u16, limit: u16) -> Option<usize>
    ensures { result ≡ lowest_within limit loads.now size }
{
    loads
        .iter()
        .position(|load| stays_within(*load, size, limit))
}

impl Threshold {
    // An empty player that goes by threshold, refused for a number of bins that is out of range.
    pub fn new(bins: usize, limit: u8) -> Result<ByRule<Threshold>, Fault>
        ensures empty { MadeEmpty (λ p. held p.bins) bins result }
        ensures limit { IfOk result (λ p. p.rule.limit ≡ limit) }
    {
        ByRule::new(bins, Threshold { limit })
    }
}

impl PlacingRule for Threshold {
    ghost prefers = { λ r. lowest_within r.limit };

    ghost Fits = { λ r. FitsWithin r.limit };

    #[tactic(auto, using(crate::proofs::LowestLoads::threshold_says))]
    fn preferred(&self, bins: &Bins, size: u16) -> Option<usize> {
        lowest_within(bins.loads(), size, u16::from(self.limit))
    }
}
