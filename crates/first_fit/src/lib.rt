// First fit, as an example of a rule that a reader brings: the lowest bin that the item still fits.
#![tactic(auto)]

ghost use Rattle.std.specs.Prelude.{◌≡◌, IfOk};
ghost use Rattle.players.specs.Choosing.{lowest_within};
ghost use Rattle.players.specs.Fitting.{FitsWithin};
ghost use Rattle.players.specs.Held.{held};
ghost use Rattle.players.specs.Placing.{MadeEmpty};

use certificate::fault::Fault;
use players::bins::Bins;
use players::by_rule::{ByRule, PlacingRule};
use players::threshold::lowest_within;

// Takes the lowest bin that stays within its capacity with the item, else the least full bin.
#[derive(Drop)]
pub struct FirstFit {
    capacity: u16,
}

impl FirstFit {
    // An empty player that goes by first fit, refused for a number of bins that is out of range.
    pub fn new(bins: usize, capacity: u16) -> Result<ByRule<FirstFit>, Fault>
        ensures empty { MadeEmpty (λ p. held p.bins) bins result }
        ensures capacity { IfOk result (λ p. p.rule.capacity ≡ capacity) }
    {
        ByRule::new(bins, FirstFit { capacity })
    }
}

impl PlacingRule for FirstFit {
    ghost prefers = { λ r. lowest_within r.capacity };

    ghost Fits = { λ r. FitsWithin r.capacity };

    #[tactic(auto, using(players::proofs::LowestLoads::threshold_says))]
    fn preferred(&self, bins: &Bins, size: u16) -> Option<usize> {
        lowest_within(bins.loads(), size, self.capacity)
    }
}

#[cfg(test)]
mod tests {
    use super::*;
    use players::player::Player;
    use std::test::Fail;

    // Two bins of capacity 4: each item goes to the lowest bin that it fits, the last one fits nowhere.
    #[test]
    fn lowest_bin_that_fits(rt: HostRuntime) -> Result<(), Fail> {
        let mut player = FirstFit::new(2, 4)?;
        for (size, bin) in [(3, 0), (2, 1), (1, 0), (2, 1), (3, 0)] {
            assert_eq!(rt; player.place(size)?, bin);
        }
        assert_eq!(rt; player.load(0), Some(7));
        assert_eq!(rt; player.load(1), Some(4));
        Ok(())
    }
}
