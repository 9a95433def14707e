// Best fit: the fullest bin that stays below a target.
ghost use Rattle.std.specs.Prelude.{◌≡◌, ◌+◌, IfOk, nat_lt};
ghost use Rattle.players.specs.Placing.{MadeEmpty};
ghost use Rattle.players.specs.Choosing.{fullest_below};
ghost use Rattle.players.specs.Fitting.{BestFits};
ghost use Rattle.players.specs.Held.{held};

use crate::bins::Bins;
use crate::by_rule::{ByRule, PlacingRule};
use certificate::fault::Fault;
use std::cmp::Reverse;

// Takes the fullest bin that stays below the target with the item, else the least full bin.
#[derive(Drop)]
pub struct BestFit {
    target: u16,
}

// Whether a bin stays below the target with the item.
fn stays_below(load: u16, size: u16, target: u16) -> bool
    ensures { result ≡ nat_lt (load + size) target }
{
    u32::from(load) + u32::from(size) < u32::from(target)
}

// The fullest bin that stays below the target with the item, the lowest one on a tie.
pub fn fullest_below(loads: &[u16], size: u16, target: u16) -> Option<usize>
    ensures { result ≡ fullest_below target loads.now size }
{
    loads
        .iter()
        .enumerate()
        .filter(|(_, load)| stays_below(**load, size, target))
        .min_by_key(|(_, load)| Reverse(**load))
        .map(|(bin, _)| bin)
}

impl BestFit {
    // An empty player that goes by best fit, refused for a number of bins that is out of range.
    pub fn new(bins: usize, target: u16) -> Result<ByRule<BestFit>, Fault>
        ensures empty { MadeEmpty (λ p. held p.bins) bins result }
        ensures target { IfOk result (λ p. p.rule.target ≡ target) }
    {
        ByRule::new(bins, BestFit { target })
    }
}

impl PlacingRule for BestFit {
    ghost prefers = { λ r. fullest_below r.target };

    ghost Fits = { λ r. BestFits r.target };

    #[tactic(auto, using(crate::proofs::FullestLoads::best_fit_says))]
    fn preferred(&self, bins: &Bins, size: u16) -> Option<usize> {
        fullest_below(bins.loads(), size, self.target)
    }
}
