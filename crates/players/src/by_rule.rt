// A rule that places items, and the player that goes by it.
ghost use Rattle.std.specs.Prelude.{◌≡◌, ℕ, Bool, true, List, Option, IfOk};
ghost use Rattle.players.specs.Placing.{answered, by_choice, Placed, MadeEmpty};
ghost use Rattle.players.specs.Choosing.{or_least_full, preferring};
ghost use Rattle.players.specs.Held.{held};
ghost use Rattle.std.proofs.Common.{rules};

use crate::bins::Bins;
use crate::player::Player;
use certificate::fault::Fault;

// Where a rule prefers no bin that is there, the item goes to the least full one.
pub trait PlacingRule {
    // the bin that the rule prefers at some loads for a size, if any
    ghost prefers: { Self → List ℕ → ℕ → Option ℕ };

    // what is true of the bin that takes an item of a size at some loads
    ghost Fits: { Self → List ℕ → ℕ → ℕ → Type 0 };

    fn preferred(&self, bins: &Bins, size: u16) -> Option<usize>
        ensures answer { result ≡ prefers self.now (held bins.now) size }
        ensures fits { Fits self.now (held bins.now) size (or_least_full result (held bins.now)) };
}

// Takes the bin that its rule prefers, else the least full one.
#[derive(Drop)]
pub struct ByRule<R> {
    bins: Bins,
    rule: R,
}

impl<R: PlacingRule + Drop> ByRule<R> {
    // An empty player that goes by a rule, refused for a number of bins that is out of range.
    pub fn new(bins: usize, rule: R) -> Result<ByRule<R>, Fault>
        ensures empty { MadeEmpty (λ p. held p.bins) bins result }
        ensures rule { IfOk result (λ p. p.rule ≡ rule) }
    {
        let bins = Bins::new(bins)?;
        Ok(ByRule::from_bins(bins, rule))
    }
}

impl<R: PlacingRule> ByRule<R> {
    // The player of these bins that goes by a rule.
    pub fn from_bins(bins: Bins, rule: R) -> ByRule<R>
        ensures { result ≡ record { bins = bins; rule = rule } }
    {
        ByRule { bins, rule }
    }

    // The rule that the player goes by.
    pub fn rule(&self) -> &R
        ensures { result.now ≡ self.now.rule }
    {
        &self.rule
    }

    // The bin that the rule prefers at the present loads.
    pub fn preferred(&self, size: u16) -> Option<usize>
        ensures answer { result ≡ R.prefers self.now.rule (held self.now.bins) size }
        ensures fits { R.Fits self.now.rule (held self.now.bins) size (or_least_full result (held self.now.bins)) }
    {
        self.rule.preferred(&self.bins, size)
    }
}

impl<R: PlacingRule> Player for ByRule<R> {
    ghost loads = { λ p. held p.bins };

    ghost takes = { λ p. by_choice (preferring (R.prefers p.rule)) };

    ghost sized = { Prim.search rules };

    ghost light = { Prim.search rules };

    fn bins(&self) -> usize {
        self.bins.count()
    }

    fn load(&self, bin: usize) -> Option<u16> {
        self.bins.get(bin)
    }

    fn place(&mut self, size: u16) -> Result<usize, Fault>
        ensures placed { Placed (held self.old.bins) size result (held self.new.bins) }
        ensures ruled { IfOk result (λ b. by_choice (preferring (R.prefers self.old.rule)) (held self.old.bins) size b ≡ true) }
        ensures rule_kept { by_choice (preferring (R.prefers self.new.rule)) ≡ by_choice (preferring (R.prefers self.old.rule)) }
        ensures chosen { result ≡ answered (held self.old.bins) size (preferring (R.prefers self.old.rule) (held self.old.bins) size) }
        ensures fits { IfOk result (R.Fits self.old.rule (held self.old.bins) size) }
        ensures kept { self.new.rule ≡ self.old.rule }
    {
        let preferred = self.preferred(size);
        self.bins.place(size, preferred)
    }
}
