// The interface of every player: the loads that it means, and how it places an item.
ghost use Rattle.std.specs.Prelude.{◌≡◌, ℕ, ◌≤◌, Bool, true, List, length, IfOk, sum, slice_index};
ghost use Rattle.certificate.specs.Lawful.{most_bins};
ghost use Rattle.players.specs.Placing.{least_bins, most_total, load_of, Placed};

use certificate::fault::Fault;

// Bins count from 0. Only placing changes a load, and nothing changes the rule.
pub trait Player {
    // the load of each bin, in their order
    ghost loads: { Self → List ℕ };

    // whether the player's rule lets a bin take an item of a size at some loads; any bin where a player says nothing
    ghost takes: { Self → List ℕ → ℕ → ℕ → Bool } = { λ _ _ _ _. true };

    // m, the number of bins
    fn bins(&self) -> usize
        ensures { result ≡ length (loads self.now) };

    // the load of a bin; none for a missing bin
    fn load(&self, bin: usize) -> Option<u16>
        ensures { result ≡ load_of (loads self.now) bin };

    // Puts an item into one bin and answers which; a declined item changes nothing.
    fn place(&mut self, size: u16) -> Result<usize, Fault>
        ensures placed { Placed (loads self.old) size result (loads self.new) }
        ensures ruled { IfOk result (λ b. takes self.old (loads self.old) size b ≡ true) }
        ensures rule_kept { takes self.new ≡ takes self.old };

    ghost sized: { (p : Self) → (least_bins ≤ length (loads p)) × (length (loads p) ≤ most_bins) };

    ghost light: { (p : Self) → sum (loads p) ≤ most_total };
}

// The load of a player's bin, 0 of a missing one.
pub fn borne<P: Player>(player: &P, bin: usize) -> u16
    ensures { result ≡ slice_index (P.Player.loads player.now) bin }
{
    player.load(bin).unwrap_or(0)
}
