// A match that has ended: its question and its result.
ghost use Rattle.std.specs.Prelude.{◌≡◌};
ghost use Rattle.game.specs.Turns.{as_ended, Tells};

use super::{Ended, Outcome};

impl Ended {
    // How many settlements were accepted.
    pub fn count(&self) -> usize
        ensures { Tells (as_ended self.now) result }
    {
        self.count
    }

    // The outcome, the last placement's bin and its load, and how many settlements were accepted.
    pub fn result(self) -> (Outcome, usize, u16, usize)
        ensures { result ≡ (self.outcome, self.bin, self.load, self.count) }
    {
        (self.outcome, self.bin, self.load, self.count)
    }
}
