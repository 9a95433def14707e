// A match that waits: its questions and the forfeit.
ghost use Rattle.game.specs.Turns.{as_waiting, Tells, Shows, Forfeits};

use super::{Declined, Ended, Item, Outcome, Waiting};
use certificate::reason::Reason;

impl Waiting {
    // How many settlements were accepted.
    pub fn count(&self) -> usize
        ensures { Tells (as_waiting self.now) result }
    {
        self.count
    }

    // The size of the item on the table.
    pub fn size(&self) -> u16
        ensures { Shows self.now result }
    {
        self.size
    }

    // Ends the match; its item is spent.
    pub fn forfeit(self, item: &mut Item) -> Result<Ended, Declined>
        ensures { Forfeits self item.old result item.new }
    {
        if item.size != self.size {
            return Err(Declined {
                fault: Reason::OtherItem.into(),
                waiting: self,
            });
        }
        item.size = 0;
        Ok(Ended {
            outcome: Outcome::Forfeit,
            bin: 0,
            load: 0,
            count: self.count,
        })
    }
}
