// A match that is ready: its question and its offer.
ghost use Rattle.std.specs.Prelude.{◌≡◌};
ghost use Rattle.game.specs.Settling.{ready_at};
ghost use Rattle.game.specs.Turns.{as_ready, Tells, Offers};

use super::{Item, Ready, Waiting};
use certificate::store::Store;
use positions::numbers::offer_of;

impl Ready {
    // A match that is ready at a row after so many settlements.
    pub(super) fn at<S: Store>(store: &S, row: usize, count: usize) -> Ready
        ensures { result ≡ ready_at (S.Store.meaning store.now) row count }
    {
        Ready {
            row,
            size: offer_of(store, row),
            count,
        }
    }

    // How many settlements were accepted.
    pub fn count(&self) -> usize
        ensures { Tells (as_ready self.now) result }
    {
        self.count
    }

    // The waiting match and the item together, both showing the size that the row offers.
    pub fn offer(self) -> (Waiting, Item)
        ensures { Offers self result.0 result.1 }
    {
        let waiting = Waiting {
            row: self.row,
            size: self.size,
            count: self.count,
        };
        let item = Item { size: self.size };
        (waiting, item)
    }
}
