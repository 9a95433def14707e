// The rows of a match: what a row offers, the first row, and the row that follows.
ghost use Rattle.std.specs.Prelude.{◌≡◌, ◌<◌, IfSome};
ghost use Rattle.certificate.specs.Certificates.{row_count};
ghost use Rattle.game.specs.Settling.{still_offers, place_of, next_row};
ghost use Rattle.game.specs.Opening.{start_row};

use certificate::store::Store;
use positions::numbers::{load_of, offer_of};
use positions::steps::{empty_position, next_position};

// Whether the store has the row and offers that size there.
pub fn offers_still<S: Store>(store: &S, row: usize, size: u16) -> bool
    ensures { result ≡ still_offers (S.Store.meaning store.now) row size }
{
    row < store.rows() && offer_of(store, row) == size
}

// The row of the empty position.
pub fn first_row<S: Store>(store: &S) -> Option<usize>
    ensures { result ≡ start_row (S.Store.meaning store.now) }
{
    empty_position(store).row_in(store)
}

// The first place of a row that has a load.
fn place_with<S: Store>(store: &S, row: usize, load: u16) -> Option<usize>
    ensures answer { result ≡ place_of (S.Store.meaning store.now) row load }
    ensures there { IfSome result (λ place. place < (S.Store.meaning store.now).bins) }
{
    (0..store.bins()).find(|place| load_of(store, row, *place) == load)
}

// The row of the next position for a bin that carried a load.
pub fn row_following<S: Store>(store: &S, row: usize, load: u16) -> Option<usize>
    requires { row < row_count (S.Store.meaning store.now) }
    ensures { result ≡ next_row (S.Store.meaning store.now) row load }
{
    let place = place_with(store, row, load)?;
    next_position(store, row, place)?.row_in(store)
}
