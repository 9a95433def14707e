// Whether a row's loads are a player's: they descend, and are the player's in some order.
ghost use Rattle.std.specs.Prelude.{◌≡◌, ◌==◌};
ghost use Rattle.std.specs.List.{list_all};
ghost use Rattle.certificate.specs.Certificates.{row as row_at};
ghost use Rattle.game.specs.Loads.{often as often_in, descending, reordered as same_in_order, row_is};

use arrayvec::ArrayVec;
use certificate::limits::MOST_BINS;
use certificate::store::Store;
use players::player::{Player, borne};
use positions::steps::loads_of;

// The load of each of a player's bins.
fn borne_loads<P: Player>(player: &P) -> ArrayVec<u32, MOST_BINS>
    ensures { result.items ≡ P.Player.loads player.now }
{
    let mut loads = ArrayVec::new();
    // a `for`: a player answers by number, and `extend` answers a Result that cannot fail here
    for bin in 0..player.bins() {
        loads.push(u32::from(borne(player, bin)));
    }
    loads
}

// How often a load stands in a list.
fn often(load: u32, loads: &[u32]) -> usize
    ensures { result ≡ often_in load loads.now }
{
    loads.iter().filter(|other| **other == load).count()
}

// Whether no load is above the one before it.
fn descends(loads: &[u32]) -> bool
    ensures { result ≡ descending loads.now }
{
    loads.is_sorted_by(|load, next| next <= load)
}

// Whether each load stands as often in another list.
fn all_alike(loads: &[u32], others: &[u32]) -> bool
    ensures { result ≡ list_all (λ x. often_in x loads.now == often_in x others.now) loads.now }
{
    loads
        .iter()
        .all(|load| often(*load, loads) == often(*load, others))
}

// Whether the loads are the others in some order.
fn reordered(loads: &[u32], others: &[u32]) -> bool
    ensures { result ≡ same_in_order loads.now others.now }
{
    loads.len() == others.len() && all_alike(loads, others)
}

// Whether a row's loads descend and are the player's in some order.
pub fn row_is_at<S: Store, P: Player>(store: &S, row: usize, player: &P) -> bool
    ensures { result ≡ row_is (row_at (S.Store.meaning store.now) row).loads (P.Player.loads player.now) }
{
    let loads = loads_of(store, row);
    descends(loads.as_slice()) && reordered(loads.as_slice(), borne_loads(player).as_slice())
}
