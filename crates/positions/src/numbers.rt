// The numbers of a store, 0 where a row, bin or class is missing.
ghost use Rattle.std.specs.Prelude.{◌≡◌};
ghost use Rattle.certificate.specs.Certificates.{size as type_size, load as load_in, count as count_in, offered as offered_in, packed as packed_in};
ghost use Rattle.positions.specs.Positions.{offer};

use certificate::store::Store;

#[tactic(auto, using(crate::proofs::Reading::size_read))]
pub fn size_of<S: Store>(store: &S, class: usize) -> u16
    ensures { result ≡ type_size (S.Store.meaning store.now) class }
{
    store.size(class).unwrap_or(0)
}

#[tactic(auto, using(crate::proofs::Reading::load_read))]
pub fn load_of<S: Store>(store: &S, row: usize, bin: usize) -> u16
    ensures { result ≡ load_in (S.Store.meaning store.now) row bin }
{
    store.load(row, bin).unwrap_or(0)
}

#[tactic(auto, using(crate::proofs::Reading::count_read))]
pub fn count_of<S: Store>(store: &S, row: usize, class: usize) -> u16
    ensures { result ≡ count_in (S.Store.meaning store.now) row class }
{
    store.count(row, class).unwrap_or(0)
}

#[tactic(auto, using(crate::proofs::Reading::offered_read))]
pub fn offered_by<S: Store>(store: &S, row: usize) -> usize
    ensures { result ≡ offered_in (S.Store.meaning store.now) row }
{
    store.offered(row).unwrap_or(0)
}

#[tactic(auto, using(crate::proofs::Reading::packed_read))]
pub fn packed_of<S: Store>(store: &S, row: usize, bin: usize, class: usize) -> u16
    ensures { result ≡ packed_in (S.Store.meaning store.now) row bin class }
{
    store.packed(row, bin, class).unwrap_or(0)
}

// The size that a row offers.
pub fn offer_of<S: Store>(store: &S, row: usize) -> u16
    ensures { result ≡ offer (S.Store.meaning store.now) row }
{
    size_of(store, offered_by(store, row))
}
