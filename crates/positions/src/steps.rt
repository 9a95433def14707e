// Positions on their way through a check: the empty one, that of a row, and the one that follows a row.
ghost use Rattle.std.specs.Prelude.{◌≡◌, ℕ, ◌<◌, ◌≤◌, length, nat_le, Option, slice_index, take_while};
ghost use Rattle.certificate.specs.Certificates.{find_row, row as row_at};
ghost use Rattle.positions.specs.Positions.{empty_loads, empty_counts, next_counts, gathered};
ghost use Rattle.positions.specs.Steps.{held, Following};

use crate::list::Numbers;
use crate::numbers::size_of;
use arrayvec::ArrayVec;
use certificate::limits::{MOST_BINS, MOST_CLASSES};
use certificate::store::Store;

#[derive(Clone, Copy)]
pub struct Position {
    pub loads: Numbers,
    pub counts: Numbers,
}

impl Position {
    // The row of a store that has the position; none where no row has it.
    pub fn row_in<S: Store>(&self, store: &S) -> Option<usize>
        ensures { result ≡ find_row (S.Store.meaning store.now) (held self.now.loads) (held self.now.counts) }
    {
        store.find(self.loads.as_slice(), self.counts.as_slice())
    }
}

// The numbers that are told of the places below `count`, without those that are missing.
fn gathered<F: Fn(usize) -> Option<u16>, const MOST: usize>(
    count: usize,
    number: F,
) -> ArrayVec<u32, MOST>
    requires callable { F.IsAlwaysCallable number }
    requires room { count ≤ MOST }
    ensures { (f : ℕ → Option ℕ) → ((k : ℕ) (r : Option ℕ) → k < count → F.post number k r → r ≡ f k) → result.items ≡ gathered f count }
{
    let mut numbers = ArrayVec::new();
    // a `for`: `extend` of a vector of fixed capacity answers a Result that cannot fail here
    for place in 0..count {
        if let Some(n) = number(place) {
            numbers.push(u32::from(n));
        }
    }
    numbers
}

// The loads of a row, none of a missing row, to be changed.
fn read_loads<S: Store>(store: &S, row: usize) -> ArrayVec<u32, MOST_BINS>
    ensures { result.items ≡ (row_at (S.Store.meaning store.now) row).loads }
{
    gathered(store.bins(), |bin| store.load(row, bin))
}

// The counts of a row, none of a missing row, to be changed.
fn read_counts<S: Store>(store: &S, row: usize) -> ArrayVec<u32, MOST_CLASSES>
    ensures { result.items ≡ (row_at (S.Store.meaning store.now) row).counts }
{
    gathered(store.classes(), |class| store.count(row, class))
}

// The loads of a row, none of a missing row.
pub fn loads_of<S: Store>(store: &S, row: usize) -> Numbers
    ensures { held result ≡ (row_at (S.Store.meaning store.now) row).loads }
{
    Numbers::of(read_loads(store, row).as_slice())
}

// The counts of a row, none of a missing row.
pub fn counts_of<S: Store>(store: &S, row: usize) -> Numbers
    ensures { held result ≡ (row_at (S.Store.meaning store.now) row).counts }
{
    Numbers::of(read_counts(store, row).as_slice())
}

// The position in which all bins are empty and nothing is placed.
pub fn empty_position<S: Store>(store: &S) -> Position
    ensures loads { held result.loads ≡ empty_loads (S.Store.meaning store.now) }
    ensures counts { held result.counts ≡ empty_counts (S.Store.meaning store.now) }
{
    Position {
        loads: Numbers::zeros(store.bins()),
        counts: Numbers::zeros(store.classes()),
    }
}

// How many loads stand before the first that is smaller.
fn place_of(loads: &[u32], load: u32) -> usize
    ensures { result ≡ length (take_while (λ other. nat_le load other) loads.now) }
{
    loads.iter().take_while(|other| **other >= load).count()
}

// One more of a class.
fn count_one(counts: &mut ArrayVec<u32, MOST_CLASSES>, class: usize)
    requires there { class < length counts.old.items }
    requires small { slice_index counts.old.items class < 65536 }
    ensures { counts.new.items ≡ next_counts counts.old.items class }
{
    counts[class] += 1;
}

// The position that follows a row when its offer goes into a bin; none of a missing row or bin.
pub fn next_position<S: Store>(store: &S, row: usize, bin: usize) -> Option<Position>
    ensures { Following (S.Store.meaning store.now) row bin result }
{
    let class = store.offered(row)?;
    let load = store.load(row, bin)?;
    let raised = u32::from(load) + u32::from(size_of(store, class));
    let mut loads = read_loads(store, row);
    loads.remove(bin);
    loads.insert(place_of(&loads, raised), raised);
    let mut counts = read_counts(store, row);
    count_one(&mut counts, class);
    Some(Position {
        loads: Numbers::of(loads.as_slice()),
        counts: Numbers::of(counts.as_slice()),
    })
}
