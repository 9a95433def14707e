// The sums that the rules compare.
ghost use Rattle.std.specs.Prelude.{◌≡◌, ℕ, ◌<◌, ◌≤◌};
ghost use Rattle.certificate.specs.Certificates.{total};
ghost use Rattle.plan.specs.Plan.{load_sum, placed_sum, packed_sum, packed_total};

use certificate::store::Store;
use positions::numbers::{count_of, load_of, packed_of, size_of};

// The sum of so many numbers of 32 bits, each told by its place.
fn sum_of<F: Fn(usize) -> u32>(count: usize, number: F) -> u64
    requires callable { F.IsAlwaysCallable number }
    requires few { count ≤ 65535 }
    ensures { (f : ℕ → ℕ) → ((k x : ℕ) → k < count → F.post number k x → x ≡ f k) → result ≡ total f count }
{
    let mut sum = 0;
    // a `for`: by `map` and `sum`, the proof that the sum fits does not close
    for place in 0..count {
        sum += u64::from(number(place));
    }
    sum
}

// The sum of a row's loads.
pub fn sum_of_loads<S: Store>(store: &S, row: usize) -> u64
    ensures { result ≡ load_sum (S.Store.meaning store.now) row }
{
    sum_of(store.bins(), |bin| u32::from(load_of(store, row, bin)))
}

// The sum of a row's counts times their sizes.
pub fn sum_placed<S: Store>(store: &S, row: usize) -> u64
    ensures { result ≡ placed_sum (S.Store.meaning store.now) row }
{
    sum_of(store.classes(), |class| {
        u32::from(count_of(store, row, class)) * u32::from(size_of(store, class))
    })
}

// What a packing bin of a row's witness holds.
pub fn sum_packed<S: Store>(store: &S, row: usize, bin: usize) -> u64
    ensures { result ≡ packed_sum (S.Store.meaning store.now) row bin }
{
    sum_of(store.classes(), |class| {
        u32::from(packed_of(store, row, bin, class)) * u32::from(size_of(store, class))
    })
}

// How many items of a class a row's witness packs.
pub fn packed_of_class<S: Store>(store: &S, row: usize, class: usize) -> u64
    ensures { result ≡ packed_total (S.Store.meaning store.now) row class }
{
    sum_of(
        store.bins(),
        |bin| u32::from(packed_of(store, row, bin, class)),
    )
}
