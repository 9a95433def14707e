// The search of rows that stand in ascending order, for every kind of row whose keys are totally ordered.
#![tactic(auto)]

ghost use Rattle.std.specs.Prelude.{◌≡◌, ℕ, ◌<◌, List, MatchOption};
ghost use Rattle.certificate.specs.Faults.{number_of};
ghost use Rattle.search.specs.Ascending.{standing, Ascending, order_rule, row_with};

use certificate::reason::Reason;
use certificate::rule::{RuleOf, Scope};
use std::cmp::Ordering;

// Rows that can be searched: each has a key, and the keys ascend strictly.
pub trait OrderedRows {
    type Key;

    // the numbers by which a key is compared, the first that differs deciding
    ghost spelled: { Self.Key → List ℕ };

    ghost rows: { Self → ℕ };

    ghost key: { Self → ℕ → List ℕ };

    fn len(&self) -> usize
        ensures { result ≡ rows self.now };

    // How the key of a row stands to the one that is sought.
    fn compare(&self, row: usize, sought: &Self::Key) -> Ordering
        ensures { result ≡ standing (key self.now row) (spelled sought.now) };

    ghost ascending: { (s : Self) → Ascending (key s) (rows s) };
}

// The row that has a key, by halving; none where no row has it.
pub fn search<T: OrderedRows>(table: &T, sought: &T::Key) -> Option<usize>
    ensures answer { result ≡ row_with (T.OrderedRows.key table.now) (T.OrderedRows.rows table.now) (T.OrderedRows.spelled sought.now) }
{
    let mut low = 0;
    let mut high = table.len();
    // the halving itself: rows are asked by number, and there is no slice for `binary_search_by`
    while low < high {
        let middle = low + (high - low) / 2;
        match table.compare(middle, sought) {
            Ordering::Less => low = middle + 1,
            Ordering::Equal => return Some(middle),
            Ordering::Greater => high = middle,
        }
    }
    None
}

// Rows that have byte strings for keys, in whatever order they stand.
pub trait KeyedRows {
    ghost rows: { Self → ℕ };

    ghost key: { Self → ℕ → List ℕ };

    fn len(&self) -> usize
        ensures { result ≡ rows self.now };

    // The key of a row; nothing where the row is missing.
    fn key(&self, row: usize) -> &[u8]
        ensures { result.now ≡ key self.now row };
}

// The rule that each key stands above the one before; what breaks it is refused for this reason, at the later row.
#[derive(Clone, Copy)]
pub struct KeysAscend(pub Reason);

impl<T: KeyedRows> RuleOf<T> for KeysAscend {
    ghost rule = { λ r t. order_rule (number_of r.0) (T.KeyedRows.key t) (T.KeyedRows.rows t) };

    fn scope(&self, table: &T) -> Scope {
        Scope::of(self.0, table.len(), 1)
    }

    fn is_broken(&self, table: &T, row: usize, _place: usize) -> bool {
        row > 0 && standing_of(table.key(row - 1), table.key(row)) != Ordering::Less
    }
}

// How two byte strings stand to each other.
pub fn standing_of(a: &[u8], b: &[u8]) -> Ordering
    ensures { result ≡ standing a.now b.now }
{
    a.cmp(&b)
}
