// A flat table as a store: its file answers the questions, and a position is found by halving.
ghost use Rattle.std.specs.Prelude.{◌≡◌, ℕ, List, take, MatchOption};
ghost use Rattle.certificate.specs.Certificates.{row_count, position, find_row, Stands};
ghost use Rattle.flat.specs.Tables.{table_meant};
ghost use Rattle.flat.specs.TablesLemmas.{table_ascends, table_lawful};

use crate::flat_table::FlatTable;
use certificate::store::Store;
use layout::key::PositionKey;
use search::{OrderedRows, search, standing_of};
use std::cmp::Ordering;

// The rows by their positions, loads first and counts behind.
impl OrderedRows for FlatTable {
    type Key = PositionKey;

    ghost spelled = { λ k. take k.length k.bytes };

    ghost rows = { λ t. row_count (table_meant t) };

    ghost key = { λ t i. position (table_meant t) i };

    ghost ascending = { table_ascends };

    fn len(&self) -> usize {
        Store::rows(self)
    }

    fn compare(&self, row: usize, sought: &PositionKey) -> Ordering {
        standing_of(self.file.position(row), sought.as_bytes())
    }
}

// Each question goes to the file, which the language cannot delegate.
impl Store for FlatTable {
    ghost meaning = { table_meant };

    ghost lawful = { table_lawful };

    fn bins(&self) -> usize {
        self.file.bins()
    }

    fn capacity(&self) -> u16 {
        self.file.capacity()
    }

    fn target(&self) -> u16 {
        self.file.target()
    }

    fn classes(&self) -> usize {
        self.file.classes()
    }

    fn rows(&self) -> usize {
        self.file.rows()
    }

    fn size(&self, class: usize) -> Option<u16> {
        self.file.size(class)
    }

    fn load(&self, row: usize, bin: usize) -> Option<u16> {
        self.file.load(row, bin)
    }

    fn count(&self, row: usize, class: usize) -> Option<u16> {
        self.file.count(row, class)
    }

    fn offered(&self, row: usize) -> Option<usize> {
        self.file.offered(row)
    }

    fn packed(&self, row: usize, bin: usize, class: usize) -> Option<u16> {
        self.file.packed(row, bin, class)
    }

    fn find(&self, loads: &[u32], counts: &[u32]) -> Option<usize> {
        self.row_at(loads, counts)
    }
}

impl FlatTable {
    // The row that has a position: none of one with another length than the rows', or with a number above a byte.
    fn row_at(&self, loads: &[u32], counts: &[u32]) -> Option<usize>
        ensures answer { result ≡ find_row (table_meant self.now) loads.now counts.now }
        ensures found { MatchOption result ((i : ℕ) → Stands (table_meant self.now) loads.now counts.now i → ⊥) (Stands (table_meant self.now) loads.now counts.now) }
    {
        if loads.len() != self.bins() || counts.len() != self.classes() {
            return None;
        }
        let key = PositionKey::spell(loads, counts)?;
        search(self, &key)
    }
}
