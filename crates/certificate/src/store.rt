// A store of a certificate's rows: what it means, and the questions that it answers.
ghost use Rattle.std.specs.Prelude.{◌≡◌, ℕ, ◌<◌, MatchOption};
ghost use Rattle.certificate.specs.Certificates.{Certificate, class_count, row_count, size_at, load_at, count_at, offered_at, packed_at, find_row, Stands};
ghost use Rattle.certificate.specs.Lawful.{Lawful};

// Rows, bins and classes count from 0; about a missing one the answer is none. No question changes anything.
pub trait Store {
    ghost meaning: { Self → Certificate };

    // m, the number of bins
    fn bins(&self) -> usize
        ensures { result ≡ (meaning self.now).bins };

    // T, the capacity of the bins that all items fit
    fn capacity(&self) -> u16
        ensures { result ≡ (meaning self.now).capacity };

    // R, the load that the offering side forces
    fn target(&self) -> u16
        ensures { result ≡ (meaning self.now).target };

    // K, the number of classes
    fn classes(&self) -> usize
        ensures { result ≡ class_count (meaning self.now) };

    // N, the number of rows
    fn rows(&self) -> usize
        ensures { result ≡ row_count (meaning self.now) };

    // the size of the items of a class
    fn size(&self, class: usize) -> Option<u16>
        ensures { result ≡ size_at (meaning self.now) class };

    // the load of a bin in a row
    fn load(&self, row: usize, bin: usize) -> Option<u16>
        ensures { result ≡ load_at (meaning self.now) row bin };

    // how many items of a class are placed in a row
    fn count(&self, row: usize, class: usize) -> Option<u16>
        ensures { result ≡ count_at (meaning self.now) row class };

    // the class that a row offers
    fn offered(&self, row: usize) -> Option<usize>
        ensures { result ≡ offered_at (meaning self.now) row };

    // how many items of a class the witness of a row puts into a packing bin
    fn packed(&self, row: usize, bin: usize, class: usize) -> Option<u16>
        ensures { result ≡ packed_at (meaning self.now) row bin class };

    // the row that has a position; none where no row has it
    fn find(&self, loads: &[u32], counts: &[u32]) -> Option<usize>
        ensures answer { result ≡ find_row (meaning self.now) loads.now counts.now }
        ensures found { MatchOption result ((i : ℕ) → Stands (meaning self.now) loads.now counts.now i → ⊥) (Stands (meaning self.now) loads.now counts.now) };

    ghost lawful: { (s : Self) → Lawful (meaning s) };
}
