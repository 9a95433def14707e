// The rule of a book, the player that goes by it, and the opening of a book.
ghost use Rattle.std.specs.Prelude.{◌≡◌, ℕ, ◌<◌, ◌≤◌, true, length, replicate, take, IfOk, MatchResult, slice_index};
ghost use Rattle.certificate.specs.Lawful.{most_count};
ghost use Rattle.certificate.specs.Least.{Judges};
ghost use Rattle.search.specs.Ascending.{Ascending};
ghost use Rattle.books.specs.Books.{header_bytes, book_bins, book_rows, situation_of, advised_by, advice_of, book_rules, book_judged, verdict_of, book_choice, ByBook, FitsBook};
ghost use Rattle.players.specs.Placing.{answered, by_choice, Placed};
ghost use Rattle.players.specs.Choosing.{least_full, or_least_full};
ghost use Rattle.players.specs.Held.{held};
ghost use Rattle.std.proofs.Common.{rules};

use crate::pages::{Pages, header};
use crate::situation::{Situation, compare_row};
use certificate::fault::Fault;
use certificate::refused::Refused;
use players::bins::Bins;
use players::by_rule::{ByRule, PlacingRule};
use players::player::Player;
use search::{OrderedRows, search};
use std::cmp::Ordering;

// The rule of a book: the bin of the row with the present loads and the size.
#[derive(Drop)]
pub struct Advice {
    pages: Pages,
    ghost rising: { Ascending (situation_of pages.bytes.items) (book_rows pages.bytes.items) },
    ghost known: { (i : ℕ) → i < book_rows pages.bytes.items → advised_by pages.bytes.items i < book_bins pages.bytes.items },
}

impl OrderedRows for Advice {
    type Key = Situation;

    ghost spelled = { λ s. take s.len s.slots };

    ghost rows = { λ b. book_rows b.pages.bytes.items };

    ghost key = { λ b. situation_of b.pages.bytes.items };

    ghost ascending = { Prim.search rules };

    fn len(&self) -> usize {
        self.pages.rows
    }

    fn compare(&self, row: usize, sought: &Situation) -> Ordering {
        compare_row(self.pages.situation(row), sought.numbers())
    }
}

impl PlacingRule for Advice {
    ghost prefers = { λ b. advice_of b.pages.bytes.items };

    ghost Fits = { λ b. FitsBook b.pages.bytes.items };

    fn preferred(&self, bins: &Bins, size: u16) -> Option<usize> {
        let row = search(self, &Situation::new(bins, size))?;
        Some(self.pages.advised(row))
    }
}

// Takes the bin of the row with the present loads and the size, else the least full bin.
#[derive(Drop)]
pub struct Book {
    player: ByRule<Advice>,
    ghost level: { length (held player.bins) ≡ book_bins player.rule.pages.bytes.items },
}

impl Book {
    // A player with empty bins that goes by the book, for code that takes the player of any rule; a book that is refused is
    // handed back.
    pub fn open(bytes: Vec<u8>) -> Result<ByRule<Advice>, Refused>
        ensures judged { verdict_of (λ e. e.fault) result ≡ book_judged bytes.items }
        ensures least { header_bytes ≤ length bytes.items → Judges (book_rules bytes.items) (verdict_of (λ e. e.fault) result) }
        ensures bytes { MatchResult result (λ b. b.rule.pages.bytes ≡ bytes) (λ e. e.bytes ≡ bytes) }
        ensures empty { IfOk result (λ b. held b.bins ≡ replicate (book_bins bytes.items) 0) }
    {
        Book::from_bytes(bytes).map(|book| book.player)
    }

    // The same as a `Book`, which keeps as many bins as its book has, and whose rows can be asked.
    pub fn from_bytes(bytes: Vec<u8>) -> Result<Book, Refused>
        ensures judged { verdict_of (λ e. e.fault) result ≡ book_judged bytes.items }
        ensures least { header_bytes ≤ length bytes.items → Judges (book_rules bytes.items) (verdict_of (λ e. e.fault) result) }
        ensures bytes { MatchResult result (λ b. b.player.rule.pages.bytes ≡ bytes) (λ e. e.bytes ≡ bytes) }
        ensures empty { IfOk result (λ b. held b.player.bins ≡ replicate (book_bins bytes.items) 0) }
    {
        let (bins, rows) = match header(&bytes) {
            Ok(found) => found,
            Err(fault) => return Err(Refused { fault, bytes }),
        };
        let pages = Pages {
            bytes,
            bins: bins.count(),
            rows,
        };
        if let Err(fault) = pages.check() {
            return Err(Refused {
                fault,
                bytes: pages.bytes,
            });
        }
        Ok(Book {
            player: ByRule::from_bins(bins, Advice { pages }),
        })
    }

    // The bin of the row with the present loads and the size; none where no row has them.
    pub fn advice(&self, size: u16) -> Option<usize>
        ensures answer { result ≡ advice_of self.now.player.rule.pages.bytes.items (held self.now.player.bins) size }
        ensures fits { FitsBook self.now.player.rule.pages.bytes.items (held self.now.player.bins) size (or_least_full result (held self.now.player.bins)) }
    {
        self.player.preferred(size)
    }
}

// The rows of the book that the player goes by.
impl OrderedRows for Book {
    type Key = Situation;

    ghost spelled = { λ s. take s.len s.slots };

    ghost rows = { λ b. book_rows b.player.rule.pages.bytes.items };

    ghost key = { λ b. situation_of b.player.rule.pages.bytes.items };

    ghost ascending = { Prim.search rules };

    fn len(&self) -> usize {
        self.player.rule().len()
    }

    fn compare(&self, row: usize, sought: &Situation) -> Ordering {
        self.player.rule().compare(row, sought)
    }
}

impl Player for Book {
    ghost loads = { λ p. held p.player.bins };

    ghost takes = { λ p. by_choice (book_choice p.player.rule.pages.bytes.items) };

    ghost sized = { Prim.search rules };

    ghost light = { Prim.search rules };

    fn bins(&self) -> usize {
        self.player.bins()
    }

    fn load(&self, bin: usize) -> Option<u16> {
        self.player.load(bin)
    }

    fn place(&mut self, size: u16) -> Result<usize, Fault>
        ensures placed { Placed (held self.old.player.bins) size result (held self.new.player.bins) }
        ensures ruled { IfOk result (λ b. by_choice (book_choice self.old.player.rule.pages.bytes.items) (held self.old.player.bins) size b ≡ true) }
        ensures rule_kept { by_choice (book_choice self.new.player.rule.pages.bytes.items) ≡ by_choice (book_choice self.old.player.rule.pages.bytes.items) }
        ensures chosen { result ≡ answered (held self.old.player.bins) size (book_choice self.old.player.rule.pages.bytes.items (held self.old.player.bins) size) }
        ensures fits { IfOk result (ByBook self.old.player.rule.pages.bytes.items (held self.old.player.bins) size) }
        ensures wide { (k : ℕ) → most_count < slice_index (held self.old.player.bins) k → result ≡ answered (held self.old.player.bins) size (least_full (held self.old.player.bins)) }
        ensures kept { self.new.player.rule.pages.bytes ≡ self.old.player.rule.pages.bytes }
        ensures same_rule { self.new.player.rule ≡ self.old.player.rule }
    {
        self.player.place(size)
    }
}
