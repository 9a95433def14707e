// The bytes of a book: its header, the situation of each row, and the bin that each row advises.
ghost use Rattle.std.specs.Prelude.{◌≡◌, ℕ, ◌+◌, ◌<◌, ◌≤◌, length, take, drop, slice_index};
ghost use Rattle.certificate.specs.Lawful.{most_bins, most_count, most_rows};
ghost use Rattle.certificate.specs.Rules.{judge_all};
ghost use Rattle.books.specs.Books.{book_bins, book_rows, book_bytes, situation_of, advised_by, advice_rule, row_rules, Headed};
ghost use Rattle.players.specs.Held.{held};

use certificate::fault::Fault;
use certificate::reason::Reason;
use certificate::rule::{RuleOf, Scope, judge};
use players::bins::Bins;
use search::{KeyedRows, KeysAscend};

// m and the two bytes of N.
pub const HEADER_BYTES: usize = 3;

// A book of the right length, whose rows need not be in order yet.
#[derive(Drop)]
pub struct Pages {
    pub(crate) bytes: Vec<u8>,
    pub(crate) bins: usize,
    pub(crate) rows: usize,
    ghost small: { (bins ≤ most_bins) × (rows ≤ most_rows) },
    ghost octets: { (i : ℕ) → slice_index bytes.items i ≤ most_count },
    ghost headed: { (bins ≡ book_bins bytes.items) × (rows ≡ book_rows bytes.items) },
    ghost whole: { length bytes.items ≡ book_bytes bytes.items },
}

// The empty bins that a book is for, and its number of rows; refused for a book of another length.
pub fn header(book: &[u8]) -> Result<(Bins, usize), Fault>
    ensures { Headed held book.now result }
{
    let [bins, high, low, ..] = book else {
        return Err(Reason::BookLength.into());
    };
    let empty = Bins::new(usize::from(*bins))?;
    let rows = usize::from(u16::from_be_bytes([*high, *low]));
    if book.len() != HEADER_BYTES + rows * (usize::from(*bins) + 1) + rows {
        return Err(Reason::BookLength.into());
    }
    Ok((empty, rows))
}

// A part of some bytes.
fn part(bytes: &[u8], start: usize, len: usize) -> &[u8]
    requires { start + len ≤ length bytes.now }
    ensures { result.now ≡ take len (drop start bytes.now) }
{
    &bytes[start..start + len]
}

impl Pages {
    // The situation of a row; nothing for a missing row.
    pub fn situation(&self, row: usize) -> &[u8]
        ensures { result.now ≡ situation_of self.now.bytes.items row }
    {
        if row >= self.rows {
            return &[];
        }
        let width = self.bins + 1;
        part(&self.bytes, HEADER_BYTES + row * width, width)
    }

    // The bin that a row advises.
    pub(crate) fn advised(&self, row: usize) -> usize
        requires { row < book_rows self.now.bytes.items }
        ensures { result ≡ advised_by self.now.bytes.items row }
    {
        let bins_start = HEADER_BYTES + self.rows * (self.bins + 1);
        usize::from(self.bytes[bins_start + row])
    }

    // Passes a book whose rows are in order and advise its own bins, else names the first that is not so.
    pub fn check(&self) -> Result<(), Fault>
        ensures { result ≡ judge_all (row_rules self.now.bytes.items) }
    {
        judge(&KeysAscend(Reason::SituationOrder), self)?;
        judge(&KnownBins, self)
    }
}

impl KeyedRows for Pages {
    ghost rows = { λ p. book_rows p.bytes.items };

    ghost key = { λ p. situation_of p.bytes.items };

    fn len(&self) -> usize {
        self.rows
    }

    fn key(&self, row: usize) -> &[u8] {
        self.situation(row)
    }
}

// 19: a row advises a bin of m or more (row)
struct KnownBins;

impl RuleOf<Pages> for KnownBins {
    ghost rule = { λ _ p. advice_rule p.bytes.items };

    fn scope(&self, pages: &Pages) -> Scope {
        Scope::of(Reason::AdvisedBin, pages.rows, 1)
    }

    fn is_broken(&self, pages: &Pages, row: usize, _place: usize) -> bool {
        pages.advised(row) >= pages.bins
    }
}
