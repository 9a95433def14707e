// The printed sheet.
ghost use Rattle.std.specs.Prelude.{◌≡◌, ℕ, false, List, IfOk, string_bytes};
ghost use Rattle.programme.specs.Programmes.{names_book};
ghost use Rattle.sheet.specs.Judging.{JudgedAs};
ghost use Rattle.match_sheet.specs.Sheet.{sheet};

use crate::judgement::Checked;
use crate::matches::Matches;
use certificate::fault::Fault;
use certificate::store::Store;
use lines::{accepted_line, refused_line};
use programme::Programme;
use std::alloc::{AllocError, Global};

// What is printed of a certificate, judged before, with a programme and a book.
pub fn sheet_of(
    heap: Global,
    judged: Result<Checked, Fault>,
    programme: &Programme,
    book: &[u8],
) -> Result<String, AllocError>
    ensures { (file : List ℕ) → JudgedAs file judged → IfOk result (λ s. string_bytes s ≡ sheet file programme.now.bytes.items book.now) }
{
    let checked = match judged {
        Ok(checked) => checked,
        Err(fault) => return refused_line(heap, fault),
    };
    let accepted = accepted_line(heap, checked.verdict)?;
    let matches = Matches {
        heap,
        store: &checked.table,
        programme,
        book,
    };
    let rest = matches.text()?;
    format!(in heap; "{accepted}{rest}")
}

// Whether some match goes by the book; where none does, the sheet is the same with every book, so none need be read.
pub fn wants_book(programme: &Programme) -> bool
    ensures answer { result ≡ names_book programme.now.bytes.items }
    ensures idle { result ≡ false → (file book other : List ℕ) → sheet file programme.now.bytes.items book ≡ sheet file programme.now.bytes.items other }
{
    programme.names_book()
}
