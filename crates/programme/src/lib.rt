// A programme: who plays the matches of a sheet.
#![tactic(auto)]

ghost use Rattle.std.specs.Prelude.{◌≡◌, [], ◌∷◌, slice_index};
ghost use Rattle.certificate.specs.Rules.{judged};
ghost use Rattle.certificate.specs.Least.{Judges};
ghost use Rattle.programme.specs.Programmes.{Decodes, match_count, entrant_of, programme_rule, book_at, names_book};

use certificate::fault::Fault;
use certificate::reason::Reason;
use certificate::rule::{RuleOf, Scope, judge};

// Who plays a match: best fit, threshold with its limit, or the player that goes by the book.
#[derive(Clone, Copy, PartialEq, Eq, Debug)]
pub enum Entrant {
    BestFit,
    Threshold(u8),
    Book,
}

// A kind, and the number beside it, which is a threshold's limit.
impl TryFrom<(u8, u8)> for Entrant {
    type Error = Reason;

    ghost try_from_gives = { Decodes };

    fn try_from((kind, limit): (u8, u8)) -> Result<Self, Reason> {
        match kind {
            1 => Ok(Entrant::BestFit),
            2 => Ok(Entrant::Threshold(limit)),
            3 => Ok(Entrant::Book),
            _ => Err(Reason::Programme),
        }
    }
}

// The bytes of a programme, whatever they are: P, then P kinds, then P numbers. Matches count from 1.
#[derive(Drop)]
pub struct Programme {
    bytes: Vec<u8>,
}

impl Programme {
    pub fn new(bytes: Vec<u8>) -> Programme
        ensures { result.bytes ≡ bytes }
    {
        Programme { bytes }
    }

    // A byte, 0 where there is none.
    fn byte(&self, place: usize) -> u8
        ensures { result ≡ slice_index self.now.bytes.items place }
    {
        self.bytes.get(place).copied().unwrap_or(0)
    }

    // P, the number of matches.
    pub fn matches(&self) -> u8
        ensures { result ≡ match_count self.now.bytes.items }
    {
        self.byte(0)
    }

    // Who plays a match; the fault of a match that is missing or of an unknown kind.
    pub fn entrant(&self, number: usize) -> Result<Entrant, Fault>
        ensures { result ≡ entrant_of self.now.bytes.items number }
    {
        let count = usize::from(self.matches());
        let unknown = Fault {
            first: number,
            ..Fault::from(Reason::Programme)
        };
        if !(1..=count).contains(&number) {
            return Err(unknown);
        }
        let (kind, limit) = (self.byte(number), self.byte(count + number));
        Entrant::try_from((kind, limit)).map_err(|_| unknown)
    }

    // Passes a programme of the right length whose kinds are known, else names the first thing that is wrong.
    pub fn check(&self) -> Result<(), Fault>
        ensures answer { result ≡ judged (programme_rule self.now.bytes.items) }
        ensures least { Judges (programme_rule self.now.bytes.items ∷ []) result }
    {
        judge(&Known, self)
    }

    // Whether the book plays a match.
    fn is_by_book(&self, number: usize) -> bool
        ensures { result ≡ book_at self.now.bytes.items number }
    {
        matches!(self.entrant(number), Ok(Entrant::Book))
    }

    // Whether the book plays some match.
    pub fn names_book(&self) -> bool
        ensures { result ≡ names_book self.now.bytes.items }
    {
        (1..=usize::from(self.matches())).any(|number| self.is_by_book(number))
    }
}

// The length is right, which counts as match 0, and every match is of a known kind.
struct Known;

impl RuleOf<Programme> for Known {
    ghost rule = { λ _ p. programme_rule p.bytes.items };

    fn scope(&self, programme: &Programme) -> Scope {
        Scope::of(Reason::Programme, usize::from(programme.matches()) + 1, 1)
    }

    fn is_broken(&self, programme: &Programme, number: usize, _place: usize) -> bool {
        if number == 0 {
            programme.bytes.len() != 1 + 2 * usize::from(programme.matches())
        } else {
            programme.entrant(number).is_err()
        }
    }
}
