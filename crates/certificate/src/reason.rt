// Why something is refused: every number that a fault can have, by its name.
ghost use Rattle.std.specs.Prelude.{◌≡◌};
ghost use Rattle.certificate.specs.Faults.{fault, number_of};

use crate::fault::Fault;

#[derive(Clone, Copy, PartialEq, Eq, Debug)]
pub enum Reason {
    // opening a file: it is shorter than its header; m, T, R, K or N is out of its range; its length is wrong
    ShortFile = 1,
    Bins = 2,
    Capacity = 3,
    Target = 4,
    Classes = 5,
    Rows = 6,
    FileLength = 7,
    // its rows: a size is out of range or order; a load reaches R; an offered class is unknown
    Size = 8,
    Load = 9,
    Offer = 10,
    // a flat table: a position is not above the one before
    PositionOrder = 11,
    // making a player: the number of bins; a book's length, the order of its situations, or an unknown bin
    PlayerBins = 16,
    BookLength = 17,
    SituationOrder = 18,
    AdvisedBin = 19,
    // the check: the empty position has no row; loads rise; sums differ; a packing bin is overfull; a class is not
    // shared out as it should be; a position that follows has no row
    NoStart = 21,
    LoadRises = 22,
    SumsDiffer = 23,
    Overfull = 24,
    Misshared = 25,
    Stranded = 26,
    // opening a match: the empty position has no row; the player has another number of bins; a bin is not empty
    NoFirstRow = 31,
    OtherBins = 32,
    LoadedBin = 33,
    // settling: another row or size; other loads; another item; a record that is too short
    OtherRow = 34,
    OtherLoads = 35,
    OtherItem = 36,
    ShortRecord = 37,
    // placing: a size, or all loads and the size together, out of range
    ItemSize = 38,
    TotalLoad = 39,
    // a programme: its length, or a match of an unknown kind
    Programme = 40,
}

impl Reason {
    // The number that is printed.
    pub fn number(self) -> u8
        ensures { result ≡ number_of self }
    {
        self as u8
    }
}

// The fault of a reason that names no place.
impl From<Reason> for Fault {
    ghost from_gives = { λ reason f. f ≡ fault (number_of reason) 0 0 };

    fn from(reason: Reason) -> Fault {
        Fault::of(reason.number())
    }
}
