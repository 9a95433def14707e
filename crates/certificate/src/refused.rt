// A refusal to open a file or a book: the fault, and the bytes back.
ghost use Rattle.std.specs.Prelude.{◌≡◌};

use crate::fault::Fault;

#[derive(Drop)]
pub struct Refused {
    pub fault: Fault,
    pub bytes: Vec<u8>,
}

// By `?` the fault goes up as it is, where nobody wants the bytes.
impl From<Refused> for Fault {
    ghost from_gives = { λ e f. f ≡ e.fault };

    fn from(refused: Refused) -> Fault {
        refused.fault
    }
}
