ghost use Rattle.std.specs.Prelude.{◌≡◌, Some};
ghost use Rattle.certificate.specs.Faults.{fault, fault_text};

use std::error::Error;
use std::fmt;

// A refusal: its number and two places, each 0 where the number names none.
#[derive(Clone, Copy, PartialEq, Eq, Debug)]
pub struct Fault {
    pub number: u8,
    pub first: usize,
    pub second: usize,
}

impl Fault {
    // The fault of a number that names no place.
    pub fn of(number: u8) -> Fault
        ensures { result ≡ fault number 0 0 }
    {
        Fault {
            number,
            first: 0,
            second: 0,
        }
    }
}

// The number and both places, as the sheet prints them.
impl fmt::Display for Fault {
    ghost output = { λ f. Some (fault_text f) };

    fn fmt<W: fmt::Write>(&self, f: &mut fmt::Formatter<W>) -> fmt::Result {
        let Fault {
            number,
            first,
            second,
        } = *self;
        write!(f, "{number} {first} {second}")
    }
}

impl Error for Fault {}
