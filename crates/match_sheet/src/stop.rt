// Why a match has no lines.
ghost use Rattle.std.specs.Prelude.{◌≡◌};
ghost use Rattle.match_sheet.specs.declared.stop.Stop.TheVariants.{Refused, Memory};

use certificate::fault::Fault;
use certificate::refused;
use std::alloc::AllocError;

// It was refused with a fault, or memory ran out.
#[derive(Drop)]
pub enum Stop {
    Refused(Fault),
    Memory(AllocError),
}

impl From<Fault> for Stop {
    ghost from_gives = { λ fault stop. stop ≡ Refused fault };

    fn from(fault: Fault) -> Stop {
        Stop::Refused(fault)
    }
}

impl From<refused::Refused> for Stop {
    ghost from_gives = { λ refused stop. stop ≡ Refused refused.fault };

    fn from(refused: refused::Refused) -> Stop {
        Stop::Refused(refused.fault)
    }
}

impl From<AllocError> for Stop {
    ghost from_gives = { λ error stop. stop ≡ Memory error };

    fn from(error: AllocError) -> Stop {
        Stop::Memory(error)
    }
}
