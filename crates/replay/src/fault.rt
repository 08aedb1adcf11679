// Why a line has no answer of its own.
ghost use Rattle.std.specs.Prelude.{◌≡◌};
ghost use Rattle.replay.specs.declared.fault.Fault.TheVariants.{Unreadable, Refused as RefusedCall, Memory};

use rights::Refusal;
use std::alloc::{AllocError, AllocFailed};
use std::num::ParseIntError;

#[derive(Drop)]
pub enum Fault {
    // The line names no call, or what the call is made on is missing.
    Unreadable,
    // The call was refused.
    Refused(Refusal),
    Memory(AllocError),
}

impl From<Refusal> for Fault {
    ghost from_gives = { λ e r. r ≡ RefusedCall e };

    fn from(refusal: Refusal) -> Fault {
        Fault::Refused(refusal)
    }
}

impl From<ParseIntError> for Fault {
    ghost from_gives = { λ _ r. r ≡ Unreadable };

    fn from(_e: ParseIntError) -> Fault {
        Fault::Unreadable
    }
}

impl From<AllocError> for Fault {
    ghost from_gives = { λ e r. r ≡ Memory e };

    fn from(e: AllocError) -> Fault {
        Fault::Memory(e)
    }
}

impl<T: Drop> From<AllocFailed<T>> for Fault {
    fn from(_e: AllocFailed<T>) -> Fault {
        Fault::Memory(AllocError)
    }
}
