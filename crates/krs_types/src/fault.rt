ghost use Rattle.std.specs.Prelude.{◌≡◌};
ghost use Rattle.krs_types.specs.declared.fault.Fault.TheVariants.{Memory, Refused};

use crate::Errno;
use std::alloc::{AllocError, AllocFailed};

/// Why a step inside the store failed: a growth was refused, or the rules refuse it.
#[derive(Clone, Copy, Debug, PartialEq, Eq)]
pub enum Fault {
    Memory,
    Refused(Errno),
}

impl From<AllocError> for Fault {
    ghost from_gives = { λ _ e. e ≡ Memory };

    fn from(_e: AllocError) -> Fault {
        Fault::Memory
    }
}

impl<T: Drop> From<AllocFailed<T>> for Fault {
    ghost from_gives = { λ _ e. e ≡ Memory };

    fn from(_e: AllocFailed<T>) -> Fault {
        Fault::Memory
    }
}

impl From<Errno> for Fault {
    ghost from_gives = { λ x e. e ≡ Refused x };

    fn from(e: Errno) -> Fault {
        Fault::Refused(e)
    }
}
