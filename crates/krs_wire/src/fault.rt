ghost use Rattle.std.specs.Prelude.{◌≡◌};
ghost use Rattle.krs_wire.specs.declared.fault.WireFault.TheVariants.{Memory};

use std::alloc::{AllocError, AllocFailed};

/// Why a stream is read no further: docs/FORMAT.md, "Faults of an ask's frame". Behind a fault nothing is read.
#[derive(Clone, Copy, Debug, PartialEq, Eq)]
pub enum WireFault {
    /// The length is outside its bounds. It is known as soon as its four bytes are there.
    BadLength,
    /// The version is neither 1 nor 2.
    BadVersion,
    /// There is no such operation, or it is not carried: profile, asks not carried.
    BadOp,
    /// The body is not exactly the operation's fields, or the frame is too short for its tag.
    BadBody,
    /// An allocation was refused: out of memory.
    Memory,
}

impl From<AllocError> for WireFault {
    ghost from_gives = { λ _ fault. fault ≡ Memory };

    fn from(_error: AllocError) -> WireFault {
        WireFault::Memory
    }
}

impl<T: Drop> From<AllocFailed<T>> for WireFault {
    ghost from_gives = { λ _ fault. fault ≡ Memory };

    fn from(_error: AllocFailed<T>) -> WireFault {
        WireFault::Memory
    }
}
