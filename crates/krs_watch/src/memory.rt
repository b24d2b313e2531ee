ghost use Rattle.std.specs.Prelude.{◌≡◌, ◌≤◌, IsErr, IsOk};

use std::alloc::{AllocError, Global};
use std::cell::Cell;

/// Where so many bytes are lacking, or more, nothing is kept, whatever memory there is: no machine has as many to give.
pub const KEEP_NOTHING: u64 = 1 << 40;

/// How many bytes are to be left for others. No contract sees how much memory there is, nor how much of it is lacking:
/// that lies in a cell.
#[derive(Drop)]
pub struct Memory {
    lacking: Cell<u64>,
    alloc: Global,
}

/// That memory was minded, which only `Memory::mind` gives: without it no queue and no watch is kept.
#[derive(Drop)]
pub(crate) struct Minded {
    _left: (),
}

/// Whether so many bytes are left: they are taken, and given back at once.
fn are_left(alloc: Global, bytes: u64) -> Result<(), AllocError>
    ensures nothing { bytes ≡ 0 → IsOk result }
    ensures all { KEEP_NOTHING ≤ bytes → IsErr result }
{
    if bytes == 0 {
        return Ok(());
    }
    if bytes >= KEEP_NOTHING {
        return Err(AllocError);
    }
    let _left: Vec<u8> = Vec::with_capacity(alloc, bytes as usize)?;
    Ok(())
}

impl Memory {
    /// Nothing is lacking elsewhere.
    pub fn new(alloc: Global) -> Memory {
        Memory {
            lacking: Cell::new(0),
            alloc,
        }
    }

    /// From now on so many bytes are to be left for others: what would keep memory is refused where there are fewer,
    /// and from `KEEP_NOTHING` on whatever there is.
    pub fn leave(&self, bytes: u64) {
        self.lacking.set(bytes);
    }

    /// Asked before memory is kept, once nothing else refuses it: whether as much is left as is lacking elsewhere. No
    /// clause can say how much that is.
    pub fn check(&self) -> Result<(), AllocError> {
        are_left(self.alloc, self.lacking.get())
    }

    /// The same, before something is kept.
    pub(crate) fn mind(&self) -> Result<Minded, AllocError> {
        self.check()?;
        Ok(Minded { _left: () })
    }
}
