ghost use Rattle.std.specs.Prelude.{◌≡◌, IfOk};

use crate::wipe;
use std::alloc::{AllocError, Global};
use std::marker::Model;

/// Bytes as a client gave them, of any length. They are wiped where they are let go.
pub struct Blob {
    bytes: Vec<u8>,
}

impl Model for Blob {
    ghost use Rattle.std.specs.Prelude.{List, ℕ};

    ghost Value = { List ℕ };

    ghost view = { λ b. b.bytes.items };
}

impl Drop for Blob {
    fn drop(self) {
        let Blob { bytes } = self;
        wipe(bytes);
    }
}

impl Blob {
    pub fn new(bytes: Vec<u8>) -> Self
        ensures { result ≡ bytes.items }
    {
        Blob { bytes }
    }

    pub fn from_slice(alloc: Global, bytes: &[u8]) -> Result<Blob, AllocError>
        ensures { IfOk result (λ b. b ≡ bytes.now) }
    {
        Ok(Blob {
            bytes: Vec::from_slice(alloc, bytes)?,
        })
    }

    pub fn as_slice(&self) -> &[u8]
        ensures { result.now ≡ self.now }
    {
        self.bytes.as_slice()
    }

    pub fn into_vec(self) -> Vec<u8>
        ensures { result.items ≡ self }
    {
        let Blob { bytes } = self;
        bytes
    }

    /// An equal value.
    pub fn copy(&self, alloc: Global) -> Result<Blob, AllocError>
        ensures { IfOk result (λ copy. copy ≡ self.now) }
    {
        Blob::from_slice(alloc, self.as_slice())
    }
}
