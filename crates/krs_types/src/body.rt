ghost use Rattle.std.specs.Prelude.{[], ◌≡◌, ◌≤◌, IfOk, length, vec_len};

use crate::wipe;
use std::alloc::{AllocError, Global};
use std::marker::Model;
use std::mem;

/// The bytes of a payload that a key keeps, or of an answer: 262140 at most. Profile, limits. They are wiped where they
/// are let go.
pub struct Body {
    bytes: Vec<u8>,
}

impl Model for Body {
    ghost use Rattle.std.specs.Prelude.{◌≤◌, length, List, ℕ};

    ghost Value = { List ℕ };

    ghost view = { λ b. b.bytes.items };

    ghost invariant = { λ b. length b.bytes.items ≤ 262140 };
}

impl Drop for Body {
    fn drop(self) {
        let Body { bytes } = self;
        wipe(bytes);
    }
}

impl Body {
    pub fn new(bytes: Vec<u8>) -> Self
        requires { vec_len bytes ≤ 262140 }
        ensures { result ≡ bytes.items }
    {
        Body { bytes }
    }

    pub fn as_slice(&self) -> &[u8]
        ensures value { result.now ≡ self.now }
        ensures bound { length result.now ≤ 262140 }
    {
        self.bytes.as_slice()
    }

    /// Takes all bytes out, wiped, and gives their memory back.
    pub fn clear(&mut self)
        ensures { self.new ≡ [] }
    {
        let empty = Vec::new(*self.bytes.allocator());
        wipe(mem::replace(&mut self.bytes, empty));
    }

    /// An equal value.
    pub fn copy(&self, alloc: Global) -> Result<Body, AllocError>
        ensures { IfOk result (λ b. b ≡ self.now) }
    {
        let bytes = Vec::from_slice(alloc, self.bytes.as_slice())?;
        Ok(Body { bytes })
    }
}
