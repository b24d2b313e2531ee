ghost use Rattle.std.specs.Prelude.{[], ◌≡◌, IfOk, IsOk};
ghost use Rattle.krs_types.specs.{Kind.kind_named, Rows.names_keyrings};

use crate::{Blob, Errno, Kind};
use std::alloc::{AllocError, Global};
use std::marker::Model;

/// The name of a key's type, as a client gave it. That of a known type takes no memory, nor does an empty one.
#[derive(Drop)]
pub struct TypeName {
    given: Given,
}

/// A name that is given: an empty one, the known type that it names, or else its bytes.
#[derive(Drop)]
enum Given {
    Empty,
    Known(Kind),
    Other(Box<Blob>),
}

impl Model for TypeName {
    ghost use Rattle.std.specs.Prelude.{List, ℕ};
    ghost use Rattle.krs_types.specs.TypeName.{given_name};

    ghost Value = { List ℕ };

    ghost view = { λ t. given_name t.given };
}

impl TypeName {
    /// The name of these bytes, which are kept only where they name no known type.
    pub fn from_slice(alloc: Global, name: &[u8]) -> Result<TypeName, AllocError>
        ensures value { IfOk result (λ t. t ≡ name.now) }
        ensures memory { IsOk (kind_named name.now) → IsOk result }
        ensures empty { name.now ≡ [] → IsOk result }
    {
        if let [] = name {
            return Ok(TypeName {
                given: Given::Empty,
            });
        }
        let given = match Kind::named(name) {
            Ok(kind) => Given::Known(kind),
            Err(_) => Given::Other(Box::new(alloc, Blob::from_slice(alloc, name)?)?),
        };
        Ok(TypeName { given })
    }

    pub fn as_slice(&self) -> &[u8]
        ensures { result.now ≡ self.now }
    {
        match &self.given {
            Given::Empty => &[],
            Given::Known(kind) => kind.name().as_bytes(),
            Given::Other(name) => name.as_slice(),
        }
    }

    /// The type of this name, or its fault: `Kind::named` of its bytes.
    pub fn kind(&self) -> Result<Kind, Errno>
        ensures { result ≡ kind_named self.now }
    {
        match &self.given {
            Given::Empty => Err(Errno::EINVAL),
            Given::Known(kind) => Ok(*kind),
            Given::Other(name) => Kind::named(name.as_slice()),
        }
    }

    /// Whether it is the name of keyrings' type.
    pub fn names_keyrings(&self) -> bool
        ensures { result ≡ names_keyrings self.now }
    {
        self.as_slice() == Kind::Keyring.name().as_bytes()
    }

    /// An equal value.
    pub fn copy(&self, alloc: Global) -> Result<TypeName, AllocError>
        ensures { IfOk result (λ copy. copy ≡ self.now) }
    {
        let given = match &self.given {
            Given::Empty => Given::Empty,
            Given::Known(kind) => Given::Known(*kind),
            Given::Other(name) => Given::Other(Box::new(alloc, name.copy(alloc)?)?),
        };
        Ok(TypeName { given })
    }
}
