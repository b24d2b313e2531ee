ghost use Rattle.std.specs.Prelude.{◌≡◌, ◌≤◌, IfOk, length};
ghost use Rattle.std.proofs.Common.{rules};
ghost use Rattle.std.specs.Cmp.Rules.{comparing};
ghost use Rattle.krs_types.specs.Name.{same_name};
ghost use Rattle.krs_links.specs.Seeded.{name_digest};

use crate::Seed;
use krs_types::{Kind, Name};
use std::alloc::{AllocError, Global};
use std::hash::{BuildHasher, DefaultHasher, Hash, Hasher};
use std::marker::Model;

/// Hashes the names of asks from a seed: it keeps the hasher that has taken the seed in. A contract sees the seed.
#[derive(Drop)]
pub struct NameHasher {
    seed: Seed,
    begun: DefaultHasher,
}

impl Model for NameHasher {
    ghost use Rattle.std.specs.Prelude.{◌≡◌};
    ghost use Rattle.krs_links.specs.{Seeded.first_hasher, declared.seed.Seed.Seed};

    ghost Value = { Seed };

    ghost view = { λ h. h.seed };

    ghost invariant = { λ h. h.begun ≡ first_hasher h.seed };
}

impl NameHasher {
    pub fn new(seed: Seed) -> NameHasher
        ensures { result ≡ seed }
    {
        let begun = seed.build_hasher();
        NameHasher { seed, begun }
    }

    pub fn seed(&self) -> Seed
        ensures { result ≡ self.now }
    {
        self.seed
    }

    /// A name, hashed.
    #[tactic(auto, unfolding(crate::specs::Seeded::name_digest))]
    pub fn hashed(&self, name: Name) -> HashedName
        ensures { result ≡ name }
    {
        let mut hasher = self.begun;
        name.hash(&mut hasher);
        let digest = hasher.finish();
        HashedName {
            name,
            digest,
            seed: self.seed,
        }
    }
}

/// A name with what it hashes to, so that it is hashed once, however many keyrings are looked into. A contract sees the
/// name.
#[derive(Drop)]
pub struct HashedName {
    name: Name,
    digest: u64,
    /// From which it was hashed.
    seed: Seed,
}

impl Model for HashedName {
    ghost use Rattle.std.specs.Prelude.{◌≡◌};
    ghost use Rattle.krs_types.specs.declared.name.Name.{Name};

    ghost Value = { Name };

    ghost use Rattle.krs_links.specs.Seeded.{name_digest};

    ghost view = { λ h. h.name };

    ghost invariant = { λ h. h.digest ≡ name_digest h.seed h.name };
}

impl HashedName {
    /// A name, hashed from a seed.
    pub fn new(name: Name, seed: Seed) -> HashedName
        ensures { result ≡ name }
    {
        let digest = seed.digest_of(&name);
        HashedName { name, digest, seed }
    }

    pub fn as_name(&self) -> &Name
        ensures { result.now ≡ self.now }
    {
        &self.name
    }

    pub fn into_name(self) -> Name
        ensures { result ≡ self }
    {
        self.name
    }

    /// The type of its key.
    pub fn kind(&self) -> Kind
        ensures { result ≡ self.now.kind }
    {
        self.name.kind
    }

    /// The description of its key.
    pub fn desc(&self) -> &[u8]
        ensures value { result.now ≡ self.now.desc }
        ensures bound { length result.now ≤ 4095 }
    {
        self.name.desc.as_slice()
    }

    /// An equal name, which isn't hashed again.
    pub fn copy(&self, alloc: Global) -> Result<HashedName, AllocError>
        ensures { IfOk result (λ n. n ≡ self.now) }
    {
        let name = self.name.copy(alloc)?;
        Ok(HashedName {
            name,
            digest: self.digest,
            seed: self.seed,
        })
    }

    /// What it hashes to from a seed. From its own that is known.
    pub(crate) fn digest_from(&self, seed: &Seed) -> u64
        ensures { result ≡ name_digest seed.now self.now }
    {
        if self.seed.is(seed) {
            self.digest
        } else {
            seed.digest_of(&self.name)
        }
    }
}

impl PartialEq for HashedName {
    ghost eq = { same_name };

    ghost laws = { Prim.search (comparing, rules) };

    fn eq(&self, other: &HashedName) -> bool {
        self.name == other.name
    }
}
