ghost use Rattle.std.specs.Prelude.{[], ◌++◌, ◌∷◌, ◌≡◌, ◌≤◌, IfOk, length, nat_eq};
ghost use Rattle.std.proofs.Common.{ap, rules, sym};
ghost use Rattle.std.specs.Cmp.{partial_equiv_from_equiv, Lexicographic.{nat_list_eq_equiv, pointwise, same_text}};
ghost use Rattle.std.specs.Cmp.Rules.{comparing, hashing};
ghost use Rattle.krs_types.specs.{Kind.kind_number, Name.same_name};
ghost use Rattle.std.specs.Hash as fed;

use crate::{Blob, Kind};
use std::alloc::{AllocError, Global};
use std::hash::{Hash, Hasher};
use std::marker::Model;

/// The description of a key: 4095 bytes at most.
#[derive(Drop)]
pub struct Desc {
    bytes: Blob,
}

impl Model for Desc {
    ghost use Rattle.std.specs.Prelude.{◌≤◌, length, List, ℕ};

    ghost Value = { List ℕ };

    ghost view = { λ d. d.bytes };

    ghost invariant = { λ d. length d.bytes ≤ 4095 };
}

impl Desc {
    pub fn new(bytes: Blob) -> Desc
        requires { length bytes ≤ 4095 }
        ensures { result ≡ bytes }
    {
        Desc { bytes }
    }

    pub fn as_slice(&self) -> &[u8]
        ensures value { result.now ≡ self.now }
        ensures bound { length result.now ≤ 4095 }
    {
        self.bytes.as_slice()
    }

    /// An equal value.
    pub fn copy(&self, alloc: Global) -> Result<Desc, AllocError>
        ensures { IfOk result (λ d. d ≡ self.now) }
    {
        let bytes = Blob::from_slice(alloc, self.bytes.as_slice())?;
        Ok(Desc { bytes })
    }
}

impl PartialEq for Desc {
    ghost eq = { pointwise nat_eq };

    ghost laws = { partial_equiv_from_equiv nat_list_eq_equiv };

    fn eq(&self, other: &Desc) -> bool {
        self.as_slice() == other.as_slice()
    }
}

impl Eq for Desc {
    ghost laws = { nat_list_eq_equiv };
}

impl Hash for Desc {
    ghost hash_input = { λ d. d ∷ [] };

    ghost respects_eq = { λ a b same. ap (λ d. d ∷ []) (same_text a b (sym same)) };

    fn hash<H: Hasher>(&self, state: &mut H) {
        state.write(self.as_slice());
    }
}

/// By what a key is found in a keyring. Two links of one keyring have different names.
#[derive(Drop)]
pub struct Name {
    pub kind: Kind,
    pub desc: Desc,
}

impl Name {
    /// An equal value.
    pub fn copy(&self, alloc: Global) -> Result<Name, AllocError>
        ensures { IfOk result (λ n. n ≡ self.now) }
    {
        let desc = self.desc.copy(alloc)?;
        Ok(Name {
            kind: self.kind,
            desc,
        })
    }
}

impl PartialEq for Name {
    ghost eq = { same_name };

    ghost laws = { Prim.search (comparing, rules) };

    fn eq(&self, other: &Name) -> bool {
        self.kind.number() == other.kind.number() && self.desc == other.desc
    }
}

impl Eq for Name {
    ghost laws = { Prim.search (comparing, rules) };
}

impl Hash for Name {
    ghost hash_input = { λ n. (n.desc ∷ []) ++ fed.u8 (kind_number n.kind) };

    ghost respects_eq = { Prim.search (hashing, rules) };

    /// The description at one stroke, then the type: a hasher takes whole words of it, and no two names feed it alike.
    fn hash<H: Hasher>(&self, state: &mut H) {
        self.desc.hash(state);
        state.write_u8(self.kind.number());
    }
}
