//! The keyrings that JOIN made and that aren't revoked, by their descriptions.
ghost use Rattle.std.specs.Prelude.{[], ◌≡◌, OnErr, OnOk, Some};
ghost use Rattle.krs_model.specs.Table.{alter};
ghost use Rattle.krs_links.specs.Seeded.{digest};
ghost use Rattle.krs_keys.specs.{Changes.changed, Places.by_place};
ghost use Rattle.krs_keys.specs.Sessions.{AreOfDigest, AreSessions, HoldsSerials, ListsKey, session_digest, UnlistsKey};

use crate::placed::PlacedKeys;
use crate::{Change, Key};
use krs_links::Seed;
use krs_types::Kind;
use std::alloc::{AllocError, Global};
use std::collections::BTreeSet;
use std::collections::btree_set::Range;

/// The keyrings that JOIN made and that aren't revoked: what the description hashes to, and the serial. So a JOIN by a
/// name looks at those of that name alone, but for one that hashes alike by chance, and at none that is revoked.
/// Strangers choose the names: hence the seed.
#[derive(Drop)]
pub(crate) struct Sessions {
    rings: BTreeSet<(u64, u32)>,
    seed: Seed,
}

impl Sessions {
    /// None. It takes no memory.
    pub(crate) fn new(alloc: Global, seed: Seed) -> Self
        ensures { AreSessions result [] }
    {
        Sessions {
            rings: BTreeSet::new(alloc),
            seed,
        }
    }

    /// What the description of a key hashes to, where it is a keyring that JOIN made and that isn't revoked.
    fn digest_of(&self, key: &Key) -> Option<u64>
        ensures { result ≡ session_digest self.now.seed (Some key.now) }
    {
        if key.name.kind().is(Kind::Keyring) && key.joined && !key.revoked {
            Some(self.seed.digest(key.name.desc()))
        } else {
            None
        }
    }

    /// Lists a new key, where it is a keyring that JOIN made and that isn't revoked. A refusal leaves what is there.
    pub(crate) fn list(&mut self, serial: u32, key: &Key) -> Result<(), AllocError>
        ensures ok { OnOk result (ListsKey serial key.now self.old self.new) }
        ensures err { OnErr result (self.new ≡ self.old) }
    {
        let Some(digest) = self.digest_of(key) else {
            return Ok(());
        };
        self.rings.insert((digest, serial))?;
        Ok(())
    }

    /// Lists a key no more that goes.
    pub(crate) fn unlist(&mut self, serial: u32, key: &Key)
        ensures { UnlistsKey serial key.now self.old self.new }
    {
        if let Some(digest) = self.digest_of(key) {
            self.rings.remove(&(digest, serial));
        }
    }

    /// Lists a key no more that a change is about to revoke.
    pub(crate) fn unlist_revoked(&mut self, keys: &PlacedKeys, serial: u32, change: &Change)
        requires { AreSessions self.old (by_place keys.now) }
        ensures { AreSessions self.new (alter (by_place keys.now) serial (changed change.now)) }
    {
        if !change.revokes() {
            return;
        }
        if let Some(key) = keys.get(serial) {
            self.unlist(serial, key);
        }
    }

    /// Those whose description hashes as this one.
    pub(crate) fn named(&self, desc: &[u8]) -> Range<'_, (u64, u32)>
        ensures all { HoldsSerials self.now (digest self.now.seed desc.now) result }
        ensures alone { AreOfDigest (digest self.now.seed desc.now) result }
    {
        let digest = self.seed.digest(desc);
        match digest.checked_add(1) {
            Some(next) => self.rings.range((digest, 0)..(next, 0)),
            None => self.rings.range((digest, 0)..),
        }
    }
}
