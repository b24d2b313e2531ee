ghost use Rattle.std.specs.Prelude.{[], ◌≡◌, ◌≢◌, ◌≤◌, false, IfErr, IfNone, IfOk, IfSome, IsOk, IsSome, length, ok_or};
ghost use Rattle.std.specs.Prelude.{OnErr, OnOk, option_copied, remove, slice_get, Some};
ghost use Rattle.krs_links.specs.Links.{bytes_of, is_full, is_refused, IsUnique, link_error, link_put, names, nested};
ghost use Rattle.krs_links.specs.Links.{place_of, serial_named, serials, unlinked};

use crate::index::LinkIndex;
use crate::{HashedName, Seed, lists};
use krs_types::{Errno, Name, Serial};
use std::alloc::{AllocError, Global};
use std::marker::Model;

/// How many links a keyring has at most: profile, full keyrings.
const MAX_LINKS: usize = 65535;

/// The links of a keyring that has some, or had, in link order, with an index from their names.
#[derive(Drop)]
pub(crate) struct LinkTable {
    entries: LinkIndex,
    /// The serials of the nested keyrings again, so that a walk goes over them alone.
    rings: Vec<Serial>,
}

impl Model for LinkTable {
    ghost use Rattle.krs_links.specs.{Indexed.{AreFound, linked}, Links.LinkList};

    ghost Value = { LinkList };

    ghost view = { λ l. linked l.entries };

    ghost invariant = { λ l. AreFound l.entries l.rings.items };
}

impl LinkTable {
    /// No links. It takes no memory.
    pub(crate) fn new(alloc: Global, seed: Seed) -> Self
        ensures { result ≡ [] }
    {
        LinkTable {
            entries: LinkIndex::new(alloc, seed),
            rings: Vec::new(alloc),
        }
    }

    pub(crate) fn len(&self) -> usize
        ensures len { result ≡ length self.now }
        ensures bound { result ≤ 65535 }
        ensures unique { IsUnique self.now }
    {
        self.entries.len()
    }

    /// Whether a link under a new name would be refused: profile, full keyrings.
    pub(crate) fn is_full(&self) -> bool
        ensures { result ≡ is_full self.now }
    {
        MAX_LINKS <= self.entries.len()
    }

    /// The name of the link at a place of the link order.
    pub(crate) fn name_at(&self, place: usize) -> Option<&Name>
        ensures { option_copied result ≡ slice_get (names self.now) place }
    {
        self.entries.name_at(place)
    }

    /// The serial that is linked at a place of the link order.
    pub(crate) fn serial_at(&self, place: usize) -> Option<Serial>
        ensures { result ≡ slice_get (serials self.now) place }
    {
        self.entries.serial_at(place)
    }

    /// The serials in link order, as bytes.
    pub(crate) fn serial_bytes(&self, alloc: Global) -> Result<Vec<u8>, AllocError>
        ensures bytes { IfOk result (λ bytes. bytes.items ≡ bytes_of (serials self.now)) }
        ensures bound { IfOk result (λ bytes. length bytes.items ≤ 262140) }
    {
        self.entries.serial_bytes(alloc)
    }

    /// The serial that is linked under a name. Names of different types are different: keyrings(7), "Keyrings".
    pub(crate) fn find(&self, name: &Name) -> Option<Serial>
        ensures { result ≡ serial_named self.now name.now }
    {
        lists::find(&self.entries, name, self.entries.digest_of(name))
    }

    /// The same of a name that was hashed.
    pub(crate) fn find_hashed(&self, name: &HashedName) -> Option<Serial>
        ensures { result ≡ serial_named self.now name.now }
    {
        lists::find(&self.entries, name.as_name(), self.entries.digest_in(name))
    }

    /// The place of the link of a name.
    pub(crate) fn place_of(&self, name: &Name) -> Option<usize>
        ensures { result ≡ place_of name.now self.now }
    {
        lists::place_of(&self.entries, name, self.entries.digest_of(name))
    }

    /// A place where a serial is linked under what a name hashes to.
    pub(crate) fn place_linked(&self, name: &HashedName, serial: Serial) -> Option<usize>
        ensures there { IfSome result (λ place. slice_get (serials self.now) place ≡ Some serial) }
        ensures none { IfNone result (serial_named self.now name.now ≢ Some serial) }
    {
        self.entries.place_linked(name, serial)
    }

    /// The nested keyrings, in link order.
    pub(crate) fn rings(&self) -> &[Serial]
        ensures { result.now ≡ serials (nested self.now) }
    {
        self.rings.as_slice()
    }

    /// Links a serial under a name: in the place of the link of that name, whose serial is answered, else last.
    /// keyctl(2), KEYCTL_LINK: ENFILE, then ENOMEM. Profile, place of a link.
    pub(crate) fn put_hashed(
        &mut self,
        name: HashedName,
        serial: Serial,
    ) -> Result<Option<Serial>, Errno>
        ensures displaced { IfOk result (λ old. old ≡ serial_named self.old name) }
        ensures links { OnOk result (self.new ≡ link_put self.old name serial) }
        ensures room { OnOk result (is_refused self.old name ≡ false) }
        ensures in_place { IsSome (serial_named self.old name) → IsOk result }
        ensures error { IfErr result (λ error. error ≡ link_error self.old name) }
        ensures err { OnErr result (self.new ≡ self.old) }
    {
        let digest = self.entries.digest_in(&name);
        let Some(place) = lists::place_of(&self.entries, name.as_name(), digest) else {
            return self.append(name, serial);
        };
        let displaced = lists::displace(&mut self.entries, &mut self.rings, place, &name, serial);
        Ok(displaced)
    }

    /// Takes out the link of a name, and answers its serial. keyctl(2), KEYCTL_UNLINK: ENOENT.
    pub(crate) fn remove(&mut self, name: &Name) -> Result<Serial, Errno>
        ensures value { result ≡ ok_or (serial_named self.old name.now) Errno.ENOENT }
        ensures links { self.new ≡ unlinked self.old name.now }
        ensures err { OnErr result (self.new ≡ self.old) }
    {
        let digest = self.entries.digest_of(name);
        let Some(place) = lists::place_of(&self.entries, name, digest) else {
            return Err(Errno::ENOENT);
        };
        lists::remove_at(&mut self.entries, &mut self.rings, place).ok_or(Errno::ENOENT)
    }

    /// Takes out the link at a place, where there is one, and answers its serial. Those behind it move up. It takes no
    /// memory.
    pub(crate) fn remove_at(&mut self, place: usize) -> Option<Serial>
        ensures value { result ≡ slice_get (serials self.old) place }
        ensures links { self.new ≡ remove self.old place }
    {
        lists::remove_at(&mut self.entries, &mut self.rings, place)
    }

    /// A link under a new name, which stands last.
    fn append(&mut self, name: HashedName, serial: Serial) -> Result<Option<Serial>, Errno>
        requires { serial_named self.old name ≡ None }
        ensures displaced { IfOk result (λ old. old ≡ None) }
        ensures links { OnOk result (self.new ≡ link_put self.old name serial) }
        ensures room { OnOk result (is_full self.old ≡ false) }
        ensures error { IfErr result (λ error. error ≡ link_error self.old name) }
        ensures err { OnErr result (self.new ≡ self.old) }
    {
        if self.is_full() {
            return Err(Errno::ENFILE);
        }
        match lists::append(&mut self.entries, &mut self.rings, name, serial) {
            Ok(()) => Ok(None),
            Err(_) => Err(Errno::ENOMEM),
        }
    }
}
