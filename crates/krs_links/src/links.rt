ghost use Rattle.std.specs.Prelude.{[], ◌∷◌, ◌≡◌, ◌≢◌, ◌≤◌, false, IfErr, IfNone, IfOk, IfSome, IsOk, IsSome, length};
ghost use Rattle.std.specs.Prelude.{ok_or, OnErr, OnOk, option_copied, remove, slice_get, Some};
ghost use Rattle.krs_links.specs.Links.{bytes_of, is_full, is_refused, IsUnique, link_error, link_put, names, nested};
ghost use Rattle.krs_links.specs.Links.{place_of, serial_named, serials, unlinked};

use crate::table::LinkTable;
use crate::{HashedName, Seed};
use krs_types::{Errno, Name, Serial};
use std::alloc::{AllocError, Global};
use std::marker::Model;

/// The links of a keyring, in link order. Their table is made with the first link, so that a key which links nothing is
/// small.
#[derive(Drop)]
pub struct Links {
    kept: Option<Box<LinkTable>>,
    seed: Seed,
    alloc: Global,
}

impl Model for Links {
    ghost use Rattle.krs_links.specs.{Kept.links_kept, Links.LinkList};

    ghost Value = { LinkList };

    ghost view = { λ l. links_kept l.kept };
}

impl Links {
    /// No links. It takes no memory.
    pub fn new(alloc: Global, seed: Seed) -> Self
        ensures { result ≡ [] }
    {
        Links {
            kept: None,
            seed,
            alloc,
        }
    }

    pub fn len(&self) -> usize
        ensures len { result ≡ length self.now }
        ensures bound { result ≤ 65535 }
        ensures unique { IsUnique self.now }
    {
        match &self.kept {
            Some(table) => table.len(),
            None => 0,
        }
    }

    /// Whether a link under a new name would be refused: profile, full keyrings.
    pub fn is_full(&self) -> bool
        ensures { result ≡ is_full self.now }
    {
        match &self.kept {
            Some(table) => table.is_full(),
            None => false,
        }
    }

    /// The name of the link at a place of the link order.
    pub fn name_at(&self, place: usize) -> Option<&Name>
        ensures { option_copied result ≡ slice_get (names self.now) place }
    {
        match &self.kept {
            Some(table) => table.name_at(place),
            None => None,
        }
    }

    /// The serial that is linked at a place of the link order.
    pub fn serial_at(&self, place: usize) -> Option<Serial>
        ensures { result ≡ slice_get (serials self.now) place }
    {
        match &self.kept {
            Some(table) => table.serial_at(place),
            None => None,
        }
    }

    /// The serials in link order, as bytes, 4 each, the lowest first: keyctl(2), KEYCTL_READ.
    pub fn serial_bytes(&self, alloc: Global) -> Result<Vec<u8>, AllocError>
        ensures bytes { IfOk result (λ bytes. bytes.items ≡ bytes_of (serials self.now)) }
        ensures bound { IfOk result (λ bytes. length bytes.items ≤ 262140) }
    {
        match &self.kept {
            Some(table) => table.serial_bytes(alloc),
            None => Ok(Vec::new(alloc)),
        }
    }

    /// The serial that is linked under a name. Names of different types are different: keyrings(7), "Keyrings".
    pub fn find(&self, name: &Name) -> Option<Serial>
        ensures { result ≡ serial_named self.now name.now }
    {
        match &self.kept {
            Some(table) => table.find(name),
            None => None,
        }
    }

    /// The same of a name that was hashed.
    pub fn find_hashed(&self, name: &HashedName) -> Option<Serial>
        ensures { result ≡ serial_named self.now name.now }
    {
        match &self.kept {
            Some(table) => table.find_hashed(name),
            None => None,
        }
    }

    /// The place of the link of a name.
    pub fn place_of(&self, name: &Name) -> Option<usize>
        ensures { result ≡ place_of name.now self.now }
    {
        match &self.kept {
            Some(table) => table.place_of(name),
            None => None,
        }
    }

    /// A place where a serial is linked under what this name hashes to. Serials are compared, and no names, so that it
    /// costs little for whoever has a key with its name: if the link of the name has the serial, it is found.
    pub fn place_linked(&self, name: &HashedName, serial: Serial) -> Option<usize>
        ensures there { IfSome result (λ place. slice_get (serials self.now) place ≡ Some serial) }
        ensures none { IfNone result (serial_named self.now name.now ≢ Some serial) }
    {
        match &self.kept {
            Some(table) => table.place_linked(name, serial),
            None => None,
        }
    }

    /// Whether a link under this name would be refused: there are as many as there may be, and none is displaced.
    /// Profile, full keyrings.
    pub fn would_refuse_hashed(&self, name: &HashedName) -> bool
        ensures { result ≡ is_refused self.now name.now }
    {
        self.is_full() && self.find_hashed(name).is_none()
    }

    /// The nested keyrings, in link order.
    pub fn rings(&self) -> &[Serial]
        ensures { result.now ≡ serials (nested self.now) }
    {
        match &self.kept {
            Some(table) => table.rings(),
            None => &[],
        }
    }

    /// Links a serial under a name: in the place of the link of that name, whose serial is answered, else last.
    /// keyctl(2), KEYCTL_LINK: ENFILE, then ENOMEM. Profile, place of a link.
    pub fn put(&mut self, name: Name, serial: Serial) -> Result<Option<Serial>, Errno>
        ensures displaced { IfOk result (λ old. old ≡ serial_named self.old name) }
        ensures links { OnOk result (self.new ≡ link_put self.old name serial) }
        ensures room { OnOk result (is_refused self.old name ≡ false) }
        ensures in_place { IsSome (serial_named self.old name) → IsOk result }
        ensures error { IfErr result (λ error. error ≡ link_error self.old name) }
        ensures err { OnErr result (self.new ≡ self.old) }
    {
        let seed = self.seed;
        self.put_hashed(HashedName::new(name, seed), serial)
    }

    /// The same under a name that was hashed.
    pub fn put_hashed(&mut self, name: HashedName, serial: Serial) -> Result<Option<Serial>, Errno>
        ensures displaced { IfOk result (λ old. old ≡ serial_named self.old name) }
        ensures links { OnOk result (self.new ≡ link_put self.old name serial) }
        ensures room { OnOk result (is_refused self.old name ≡ false) }
        ensures in_place { IsSome (serial_named self.old name) → IsOk result }
        ensures error { IfErr result (λ error. error ≡ link_error self.old name) }
        ensures err { OnErr result (self.new ≡ self.old) }
    {
        if let Some(table) = &mut self.kept {
            return table.put_hashed(name, serial);
        }
        let Ok(table) = one_link(self.alloc, self.seed, name, serial) else {
            return Err(Errno::ENOMEM);
        };
        self.kept = Some(table);
        Ok(None)
    }

    /// Takes out the link of a name, and answers its serial. keyctl(2), KEYCTL_UNLINK: ENOENT.
    pub fn remove(&mut self, name: &Name) -> Result<Serial, Errno>
        ensures value { result ≡ ok_or (serial_named self.old name.now) Errno.ENOENT }
        ensures links { self.new ≡ unlinked self.old name.now }
        ensures err { OnErr result (self.new ≡ self.old) }
    {
        match &mut self.kept {
            Some(table) => table.remove(name),
            None => Err(Errno::ENOENT),
        }
    }

    /// Takes out the link at a place, where there is one, and answers its serial. Those behind it move up. It takes no
    /// memory.
    pub fn remove_at(&mut self, place: usize) -> Option<Serial>
        ensures value { result ≡ slice_get (serials self.old) place }
        ensures links { self.new ≡ remove self.old place }
    {
        match &mut self.kept {
            Some(table) => table.remove_at(place),
            None => None,
        }
    }

    /// Takes out all links, and gives their memory back: keyctl(2), KEYCTL_CLEAR.
    pub fn clear(&mut self)
        ensures { self.new ≡ [] }
    {
        self.kept = None;
    }
}

/// A table with one link.
fn one_link(
    alloc: Global,
    seed: Seed,
    name: HashedName,
    serial: Serial,
) -> Result<Box<LinkTable>, AllocError>
    ensures { IfOk result (λ table. table.value ≡ (name, serial) ∷ []) }
{
    let mut table = Box::new(alloc, LinkTable::new(alloc, seed))?;
    match table.put_hashed(name, serial) {
        Ok(_) => Ok(table),
        Err(_) => Err(AllocError),
    }
}
