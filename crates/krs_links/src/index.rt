//! The links of a keyring in link order, with an index from what their names hash to.
ghost use Rattle.std.specs.Prelude.{[], ◌++◌, ◌+◌, ◌<◌, ◌^◌, ◌∷◌, ◌≡◌, ◌≢◌, ◌≤◌, IfNone, IfOk, IfSome, IsOk, length};
ghost use Rattle.std.specs.Prelude.{nat_eq, None, OnErr, OnOk, option_copied, remove, slice_get, Some, vec_capacity};
ghost use Rattle.std.specs.Prelude.{vec_len};
ghost use Rattle.indexmap.specs.IndexMap.{get, spare};
ghost use Rattle.std.specs.Int.{to_le_bytes, w32};
ghost use Rattle.krs_links.specs.Indexed.{behind, IsIndexed, linked, linked_in, LinksNot, StandsNot, with_serial_at};
ghost use Rattle.krs_links.specs.Links.{bytes_of, IsUnique, names, place_of, serial_named, serials};
ghost use Rattle.krs_links.specs.Seeded.{name_digest};

use crate::{HashedName, Seed};
use indexmap::IndexMap;
use krs_types::{Name, Serial};
use std::alloc::{AllocError, Global};

/// A link: a name, and the serial that is linked under it.
#[derive(Drop)]
pub(crate) struct Link {
    name: Name,
    serial: Serial,
}

/// The links by what their names hash to. Where two names hash alike, which hardly ever happens, the later one stands
/// some steps behind that.
#[derive(Drop)]
pub(crate) struct LinkIndex {
    entries: IndexMap<u64, Link>,
    /// Each stands fewer steps than these behind what its name hashes to.
    span: usize,
    seed: Seed,
}

impl LinkIndex {
    /// No links. It takes no memory.
    pub(crate) fn new(alloc: Global, seed: Seed) -> Self
        ensures links { linked result ≡ [] }
        ensures indexed { IsIndexed result }
        ensures seed { result.seed ≡ seed }
    {
        LinkIndex {
            entries: IndexMap::new(alloc),
            span: 0,
            seed,
        }
    }

    pub(crate) fn len(&self) -> usize
        ensures { result ≡ length (linked self.now) }
    {
        self.entries.len()
    }

    pub(crate) fn seed(&self) -> Seed {
        self.seed
    }

    /// What a name hashes to here.
    pub(crate) fn digest_of(&self, name: &Name) -> u64
        ensures { result ≡ name_digest self.now.seed name.now }
    {
        self.seed.digest_of(name)
    }

    /// The same of a name that was hashed.
    pub(crate) fn digest_in(&self, name: &HashedName) -> u64
        ensures { result ≡ name_digest self.now.seed name.now }
    {
        name.digest_from(&self.seed)
    }

    /// The name of the link at a place.
    pub(crate) fn name_at(&self, place: usize) -> Option<&Name>
        ensures { option_copied result ≡ slice_get (names (linked self.now)) place }
    {
        match self.entries.get_index(place) {
            Some(entry) => Some(&entry.1.name),
            None => None,
        }
    }

    /// The serial of the link at a place.
    pub(crate) fn serial_at(&self, place: usize) -> Option<Serial>
        ensures { result ≡ slice_get (serials (linked self.now)) place }
    {
        match self.entries.get_index(place) {
            Some(entry) => Some(entry.1.serial),
            None => None,
        }
    }

    /// All serials as bytes, 4 each, the lowest first. The loop goes over the table itself, since a listing may be
    /// long.
    pub(crate) fn serial_bytes(&self, alloc: Global) -> Result<Vec<u8>, AllocError>
        requires { length (linked self.now) ≤ 65535 }
        ensures bytes { IfOk result (λ bytes. bytes.items ≡ bytes_of (serials (linked self.now))) }
        ensures bound { IfOk result (λ bytes. length bytes.items ≤ 262140) }
    {
        let links = self.entries.values().as_slice();
        let mut bytes = Vec::with_capacity(alloc, 4 * links.len())?;
        for link in links {
            push_serial(&mut bytes, link.serial);
        }
        Ok(bytes)
    }

    /// Where the link of a name stands.
    pub(crate) fn place_of(&self, name: &Name, digest: u64) -> Option<usize>
        requires indexed { IsIndexed self.now }
        requires unique { IsUnique (linked self.now) }
        requires digest { digest ≡ name_digest self.now.seed name.now }
        ensures { result ≡ place_of name.now (linked self.now) }
    {
        let _len = self.entries.len();
        for steps in 0..self.span {
            if let Some(place) = place_under(&self.entries, behind(digest, steps), name) {
                return Some(place);
            }
        }
        None
    }

    /// A place where a serial is linked under what a name hashes to. Serials are compared, and no names: if the link of
    /// the name has the serial, it is found.
    pub(crate) fn place_linked(&self, name: &HashedName, serial: Serial) -> Option<usize>
        requires indexed { IsIndexed self.now }
        ensures there { IfSome result (λ place. slice_get (serials (linked self.now)) place ≡ Some serial) }
        ensures none { IfNone result (serial_named (linked self.now) name.now ≢ Some serial) }
    {
        let _len = self.entries.len();
        let digest = self.digest_in(name);
        for steps in 0..self.span {
            if let Some(place) = place_with(&self.entries, behind(digest, steps), serial) {
                return Some(place);
            }
        }
        None
    }

    /// A link under a new name, last. Where names hash alike it is kept all the same: it fails for memory alone, which
    /// it takes only where the index has no room left.
    pub(crate) fn push(&mut self, name: HashedName, serial: Serial) -> Result<(), AllocError>
        requires indexed { IsIndexed self.old }
        ensures indexed { IsIndexed self.new }
        ensures ok { OnOk result (linked self.new ≡ linked self.old ++ (name, serial) ∷ []) }
        ensures err { OnErr result (linked self.new ≡ linked self.old) }
        ensures succeeds { 0 < spare self.old.entries → IsOk result }
    {
        let digest = self.digest_in(&name);
        let steps = free_steps(&self.entries, digest);
        let link = Link {
            name: name.into_name(),
            serial,
        };
        put_new(&mut self.entries, behind(digest, steps), link)?;
        self.span = self.span.max(steps + 1);
        Ok(())
    }

    /// Another serial in the link at a place.
    pub(crate) fn set_serial(&mut self, place: usize, serial: Serial)
        requires indexed { IsIndexed self.old }
        ensures indexed { IsIndexed self.new }
        ensures links { linked self.new
            ≡ linked_in (with_serial_at self.old.entries.entries place serial) }
    {
        set_serial(&mut self.entries, place, serial);
    }

    /// Without the link at a place, whose serial is answered.
    pub(crate) fn remove(&mut self, place: usize) -> Option<Serial>
        requires indexed { IsIndexed self.old }
        ensures indexed { IsIndexed self.new }
        ensures removed { result ≡ slice_get (serials (linked self.old)) place }
        ensures links { linked self.new ≡ remove (linked self.old) place }
    {
        match take_at(&mut self.entries, place) {
            Some((_number, link)) => Some(link.serial),
            None => None,
        }
    }
}

/// A serial as 4 bytes, the lowest first, behind bytes that have room for it.
fn push_serial(bytes: &mut Vec<u8>, serial: Serial)
    requires { vec_len bytes.old + 4 ≤ vec_capacity bytes.old }
    ensures items { bytes.new.items ≡ bytes.old.items ++ to_le_bytes w32 serial }
    ensures len { vec_len bytes.new ≡ vec_len bytes.old + 4 }
    ensures capacity { vec_capacity bytes.new ≡ vec_capacity bytes.old }
{
    let [first, second, third, fourth] = serial.number().to_le_bytes();
    bytes.push_reserved(first);
    bytes.push_reserved(second);
    bytes.push_reserved(third);
    bytes.push_reserved(fourth);
}

/// So many steps behind a digest.
#[tactic(auto, unfolding(crate::specs::Indexed::behind))]
fn behind(digest: u64, steps: usize) -> u64
    ensures { result ≡ behind digest steps }
{
    digest.wrapping_add(steps as u64)
}

/// The place of the link under a number, where it has this name.
fn place_under(entries: &IndexMap<u64, Link>, number: u64, name: &Name) -> Option<usize>
    requires { IsUnique (linked_in entries.now.entries) }
    ensures there { IfSome result (λ place. place_of name.now (linked_in entries.now.entries) ≡ Some place) }
    ensures none { IfNone result (StandsNot name.now entries.now.entries number) }
{
    let Some((place, _, link)) = entries.get_full(&number) else {
        return None;
    };
    if *name == link.name {
        Some(place)
    } else {
        None
    }
}

/// The place of the link under a number, where it has this serial.
fn place_with(entries: &IndexMap<u64, Link>, number: u64, serial: Serial) -> Option<usize>
    ensures there { IfSome result (λ place. slice_get (serials (linked_in entries.now.entries)) place ≡ Some serial) }
    ensures none { IfNone result (LinksNot serial entries.now.entries number) }
{
    let Some((place, _, link)) = entries.get_full(&number) else {
        return None;
    };
    if link.serial.number() == serial.number() {
        Some(place)
    } else {
        None
    }
}

/// How many steps behind a digest nothing stands. There are some, as each number that is passed over is a link's.
fn free_steps(entries: &IndexMap<u64, Link>, digest: u64) -> usize
    ensures free { get nat_eq entries.now (behind digest result) ≡ None }
    ensures bound { result ≤ length entries.now.entries }
    ensures small { result < 2 ^ 63 }
{
    let _len = entries.len();
    let mut steps = 0;
    'taken: while entries.contains_key(&behind(digest, steps)) {
        steps += 1;
    }
    steps
}

/// A link under a number under which none stands, last.
fn put_new(entries: &mut IndexMap<u64, Link>, number: u64, link: Link) -> Result<(), AllocError>
    requires { get nat_eq entries.old number ≡ None }
    ensures ok { OnOk result (entries.new.entries ≡ entries.old.entries ++ (number, link) ∷ []) }
    ensures err { OnErr result (entries.new.entries ≡ entries.old.entries) }
    ensures succeeds { 0 < spare entries.old → IsOk result }
{
    entries.insert(number, link)?;
    Ok(())
}

/// Takes out the entry at a place. Those behind it move up: behind the last there are none, and it is taken at once.
fn take_at(entries: &mut IndexMap<u64, Link>, place: usize) -> Option<(u64, Link)>
    ensures entry { result ≡ slice_get entries.old.entries place }
    ensures entries { entries.new.entries ≡ remove entries.old.entries place }
{
    if place == entries.len().saturating_sub(1) {
        entries.swap_remove_index(place)
    } else {
        entries.shift_remove_index(place)
    }
}

/// Another serial in the link at a place.
fn set_serial(entries: &mut IndexMap<u64, Link>, place: usize, serial: Serial)
    ensures { entries.new.entries ≡ with_serial_at entries.old.entries place serial }
{
    match entries.get_index_mut(place) {
        Some(link) => link.serial = serial,
        None => {}
    }
}
