//! The two lists that a `Links` keeps, and what each change does to both.
ghost use Rattle.std.specs.Prelude.{◌+◌, ◌<◌, ◌≡◌, ◌≤◌, false, IfNone, if◌then◌else◌, length, None, OnErr, OnOk};
ghost use Rattle.std.specs.Prelude.{remove, slice_get, take};
ghost use Rattle.krs_links.specs.Indexed.{AreFound, IsIndexed, linked};
ghost use Rattle.krs_links.specs.Links.{is_refused, IsUnique, link_put, nested, place_of, serial_named, serials};
ghost use Rattle.krs_links.specs.{Lists.AreLists, Seeded.name_digest};

use crate::HashedName;
use crate::index::LinkIndex;
use krs_types::{Kind, Name, Serial};
use std::alloc::AllocError;

/// The serial that is linked under a name.
pub(crate) fn find(index: &LinkIndex, name: &Name, digest: u64) -> Option<Serial>
    requires indexed { IsIndexed index.now }
    requires unique { IsUnique (linked index.now) }
    requires digest { digest ≡ name_digest index.now.seed name.now }
    ensures { result ≡ serial_named (linked index.now) name.now }
{
    match index.place_of(name, digest) {
        Some(place) => index.serial_at(place),
        None => None,
    }
}

/// Where the link of a name stands.
pub(crate) fn place_of(index: &LinkIndex, name: &Name, digest: u64) -> Option<usize>
    requires indexed { IsIndexed index.now }
    requires unique { IsUnique (linked index.now) }
    requires digest { digest ≡ name_digest index.now.seed name.now }
    ensures place { result ≡ place_of name.now (linked index.now) }
    ensures none { IfNone result (serial_named (linked index.now) name.now ≡ None) }
{
    index.place_of(name, digest)
}

/// Whether the link at a place is one to a keyring: then one nested keyring more stands before the next place.
fn is_ring_at(index: &LinkIndex, place: usize) -> bool
    requires { place < length (linked index.now) }
    ensures { length (nested (take (place + 1) (linked index.now)))
        ≡ (if result then length (nested (take place (linked index.now))) + 1
        else length (nested (take place (linked index.now)))) }
{
    match index.name_at(place) {
        Some(name) => name.kind.is(Kind::Keyring),
        None => false,
    }
}

/// How many nested keyrings stand before a place.
fn rings_before(index: &LinkIndex, place: usize) -> usize
    requires { place ≤ length (linked index.now) }
    ensures { result ≡ length (nested (take place (linked index.now))) }
{
    let mut count = 0;
    for before in 0..place {
        if is_ring_at(index, before) {
            count += 1;
        }
    }
    count
}

/// The nested keyrings with a link in the place of that of its name.
fn displace_ring(
    index: &LinkIndex,
    rings: &mut Vec<Serial>,
    place: usize,
    name: &Name,
    serial: Serial,
)
    requires rings { rings.old.items ≡ serials (nested (linked index.now)) }
    requires place { place_of name.now (linked index.now) ≡ Some place }
    ensures { rings.new.items ≡ serials (nested (link_put (linked index.now) name.now serial)) }
{
    if name.kind.is(Kind::Keyring) {
        let ring = rings_before(index, place);
        rings[ring] = serial;
    }
}

/// The nested keyrings without the link at a place.
fn remove_ring_at(index: &LinkIndex, rings: &mut Vec<Serial>, place: usize)
    requires rings { rings.old.items ≡ serials (nested (linked index.now)) }
    ensures { rings.new.items ≡ serials (nested (remove (linked index.now) place)) }
{
    let Some(name) = index.name_at(place) else {
        return;
    };
    if name.kind.is(Kind::Keyring) {
        let ring = rings_before(index, place);
        rings.remove(ring);
    }
}

/// A link in the place of that of its name. The displaced serial is answered.
pub(crate) fn displace(
    index: &mut LinkIndex,
    rings: &mut Vec<Serial>,
    place: usize,
    name: &HashedName,
    serial: Serial,
) -> Option<Serial>
    requires found { AreFound index.old rings.old.items }
    requires place { place_of name.now (linked index.old) ≡ Some place }
    ensures displaced { result ≡ serial_named (linked index.old) name.now }
    ensures room { is_refused (linked index.old) name.now ≡ false }
    ensures links { linked index.new ≡ link_put (linked index.old) name.now serial }
    ensures found { AreFound index.new rings.new.items }
{
    displace_ring(index, rings, place, name.as_name(), serial);
    let displaced = index.serial_at(place);
    index.set_serial(place, serial);
    displaced
}

/// A link under a new name, last.
pub(crate) fn append(
    index: &mut LinkIndex,
    rings: &mut Vec<Serial>,
    name: HashedName,
    serial: Serial,
) -> Result<(), AllocError>
    requires found { AreFound index.old rings.old.items }
    requires room { length (linked index.old) < 65535 }
    requires none { serial_named (linked index.old) name ≡ None }
    ensures links { OnOk result (linked index.new ≡ link_put (linked index.old) name serial) }
    ensures err { OnErr result (linked index.new ≡ linked index.old) }
    ensures found { AreFound index.new rings.new.items }
{
    if !name.kind().is(Kind::Keyring) {
        index.push(name, serial)?;
        return Ok(());
    }
    rings.reserve(1)?;
    index.push(name, serial)?;
    let _ = rings.push(serial);
    Ok(())
}

/// Without the link at a place, whose serial is answered.
pub(crate) fn remove_at(
    index: &mut LinkIndex,
    rings: &mut Vec<Serial>,
    place: usize,
) -> Option<Serial>
    requires found { AreFound index.old rings.old.items }
    ensures removed { result ≡ slice_get (serials (linked index.old)) place }
    ensures links { linked index.new ≡ remove (linked index.old) place }
    ensures found { AreFound index.new rings.new.items }
{
    remove_ring_at(index, rings, place);
    index.remove(place)
}
