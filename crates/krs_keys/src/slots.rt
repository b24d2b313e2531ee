//! What stands at a place, and which keyrings are listed.
ghost use Rattle.std.specs.Prelude.{◌+◌, ◌≡◌, ◌≤◌, cond, false, IfErr, IfNone, IfOk, IfSome, IsOk, IsSome, nat_eq};
ghost use Rattle.std.specs.Prelude.{OnErr, OnOk, option_copied, slice_get, Some, ℕ};
ghost use Rattle.indexmap.specs.IndexSet.{spare};
ghost use Rattle.krs_types.specs.{Kind.same_kind, declared.kind.Kind.TheVariants.Keyring};
ghost use Rattle.krs_model.specs.Table.{alter, at, map_values};
ghost use Rattle.krs_links.specs.Links.{has_link, is_refused, link_error, serials};
ghost use Rattle.krs_keys.specs.Changes.{changed};
ghost use Rattle.krs_keys.specs.Keys.{AreFit, AreNamed, AreOfKind, displaced_by, name_at, named_links_of_key};
ghost use Rattle.krs_keys.specs.Keys.{named_links_of_key_at, with_entry, without_key, without_link_at};
ghost use Rattle.krs_keys.specs.Places.{AreRings, HavePlaces, held, in_slots, is_among, IsChangedAt};

use crate::places::Places;
use crate::{Change, Key};
use indexmap::IndexSet;
use krs_links::HashedName;
use krs_types::{Errno, Kind, Serial};
use slab::Slab;

/// Changes the key at a place, where there is one.
pub(crate) fn change(slots: &mut Slab<Key>, place: usize, change: Change)
    ensures { IsChangedAt place (changed change) slots.old.slots slots.new.slots }
{
    match slots.get_mut(place) {
        Some(key) => key.change(change),
        None => {}
    }
}

/// One more link in the keyring at a place, and the serial that it displaces.
pub(crate) fn link(
    slots: &mut Slab<Key>,
    place: usize,
    name: HashedName,
    serial: Serial,
) -> Result<Option<Serial>, Errno>
    ensures displaced { IfOk result (λ old. old ≡ displaced_by name (held slots.old.slots place)) }
    ensures ok { OnOk result (IsChangedAt place (with_entry name serial) slots.old.slots slots.new.slots) }
    ensures room { OnOk result (is_refused (named_links_of_key (held slots.old.slots place)) name ≡ false) }
    ensures in_place { IsSome (displaced_by name (held slots.old.slots place)) → IsOk result }
    ensures error { IfErr result (λ e. e ≡ link_error (named_links_of_key (held slots.old.slots place)) name) }
    ensures err { OnErr result (IsChangedAt place (λ key. key) slots.old.slots slots.new.slots) }
{
    match slots.get_mut(place) {
        Some(key) => key.link(name, serial),
        None => Ok(None),
    }
}

/// The key at a serial.
#[inline(always)]
pub(crate) fn get<'a>(slots: &'a Slab<Key>, places: &Places, serial: u32) -> Option<&'a Key>
    ensures { option_copied result ≡ at (in_slots slots.now.slots places.now.entries) serial }
{
    match places.get(serial) {
        Some(place) => slots.get(place),
        None => None,
    }
}

/// Where the keyring at a place links a key. A link has its key's own name.
fn link_place(slots: &Slab<Key>, places: &Places, place: usize, serial: Serial) -> Option<usize>
    requires named { AreNamed (name_at (in_slots slots.now.slots places.now.entries))
        (named_links_of_key (held slots.now.slots place)) }
    ensures there { IfSome result
        (λ link. slice_get (serials (named_links_of_key (held slots.now.slots place))) link ≡ Some serial) }
    ensures none { IfNone result (has_link serial (named_links_of_key (held slots.now.slots place)) ≡ false) }
{
    let Some(key) = get(slots, places, serial.number()) else {
        return None;
    };
    match slots.get(place) {
        Some(ring) => ring.link_place(&key.name, serial),
        None => None,
    }
}

/// Takes the link at a place out of the keyring at a place.
fn remove_link(slots: &mut Slab<Key>, place: usize, link: usize)
    ensures { IsChangedAt place (without_link_at link) slots.old.slots slots.new.slots }
{
    match slots.get_mut(place) {
        Some(key) => key.unlink_at(link),
        None => {}
    }
}

/// Takes a key out of the keyring at a place, and answers whether it was there.
fn unlink(slots: &mut Slab<Key>, places: &Places, place: usize, serial: Serial) -> bool
    requires named { AreNamed (name_at (in_slots slots.old.slots places.now.entries))
        (named_links_of_key (held slots.old.slots place)) }
    ensures linked { result ≡ has_link serial (named_links_of_key (held slots.old.slots place)) }
    ensures changed { IsChangedAt place (without_key serial) slots.old.slots slots.new.slots }
    ensures stays { result ≡ false → slots.new.slots ≡ slots.old.slots }
{
    let Some(link) = link_place(slots, places, place, serial) else {
        return false;
    };
    remove_link(slots, place, link);
    true
}

/// Whether a keyring links a key.
pub(crate) fn links_key(slots: &Slab<Key>, places: &Places, ring: u32, serial: Serial) -> bool
    requires fit { AreFit (in_slots slots.now.slots places.now.entries) }
    ensures { result
        ≡ has_link serial (named_links_of_key_at (in_slots slots.now.slots places.now.entries) ring) }
{
    match places.get(ring) {
        Some(place) => links_at(slots, places, place, serial),
        None => false,
    }
}

/// Whether the keyring at a place links a key.
fn links_at(slots: &Slab<Key>, places: &Places, place: usize, serial: Serial) -> bool
    requires named { AreNamed (name_at (in_slots slots.now.slots places.now.entries))
        (named_links_of_key (held slots.now.slots place)) }
    ensures { result ≡ has_link serial (named_links_of_key (held slots.now.slots place)) }
{
    match link_place(slots, places, place, serial) {
        Some(_) => true,
        None => false,
    }
}

/// Takes a key out of one keyring, and answers whether it was there.
pub(crate) fn unlink_in(slots: &mut Slab<Key>, places: &Places, ring: u32, serial: Serial) -> bool
    requires places { HavePlaces slots.old.slots places.now.entries }
    requires fit { AreFit (in_slots slots.old.slots places.now.entries) }
    ensures places { HavePlaces slots.new.slots places.now.entries }
    ensures linked { result
        ≡ has_link serial (named_links_of_key_at (in_slots slots.old.slots places.now.entries) ring) }
    ensures keys { in_slots slots.new.slots places.now.entries
        ≡ alter (in_slots slots.old.slots places.now.entries) ring (without_key serial) }
    ensures stays { result ≡ false
        → in_slots slots.new.slots places.now.entries ≡ in_slots slots.old.slots places.now.entries }
{
    match places.get(ring) {
        Some(place) => unlink(slots, places, place, serial),
        None => false,
    }
}

/// Takes a key out of all keyrings, which are listed.
pub(crate) fn unlink_all(slots: &mut Slab<Key>, places: &Places, rings: &[u32], serial: Serial)
    requires places { HavePlaces slots.old.slots places.now.entries }
    requires rings { AreRings (in_slots slots.old.slots places.now.entries) rings.now }
    requires kinds { AreOfKind (in_slots slots.old.slots places.now.entries) }
    requires fit { AreFit (in_slots slots.old.slots places.now.entries) }
    ensures places { HavePlaces slots.new.slots places.now.entries }
    ensures keys { in_slots slots.new.slots places.now.entries
        ≡ map_values (without_key serial) (in_slots slots.old.slots places.now.entries) }
{
    for ring in rings {
        unlink_in(slots, places, *ring, serial);
    }
}

/// Lists a new key's serial, where it is a keyring.
pub(crate) fn list(rings: &mut IndexSet<u32>, serial: u32, key: &Key)
    requires room { 1 ≤ spare rings.old }
    requires absent { is_among rings.old.keys serial ≡ false }
    ensures listed { (q : ℕ) → is_among rings.new.keys q
        ≡ cond (nat_eq serial q) (same_kind key.now.name.kind Keyring) (is_among rings.old.keys q) }
    ensures room { spare rings.old ≤ spare rings.new + 1 }
{
    if key.name.kind().is(Kind::Keyring) {
        let _ = rings.insert(serial);
    }
}

/// Lists a key's serial no more, where it was a keyring.
pub(crate) fn unlist(rings: &mut IndexSet<u32>, serial: u32, key: &Key)
    requires { is_among rings.old.keys serial ≡ same_kind key.now.name.kind Keyring }
    ensures { (q : ℕ) → is_among rings.new.keys q ≡ cond (nat_eq serial q) false (is_among rings.old.keys q) }
{
    if key.name.kind().is(Kind::Keyring) {
        rings.swap_remove(&serial);
    }
}
