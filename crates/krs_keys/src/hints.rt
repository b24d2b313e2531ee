//! Which keyrings link a key, as far as it is noted: hints, of which no clause speaks.

use crate::key_table::KeyTable;
use crate::linkers::{LinkHint, Linkers};
use crate::placed::PlacedKeys;
use crate::{Change, Content};
use krs_types::Serial;

impl KeyTable {
    /// Two keyrings that may link a key, and where. They are hints: no clause speaks of them, and the links may be
    /// gone.
    #[inline(always)]
    pub fn link_hints(&self, serial: Serial) -> (LinkHint, LinkHint) {
        match self.keys.place_of(serial.number()) {
            Some(place) => self.linkers.near(place),
            None => (LinkHint::NONE, LinkHint::NONE),
        }
    }

    /// The two keyrings alone.
    pub fn near_linkers(&self, serial: Serial) -> (Option<Serial>, Option<Serial>) {
        let (first, second) = self.link_hints(serial);
        (first.ring(), second.ring())
    }

    /// Takes down the place where a keyring links a key, as such a hint.
    pub fn note_link(&self, ring: Serial, serial: Serial, link: usize) {
        if let Some(place) = self.keys.place_of(serial.number()) {
            self.linkers.note(place, ring.number(), link);
        }
    }

    /// The first keyring behind this serial that may link a key, by another such hint: so all are found, one by one.
    pub fn linker_behind(&self, serial: Serial, last: u32) -> Option<Serial> {
        let place = self.keys.place_of(serial.number())?;
        ring_at(self.linkers.behind(place, serial.number(), last))
    }

    /// A further keyring that links a key, by another such hint.
    pub fn far_linker(&self, serial: Serial) -> Option<Serial> {
        match self.linkers.far(serial.number()) {
            Some(ring) => ring_at(ring),
            None => None,
        }
    }
}

/// The keyring of a serial, which 0 is of none.
fn ring_at(ring: u32) -> Option<Serial> {
    if ring == 0 {
        return None;
    }
    Some(Serial::new(ring))
}

/// A keyring links a key from now on.
#[inline(always)]
pub(crate) fn note(keys: &PlacedKeys, linkers: &mut Linkers, ring: u32, serial: Serial) {
    if let Some(place) = keys.place_of(serial.number()) {
        linkers.add(place, serial.number(), ring);
    }
}

/// A keyring links a key no more, if that is one.
#[inline(always)]
pub(crate) fn forget(keys: &PlacedKeys, linkers: &mut Linkers, ring: u32, serial: &Option<Serial>) {
    if let Some(gone) = serial {
        if let Some(place) = keys.place_of(gone.number()) {
            linkers.remove(place, gone.number(), ring);
        }
    }
}

/// The key at a serial has come with its links.
#[inline(always)]
pub(crate) fn note_links(keys: &PlacedKeys, linkers: &mut Linkers, ring: u32) {
    let Some(key) = keys.get(ring) else {
        return;
    };
    if let Content::Links(links) = &key.content {
        for place in 0..links.len() {
            if let Some(serial) = links.serial_at(place) {
                note(keys, linkers, ring, serial);
            }
        }
    }
}

/// No keyring links the key at a serial any more.
pub(crate) fn forget_key(keys: &PlacedKeys, linkers: &mut Linkers, serial: u32) {
    if let Some(place) = keys.place_of(serial) {
        linkers.remove_all(place, serial);
    }
}

/// What a change is about to take out of the key at a serial is linked no more.
#[inline(always)]
pub(crate) fn forget_taken(keys: &PlacedKeys, linkers: &mut Linkers, ring: u32, change: &Change) {
    match change {
        Change::Revoked | Change::Cleared => forget_links(keys, linkers, ring),
        _ => {}
    }
}

/// What the key at a serial links is about to go out of it. Where no key has more than two links, the hints stay: each
/// of them costs one look.
#[inline(always)]
pub(crate) fn forget_links(keys: &PlacedKeys, linkers: &mut Linkers, ring: u32) {
    if linkers.has_far() {
        forget_each(keys, linkers, ring);
    }
}

/// What the key at a serial links it links no more.
#[inline(never)]
fn forget_each(keys: &PlacedKeys, linkers: &mut Linkers, ring: u32) {
    let Some(key) = keys.get(ring) else {
        return;
    };
    if let Content::Links(links) = &key.content {
        for place in 0..links.len() {
            forget(keys, linkers, ring, &links.serial_at(place));
        }
    }
}
