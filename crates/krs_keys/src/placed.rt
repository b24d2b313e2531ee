//! The keys, each at a place that it keeps.
ghost use Rattle.std.specs.Prelude.{[], ◌+◌, ◌≡◌, false, IfErr, IfOk, IsOk, IsSome, length, None, OnErr, OnOk};
ghost use Rattle.std.specs.Prelude.{option_copied, ℕ};
ghost use Rattle.krs_model.specs.{Asks.Joining.is_joinable, Table.{alter, at, map_values, put, without}};
ghost use Rattle.krs_links.specs.Links.{has_link, is_refused, link_error};
ghost use Rattle.krs_keys.specs.{Changes.changed, Keys.{AreFit, AreOfKind, displaced_at, joinable_in}};
ghost use Rattle.krs_keys.specs.Keys.{named_links_of_key_at, seen, with_entry, without_key};
ghost use Rattle.krs_keys.specs.Places.{ArePlaced, by_place, HaveRoom, is_sooner, keyrings_in, passes};
ghost use Rattle.krs_keys.specs.Sessions.{AreSessions};

use crate::places::Places;
use crate::sessions::Sessions;
use crate::slots::{self, list, unlist};
use crate::{Change, Key};
use indexmap::IndexSet;
use krs_links::HashedName;
use krs_types::{Caller, Errno, Serial};
use slab::Slab;
use std::alloc::{AllocError, Global};

/// Tables with room for so many keys are never too large.
const KEPT: usize = 1024;

/// The keys by place, with an index from their serials.
#[derive(Drop)]
pub(crate) struct PlacedKeys {
    /// The keys, each at its place.
    slots: Slab<Key>,
    /// The place of each serial.
    places: Places,
    /// The serials of the keyrings, so that what concerns keyrings alone passes over no other key.
    rings: IndexSet<u32>,
    /// How many keys have gone since the tables last gave memory back. No clause speaks of it.
    gone: usize,
}

impl PlacedKeys {
    /// No keys. It takes no memory.
    pub(crate) fn new(alloc: Global) -> Self
        ensures keys { by_place result ≡ [] }
        ensures placed { ArePlaced result }
    {
        PlacedKeys {
            slots: Slab::new(alloc),
            places: Places::new(alloc),
            rings: IndexSet::new(alloc),
            gone: 0,
        }
    }

    /// How many keys there are.
    pub(crate) fn len(&self) -> usize
        requires { ArePlaced self.now }
        ensures { result ≡ length (by_place self.now) }
    {
        self.places.len()
    }

    /// How many keyrings there are.
    pub(crate) fn ring_count(&self) -> usize
        requires { ArePlaced self.now }
        ensures { result ≡ length (keyrings_in (by_place self.now)) }
    {
        self.rings.len()
    }

    /// How many places there are, taken and free.
    pub(crate) fn capacity(&self) -> usize {
        self.slots.capacity()
    }

    /// Where the key at a serial stands.
    #[inline(always)]
    pub(crate) fn place_of(&self, serial: u32) -> Option<usize> {
        self.places.get(serial)
    }

    /// The key at a serial.
    #[inline(always)]
    pub(crate) fn get(&self, serial: u32) -> Option<&Key>
        ensures { option_copied result ≡ at (by_place self.now) serial }
    {
        slots::get(&self.slots, &self.places, serial)
    }

    /// The least serial of a keyring that a caller may join by this description, among those that JOIN made.
    pub(crate) fn joinable(
        &self,
        sessions: &Sessions,
        desc: &[u8],
        caller: &Caller,
        clock: u64,
    ) -> Option<Serial>
        requires sessions { AreSessions sessions.now (by_place self.now) }
        ensures { result ≡ joinable_in clock caller.now desc.now (by_place self.now) }
    {
        let mut least = None;
        for ring in sessions.named(desc) {
            if is_sooner(ring.1, least) && self.is_joinable(ring.1, desc, caller, clock) {
                least = Some(ring.1);
            }
        }
        match least {
            Some(serial) => Some(Serial::new(serial)),
            None => None,
        }
    }

    /// Whether a caller may join the key at a serial.
    fn is_joinable(&self, serial: u32, desc: &[u8], caller: &Caller, clock: u64) -> bool
        ensures { result
            ≡ passes (λ key. is_joinable clock caller.now desc.now (seen key)) (at (by_place self.now) serial) }
    {
        match self.get(serial) {
            Some(key) => key.is_joinable(desc, caller, clock),
            None => false,
        }
    }

    /// Changes the key at a serial, where there is one.
    pub(crate) fn change(&mut self, serial: u32, change: Change)
        requires { ArePlaced self.old }
        ensures placed { ArePlaced self.new }
        ensures keys { by_place self.new ≡ alter (by_place self.old) serial (changed change) }
    {
        match self.places.get(serial) {
            Some(place) => slots::change(&mut self.slots, place, change),
            None => {}
        }
    }

    /// One more link in a keyring, and the serial that it displaces.
    pub(crate) fn link(
        &mut self,
        ring: u32,
        name: HashedName,
        serial: Serial,
    ) -> Result<Option<Serial>, Errno>
        requires { ArePlaced self.old }
        ensures placed { ArePlaced self.new }
        ensures displaced { IfOk result (λ old. old ≡ displaced_at (by_place self.old) ring name) }
        ensures ok { OnOk result (by_place self.new ≡ alter (by_place self.old) ring (with_entry name serial)) }
        ensures room { OnOk result (is_refused (named_links_of_key_at (by_place self.old) ring) name ≡ false) }
        ensures in_place { IsSome (displaced_at (by_place self.old) ring name) → IsOk result }
        ensures error { IfErr result (λ e. e ≡ link_error (named_links_of_key_at (by_place self.old) ring) name) }
        ensures err { OnErr result (by_place self.new ≡ by_place self.old) }
    {
        match self.places.get(ring) {
            Some(place) => slots::link(&mut self.slots, place, name, serial),
            None => Ok(None),
        }
    }

    /// Whether a keyring links a key.
    pub(crate) fn links_key(&self, ring: u32, serial: Serial) -> bool
        requires fit { AreFit (by_place self.now) }
        ensures { result ≡ has_link serial (named_links_of_key_at (by_place self.now) ring) }
    {
        slots::links_key(&self.slots, &self.places, ring, serial)
    }

    /// Takes a key out of one keyring, and answers whether it was there.
    pub(crate) fn unlink(&mut self, ring: u32, serial: Serial) -> bool
        requires placed { ArePlaced self.old }
        requires fit { AreFit (by_place self.old) }
        ensures placed { ArePlaced self.new }
        ensures linked { result ≡ has_link serial (named_links_of_key_at (by_place self.old) ring) }
        ensures keys { by_place self.new ≡ alter (by_place self.old) ring (without_key serial) }
        ensures stays { result ≡ false → by_place self.new ≡ by_place self.old }
    {
        slots::unlink_in(&mut self.slots, &self.places, ring, serial)
    }

    /// Takes a key out of all keyrings.
    pub(crate) fn unlink_all(&mut self, serial: Serial)
        requires placed { ArePlaced self.old }
        requires kinds { AreOfKind (by_place self.old) }
        requires fit { AreFit (by_place self.old) }
        ensures placed { ArePlaced self.new }
        ensures keys { by_place self.new ≡ map_values (without_key serial) (by_place self.old) }
    {
        slots::unlink_all(&mut self.slots, &self.places, self.rings.as_slice(), serial);
    }

    /// Takes out the key at a serial, and answers it. Its place is free again.
    pub(crate) fn remove(&mut self, serial: u32) -> Option<Key>
        requires { ArePlaced self.old }
        ensures placed { ArePlaced self.new }
        ensures key { result ≡ at (by_place self.old) serial }
        ensures keys { by_place self.new ≡ without (by_place self.old) serial }
        ensures gone { at (by_place self.new) serial ≡ None }
    {
        let key = self.take_out(serial)?;
        self.gone = self.gone.saturating_add(1);
        if self.is_slack() {
            self.give_back();
        }
        Some(key)
    }

    /// The same, with tables that stay as large.
    fn take_out(&mut self, serial: u32) -> Option<Key>
        requires { ArePlaced self.old }
        ensures placed { ArePlaced self.new }
        ensures key { result ≡ at (by_place self.old) serial }
        ensures keys { by_place self.new ≡ without (by_place self.old) serial }
        ensures gone { at (by_place self.new) serial ≡ None }
    {
        let place = self.places.remove(serial)?;
        let key = self.slots.remove(place);
        unlist(&mut self.rings, serial, &key);
        Some(key)
    }

    /// Whether the tables may be far too large: large ones have no key left, or fewer than have gone since they last
    /// gave memory back. So whoever gives keys back pays for it with a few steps for each.
    fn is_slack(&self) -> bool {
        let left = self.places.len();
        if left == 0 {
            return KEPT < self.slots.capacity();
        }
        KEPT < self.gone && left < self.gone
    }

    /// The tables give back what memory they can. It takes none that could be refused.
    fn give_back(&mut self)
        requires { ArePlaced self.old }
        ensures placed { ArePlaced self.new }
        ensures keys { by_place self.new ≡ by_place self.old }
    {
        self.slots.shrink_to_fit();
        self.places.shrink_to_fit();
        self.rings.shrink_to_fit();
        self.gone = 0;
    }

    /// Makes room for that many more keys, in all three parts.
    pub(crate) fn reserve(&mut self, more: usize) -> Result<(), AllocError>
        requires { ArePlaced self.old }
        ensures placed { ArePlaced self.new }
        ensures keys { by_place self.new ≡ by_place self.old }
        ensures room { OnOk result (HaveRoom self.new more) }
    {
        self.slots.reserve(more)?;
        self.places.reserve(more)?;
        self.rings.reserve(more)
    }

    /// Puts a key at a serial that has none, where there is room, and answers its place.
    pub(crate) fn put(&mut self, serial: u32, key: Key) -> usize
        requires placed { ArePlaced self.old }
        requires absent { at (by_place self.old) serial ≡ None }
        requires room { HaveRoom self.old 1 }
        ensures placed { ArePlaced self.new }
        ensures keys { by_place self.new ≡ put (by_place self.old) serial key }
        ensures room { (more : ℕ) → HaveRoom self.old (more + 1) → HaveRoom self.new more }
    {
        list(&mut self.rings, serial, &key);
        let place = self.slots.insert_reserved(key);
        self.places.insert(serial, place);
        place
    }
}

/// Whether a serial is less than the one that was found, if any was.
fn is_sooner(serial: u32, found: Option<u32>) -> bool
    ensures { result ≡ is_sooner serial found }
{
    match found {
        Some(other) => serial < other,
        None => true,
    }
}
