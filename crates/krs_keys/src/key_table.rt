ghost use Rattle.std.specs.Prelude.{[], ◌+◌, ◌<◌, ◌^◌, ◌≡◌, false, IfErr, IfOk, IsOk, IsSome, length, None, OnErr};
ghost use Rattle.std.specs.Prelude.{OnOk, option_copied};
ghost use Rattle.std.specs.{List.Sorted.IsStrictlySortedBy, Map.keys_of, Ordering.nat_cmp};
ghost use Rattle.krs_model.specs.Table.{alter, at, IsBelow, map_values, put, without};
ghost use Rattle.krs_links.specs.Links.{has_link, is_refused, link_error};
ghost use Rattle.krs_keys.specs.{Changes.changed, Keys.{AreFit, AreOfKind, displaced_at, IsOfKind, joinable_in}};
ghost use Rattle.krs_keys.specs.Keys.{named_links_of_key_at, OnlyRingsLink, shown, with_entry, without_key};
ghost use Rattle.krs_keys.specs.{Places.{ArePlaced, by_place, keyrings_in}, Sessions.AreSessions};
ghost use Rattle.krs_keys.specs.Table.{AreLeft, insert_error, IsLinkedError, IsLinkError, with_key, with_linked_key};

use crate::hints::{forget, forget_key, forget_links, forget_taken, note, note_links};
use crate::linkers::Linkers;
use crate::placed::PlacedKeys;
use crate::sessions::Sessions;
use crate::{Change, Key};
use krs_links::{HashedName, Seed};
use krs_types::{Caller, Errno, Serial};
use std::alloc::Global;
use std::marker::Model;

/// The last serial that a key may get: profile, serials run out.
pub const LAST_SERIAL: u32 = 2_147_483_647;

/// The keys by serial. Serials rise by one, and none is given twice.
#[derive(Drop)]
pub struct KeyTable {
    pub(crate) keys: PlacedKeys,
    sessions: Sessions,
    /// Where to look for the links of a key. No contract speaks of it.
    pub(crate) linkers: Linkers,
    next: u32,
}

impl Model for KeyTable {
    ghost use Rattle.krs_keys.specs.Table.{Keys};

    ghost Value = { Keys };

    ghost use Rattle.krs_keys.specs.{Places.{ArePlaced, by_place}, Table.AreKept};

    ghost view = { λ t. record { keys = by_place t.keys; next = t.next } };

    ghost invariant = { λ t. ArePlaced t.keys × AreKept (by_place t.keys) t.sessions t.next };
}

impl KeyTable {
    /// No keys, and this serial next. Strangers choose the names of keyrings, which are hashed from this seed. It takes
    /// no memory.
    pub fn starting_at(alloc: Global, seed: Seed, next: u32) -> Self
        ensures { result ≡ record { keys = []; next = next } }
    {
        KeyTable {
            keys: PlacedKeys::new(alloc),
            sessions: Sessions::new(alloc, seed),
            linkers: Linkers::new(alloc),
            next,
        }
    }

    /// The serial that comes next. It and those above it are in no use.
    pub fn next(&self) -> u32
        ensures value { result ≡ self.now.next }
        ensures unused { IsBelow self.now.keys self.now.next }
    {
        self.next
    }

    /// Only keyrings have links: so only keyrings link keys. It does nothing.
    pub fn only_keyrings_link(&self)
        ensures kinds { AreOfKind self.now.keys }
        ensures only { OnlyRingsLink (shown self.now.keys) }
    {
        let _keys = &self.keys;
    }

    /// How many keys there are. A contract sees them by rising serial.
    pub fn len(&self) -> usize
        ensures len { result ≡ length self.now.keys }
        ensures ordered { IsStrictlySortedBy nat_cmp (keys_of self.now.keys) }
    {
        self.keys.len()
    }

    /// How many keyrings there are.
    pub fn ring_count(&self) -> usize
        ensures { result ≡ length (keyrings_in self.now.keys) }
    {
        self.keys.ring_count()
    }

    /// The key at a serial.
    #[inline(always)]
    pub fn get(&self, serial: Serial) -> Option<&Key>
        ensures { option_copied result ≡ at self.now.keys serial }
    {
        self.keys.get(serial.number())
    }

    /// Whether a keyring would refuse a link under this name: it is full, and no link is displaced.
    pub fn would_refuse(&self, ring: Serial, name: &HashedName) -> bool
        ensures { result ≡ is_refused (named_links_of_key_at self.now.keys ring) name.now }
    {
        let Some(key) = self.get(ring) else {
            return false;
        };
        key.would_refuse(name)
    }

    /// The keyring of the least serial that a caller may join by this name: keyctl(2), KEYCTL_JOIN_SESSION_KEYRING.
    pub fn joinable(&self, desc: &[u8], caller: &Caller, clock: u64) -> Option<Serial>
        ensures { result ≡ joinable_in clock caller.now desc.now self.now.keys }
    {
        self.keys.joinable(&self.sessions, desc, caller, clock)
    }

    /// One more key, under the next serial, which is answered: ENOSPC, ENOMEM.
    pub fn insert(&mut self, key: Key) -> Result<Serial, Errno>
        requires { IsOfKind key.name.kind key.content }
        ensures serial { IfOk result (λ n. n ≡ self.old.next) }
        ensures ok { OnOk result (self.new ≡ with_key self.old key) }
        ensures left { OnOk result (AreLeft self.old.next 1) }
        ensures error { IfErr result (λ e. e ≡ insert_error self.old.next 1) }
        ensures err { OnErr result (self.new ≡ self.old) }
    {
        let serial = self.next;
        if serial > LAST_SERIAL {
            return Err(Errno::ENOSPC);
        }
        put_in(
            &mut self.keys,
            &mut self.sessions,
            &mut self.linkers,
            serial,
            key,
            0,
        )?;
        note_links(&self.keys, &mut self.linkers, serial);
        self.next += 1;
        Ok(Serial::new(serial))
    }

    /// Two more keys, under consecutive serials, the first of which is answered: ENOSPC, ENOMEM. A refusal leaves
    /// neither.
    pub fn insert_two(&mut self, first: Key, second: Key) -> Result<Serial, Errno>
        requires first { IsOfKind first.name.kind first.content }
        requires second { IsOfKind second.name.kind second.content }
        ensures serial { IfOk result (λ n. n ≡ self.old.next) }
        ensures ok { OnOk result (self.new ≡ with_key (with_key self.old first) second) }
        ensures left { OnOk result (AreLeft self.old.next 2) }
        ensures error { IfErr result (λ e. e ≡ insert_error self.old.next 2) }
        ensures err { OnErr result (self.new ≡ self.old) }
    {
        let serial = self.next;
        if serial >= LAST_SERIAL {
            return Err(Errno::ENOSPC);
        }
        put_two(
            &mut self.keys,
            &mut self.sessions,
            &mut self.linkers,
            serial,
            first,
            second,
        )?;
        note_links(&self.keys, &mut self.linkers, serial);
        note_links(&self.keys, &mut self.linkers, serial + 1);
        self.next += 2;
        Ok(Serial::new(serial))
    }

    /// One more key, under the next serial, which a keyring links under this name, and the serial that this displaces:
    /// ENOSPC, ENFILE, ENOMEM. A refusal leaves neither key nor link.
    pub fn insert_linked(
        &mut self,
        ring: Serial,
        name: HashedName,
        key: Key,
    ) -> Result<Option<Serial>, Errno>
        requires { IsOfKind key.name.kind key.content }
        ensures displaced { IfOk result (λ old. old ≡ displaced_at (put self.old.keys self.old.next key) ring name) }
        ensures ok { OnOk result (self.new ≡ with_linked_key self.old ring name key) }
        ensures left { OnOk result (AreLeft self.old.next 1) }
        ensures room { OnOk result (is_refused (named_links_of_key_at (put self.old.keys self.old.next key)
            ring) name ≡ false) }
        ensures error { IfErr result (IsLinkedError (put self.old.keys self.old.next key) self.old.next ring name) }
        ensures err { OnErr result (self.new ≡ self.old) }
    {
        let serial = self.next;
        if serial > LAST_SERIAL {
            return Err(Errno::ENOSPC);
        }
        put_in(
            &mut self.keys,
            &mut self.sessions,
            &mut self.linkers,
            serial,
            key,
            ring.number(),
        )?;
        match self.keys.link(ring.number(), name, Serial::new(serial)) {
            Ok(displaced) => {
                forget(&self.keys, &mut self.linkers, ring.number(), &displaced);
                self.next += 1;
                Ok(displaced)
            }
            Err(error) => {
                let _ = take_out(
                    &mut self.keys,
                    &mut self.sessions,
                    &mut self.linkers,
                    serial,
                );
                Err(error)
            }
        }
    }

    /// One more link in a keyring, and the serial that it displaces: ENFILE, ENOMEM. It takes no memory where it
    /// displaces one.
    pub fn link(
        &mut self,
        ring: Serial,
        name: HashedName,
        serial: Serial,
    ) -> Result<Option<Serial>, Errno>
        ensures displaced { IfOk result (λ old. old ≡ displaced_at self.old.keys ring name) }
        ensures ok { OnOk result (self.new
            ≡ record self.old { keys = alter self.old.keys ring (with_entry name serial) }) }
        ensures room { OnOk result (is_refused (named_links_of_key_at self.old.keys ring) name ≡ false) }
        ensures in_place { IsSome (displaced_at self.old.keys ring name) → IsOk result }
        ensures error { IfErr result (λ e. e ≡ link_error (named_links_of_key_at self.old.keys ring) name) }
        ensures err { OnErr result (self.new ≡ self.old) }
    {
        let displaced = self.keys.link(ring.number(), name, serial)?;
        forget(&self.keys, &mut self.linkers, ring.number(), &displaced);
        note(&self.keys, &mut self.linkers, ring.number(), serial);
        Ok(displaced)
    }

    /// Whether a keyring links a key. It looks under the key's name alone.
    pub fn links_key(&self, ring: Serial, serial: Serial) -> bool
        requires fit { AreFit self.now.keys }
        ensures { result ≡ has_link serial (named_links_of_key_at self.now.keys ring) }
    {
        self.keys.links_key(ring.number(), serial)
    }

    /// Takes a key out of a keyring, and answers whether it was there. It looks for the key's own name, which each link
    /// has. It takes no memory. keyctl(2), KEYCTL_UNLINK.
    pub fn unlink(&mut self, ring: Serial, serial: Serial) -> bool
        requires fit { AreFit self.old.keys }
        ensures linked { result ≡ has_link serial (named_links_of_key_at self.old.keys ring) }
        ensures keys { self.new ≡ record self.old { keys = alter self.old.keys ring (without_key serial) } }
        ensures stays { result ≡ false → self.new ≡ self.old }
    {
        let linked = self.keys.unlink(ring.number(), serial);
        forget(&self.keys, &mut self.linkers, ring.number(), &Some(serial));
        linked
    }

    /// Takes a key out of all keyrings, from each by the key's own name. It takes no memory. keyctl(2),
    /// KEYCTL_INVALIDATE.
    pub fn unlink_all(&mut self, serial: Serial)
        requires fit { AreFit self.old.keys }
        ensures { self.new ≡ record self.old { keys = map_values (without_key serial) self.old.keys } }
    {
        self.keys.unlink_all(serial);
        forget_key(&self.keys, &mut self.linkers, serial.number());
    }

    /// Changes the key at a serial, where there is one.
    pub fn set(&mut self, serial: Serial, change: Change)
        ensures { self.new ≡ record self.old { keys = alter self.old.keys serial (changed change) } }
    {
        let number = serial.number();
        self.sessions.unlist_revoked(&self.keys, number, &change);
        forget_taken(&self.keys, &mut self.linkers, number, &change);
        self.keys.change(number, change);
    }

    /// Takes out the key at a serial, which no key gets again, and answers it.
    pub fn remove(&mut self, serial: Serial) -> Option<Key>
        ensures key { result ≡ at self.old.keys serial }
        ensures keys { self.new ≡ record self.old { keys = without self.old.keys serial } }
        ensures gone { at self.new.keys serial ≡ None }
    {
        take_out(
            &mut self.keys,
            &mut self.sessions,
            &mut self.linkers,
            serial.number(),
        )
    }
}

/// A new key, which is listed where it is a keyring that JOIN made, and which a keyring is to link, where that is one.
/// A refusal leaves what is there: ENOMEM.
fn put_in(
    keys: &mut PlacedKeys,
    sessions: &mut Sessions,
    linkers: &mut Linkers,
    serial: u32,
    key: Key,
    ring: u32,
) -> Result<(), Errno>
    requires placed { ArePlaced keys.old }
    requires sessions { AreSessions sessions.old (by_place keys.old) }
    requires absent { at (by_place keys.old) serial ≡ None }
    ensures placed { ArePlaced keys.new }
    ensures sessions { AreSessions sessions.new (by_place keys.new) }
    ensures ok { OnOk result (by_place keys.new ≡ put (by_place keys.old) serial key) }
    ensures error { IfErr result (λ e. e ≡ Errno.ENOMEM) }
    ensures err { OnErr result (by_place keys.new ≡ by_place keys.old) }
{
    if keys.reserve(1).is_err()
        || linkers.reserve(keys.capacity()).is_err()
        || sessions.list(serial, &key).is_err()
    {
        return Err(Errno::ENOMEM);
    }
    let place = keys.put(serial, key);
    linkers.begin(place, ring);
    Ok(())
}

/// Two new keys, at a serial and the next one. A refusal leaves what is there: ENOMEM.
fn put_two(
    keys: &mut PlacedKeys,
    sessions: &mut Sessions,
    linkers: &mut Linkers,
    serial: u32,
    first: Key,
    second: Key,
) -> Result<(), Errno>
    requires placed { ArePlaced keys.old }
    requires sessions { AreSessions sessions.old (by_place keys.old) }
    requires fits { serial + 1 < 2 ^ 32 }
    requires absent { at (by_place keys.old) serial ≡ None }
    requires absent_next { at (by_place keys.old) (serial + 1) ≡ None }
    ensures placed { ArePlaced keys.new }
    ensures sessions { AreSessions sessions.new (by_place keys.new) }
    ensures ok { OnOk result
        (by_place keys.new ≡ put (put (by_place keys.old) serial first) (serial + 1) second) }
    ensures error { IfErr result (λ e. e ≡ Errno.ENOMEM) }
    ensures err { OnErr result (by_place keys.new ≡ by_place keys.old) }
{
    put_in(keys, sessions, linkers, serial, first, 0)?;
    match put_in(keys, sessions, linkers, serial + 1, second, 0) {
        Ok(()) => Ok(()),
        Err(error) => {
            let _ = take_out(keys, sessions, linkers, serial);
            Err(error)
        }
    }
}

/// Takes out the key at a serial, which is listed no more, and answers it.
fn take_out(
    keys: &mut PlacedKeys,
    sessions: &mut Sessions,
    linkers: &mut Linkers,
    serial: u32,
) -> Option<Key>
    requires placed { ArePlaced keys.old }
    requires sessions { AreSessions sessions.old (by_place keys.old) }
    ensures placed { ArePlaced keys.new }
    ensures sessions { AreSessions sessions.new (by_place keys.new) }
    ensures key { result ≡ at (by_place keys.old) serial }
    ensures keys { by_place keys.new ≡ without (by_place keys.old) serial }
    ensures gone { at (by_place keys.new) serial ≡ None }
{
    forget_links(keys, linkers, serial);
    let key = keys.remove(serial)?;
    sessions.unlist(serial, &key);
    linkers.cut(keys.capacity());
    Some(key)
}
