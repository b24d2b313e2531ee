ghost use Rattle.std.specs.Prelude.{[], ◌≡◌, ◌≤◌, IfOk, IfSome, option_map, Some};
ghost use Rattle.krs_model.specs.{Asks.Changing.changed, Lookup.{context_of, look_up, serial_of}, Outcome.Is};
ghost use Rattle.krs_model.specs.{Possession.{possessed, process_ring}, Reach.{IsAcyclic, links_of_key_at}};
ghost use Rattle.krs_model.specs.{State.{raised, starting_at}, Sweep.live_watches, Table.at};
ghost use Rattle.krs_keys.specs.{Changes.meant_change, Keys.{AreFit, FindsByName, name_at, seen}};
ghost use Rattle.krs_walk.specs.Seeking.{is_possessed};
ghost use Rattle.krs_tables.specs.{Granting.grants_to, Linked.name_in, Serving.SweepsOut};

use krs_ctx::Contexts;
use krs_hold::Holders;
use krs_keys::{Change, Key, KeyTable};
use krs_links::{HashedName, Links, NameHasher, Seed};
use krs_types::{Context, Errno, KeyId, Kind, Name, Serial, Want};
use krs_walk::{Sought, Walker};
use krs_watch::{Memory, WatchQueues};
use std::alloc::{AllocError, Global};
use std::marker::Model;

/// All that a store has. An ask is a function over it, or over its parts. The walker keeps its room from one walk to
/// the next; it is no part of what contracts see.
#[derive(Drop)]
pub struct Tables {
    pub keys: KeyTable,
    pub contexts: Contexts,
    pub queues: WatchQueues,
    pub clock: u64,
    pub holders: Holders,
    pub walker: Walker,
    pub alloc: Global,
    /// How much of it is to be left for others. It is no part of what contracts see.
    pub memory: Memory,
    /// Of the names of links. It is no part of what contracts see.
    pub(crate) names: NameHasher,
}

impl Model for Tables {
    ghost use Rattle.krs_model.specs.State.{State};

    ghost Value = { State };

    ghost use Rattle.krs_tables.specs.View.{IsConsistent, state_of};

    ghost view = { state_of };

    ghost invariant = { IsConsistent };
}

impl Tables {
    /// An empty store that gives this serial next, and hashes names from this seed.
    pub fn starting_at(alloc: Global, seed: Seed, next: u32) -> Self
        requires { 3 ≤ next }
        ensures { result ≡ starting_at next }
    {
        Tables {
            keys: KeyTable::starting_at(alloc, seed, next),
            contexts: Contexts::new(alloc),
            queues: WatchQueues::new(alloc),
            clock: 0,
            holders: Holders::new(alloc),
            walker: Walker::new(alloc),
            alloc,
            memory: Memory::new(alloc),
            names: NameHasher::new(seed),
        }
    }

    /// Asked before an ask keeps memory, once nothing else refuses it: whether as much is left as is lacking elsewhere.
    /// No clause can say how much that is.
    pub fn check_memory(&self) -> Result<(), AllocError> {
        self.memory.check()
    }

    /// The context of that number, where it is the client's.
    pub fn context_of(&self, client: u32, number: u32) -> Result<&Context, Errno>
        ensures { Is (λ c. c.now) result (context_of self.now client number) }
    {
        self.contexts.context_of(client, number)
    }

    /// The keyring of a process.
    pub fn process_ring(&self, process: u32) -> Option<Serial>
        ensures { result ≡ process_ring self.now process }
    {
        self.contexts.process_ring(process)
    }

    /// Whether a context possesses a key, whose name is at hand, so that it needn't be looked up again: keyrings(7),
    /// "Possession".
    #[tactic(auto, unfolding(krs_model::specs::Possession::possessed))]
    fn possesses_named(&self, context: &Context, serial: Serial, name: &HashedName) -> bool
        requires { name_in self.now serial ≡ Some name.now }
        ensures { result ≡ possessed self.now context.now serial }
    {
        let sought = Sought {
            keys: &self.keys,
            context,
            process_ring: self.process_ring(context.process),
            clock: self.clock,
            name,
            serial,
        };
        self.walker.possesses_hinted(&sought) || self.possesses_unhinted(&sought)
    }

    /// The same of a key that no hint finds: where that takes a look at many keyrings, it may be known first that it is
    /// out of their reach.
    #[inline(never)]
    fn possesses_unhinted(&self, sought: &Sought<'_>) -> bool
        requires fit { AreFit sought.now.keys.now.keys }
        requires name { name_at sought.now.keys.now.keys sought.now.serial ≡ Some sought.now.name.now }
        requires here { is_possessed sought.now ≡ possessed self.now sought.now.context.now sought.now.serial }
        ensures { result ≡ possessed self.now sought.now.context.now sought.now.serial }
    {
        if let Some(possessed) = self.walker.possesses_soon(sought) {
            return possessed;
        }
        !self.is_apart(sought.context, sought.serial) && self.walker.possesses_named(sought)
    }

    /// The serial that an id stands for.
    #[tactic(auto, unfolding(krs_model::specs::Lookup::serial_of))]
    pub fn serial_of(&self, context: &Context, id: i32) -> Result<Serial, Errno>
        ensures { Is (λ n. n) result (serial_of self.now context.now id) }
    {
        let attached = match KeyId::from_i32(id)? {
            KeyId::Serial(serial) => Some(serial),
            KeyId::Thread => context.thread,
            KeyId::Process => self.process_ring(context.process),
            KeyId::Session => context.session,
            KeyId::User => match self.contexts.rings(context.caller.uid) {
                Some(rings) => rings.user,
                None => None,
            },
            KeyId::UserSession => match self.contexts.rings(context.caller.uid) {
                Some(rings) => rings.session,
                None => None,
            },
        };
        attached.ok_or(Errno::ENOKEY)
    }

    /// The key at a serial.
    #[tactic(auto, using(krs_model::proofs::Tables::Changes::at_map))]
    pub fn key(&self, serial: Serial) -> Option<&Key>
        ensures value { option_map (λ k. seen k.now) result ≡ at self.now.keys serial }
        ensures named { IfSome result (λ k. FindsByName self.now.keys k.now) }
    {
        match self.keys.get(serial) {
            Some(key) => Some(key),
            None => None,
        }
    }

    /// The key that an id names, where it grants what is wanted.
    #[tactic(auto, unfolding(krs_model::specs::Lookup::look_up))]
    pub fn look_up(&self, context: &Context, id: i32, want: Want) -> Result<(u32, &Key), Errno>
        ensures found { Is (λ x. (x.0, seen x.1.now)) result (look_up self.now context.now id want) }
        ensures named { IfOk result (λ x. FindsByName self.now.keys x.1.now) }
    {
        let serial = self.serial_of(context, id)?;
        let Some(key) = self.keys.get(serial) else {
            return Err(Errno::ENOKEY);
        };
        if key.revoked {
            return Err(Errno::EKEYREVOKED);
        }
        if key.is_over(self.clock) {
            return Err(Errno::EKEYEXPIRED);
        }
        if !self.grants(context, serial, key, want) {
            return Err(Errno::EACCES);
        }
        Ok((serial.number(), key))
    }

    /// Whether the key at a serial grants a context what is wanted. Possession is looked for only where it may add
    /// something: what is granted without it is granted with it.
    #[inline(always)]
    pub fn grants(&self, context: &Context, serial: Serial, key: &Key, want: Want) -> bool
        requires { at self.now.keys serial ≡ Some (seen key.now) }
        ensures { result ≡ grants_to self.now context.now serial (seen key.now) want }
    {
        if want.allows(key.grants(&context.caller, false), false) {
            return true;
        }
        let possessed = self.possesses_named(context, serial, &key.name);
        want.allows(key.grants(&context.caller, possessed), possessed)
    }

    /// Changes the key at a serial, and nothing else.
    pub fn change(&mut self, serial: Serial, change: Change)
        ensures { self.new ≡ changed self.old serial (meant_change change) }
    {
        self.holders.let_go_taken(&self.keys, serial, &change);
        self.keys.set(serial, change);
    }

    /// A name, hashed for all the look-ups of an ask.
    pub fn hashed(&self, name: Name) -> HashedName
        ensures { result ≡ name }
    {
        self.names.hashed(name)
    }

    /// The links of a keyring that is made empty.
    pub fn no_links(&self) -> Links
        ensures { result ≡ [] }
    {
        Links::new(self.alloc, self.names.seed())
    }

    /// Room for walks over the keyrings and so many keys more, which may be keyrings: it is made before the keys are,
    /// and only where memory isn't short. No clause can say so: it lies in cells.
    pub fn make_walk_room(&self, more: usize) -> Result<(), AllocError> {
        self.check_memory()?;
        self.walker
            .room_for(self.keys.ring_count().saturating_add(more))
    }

    /// The same for a new key of this kind: a walk comes to keyrings alone.
    pub fn make_room_for(&self, kind: Kind) -> Result<(), AllocError> {
        if kind.is(Kind::Keyring) {
            return self.make_walk_room(1);
        }
        self.check_memory()
    }

    /// The clock is at least at this moment from now on.
    pub fn raise(&mut self, moment: u64)
        ensures { self.new ≡ raised self.old moment }
    {
        self.clock = self.clock.max(moment);
    }

    /// Just the keys stay that are attached, or linked by what stays. The watches of the others end with removal
    /// records.
    pub fn sweep(&mut self)
        requires acyclic { IsAcyclic (links_of_key_at self.old.keys) }
        requires live { live_watches self.old.keys self.old.watches ≡ self.old.watches }
        ensures { SweepsOut self.old self.new }
    {
        let told = self.holders.sweep(self.alloc, &mut self.keys, &self.queues);
        self.queues.sweep(&self.keys, &told);
    }
}
