//! Contexts with their processes and uids: what is asked of them, and what is attached to them.
ghost use Rattle.std.specs.Prelude.{[], ◌≡◌};
ghost use Rattle.krs_model.specs.{Asks.{Joining.session_to, Leaving.{has_process, has_uid}}, Lookup.context_of};
ghost use Rattle.krs_model.specs.{Making.thread_to, Outcome.Is, Possession.process_ring, State.State};
ghost use Rattle.krs_model.specs.Table.{at, Rises};
ghost use Rattle.krs_ctx.specs.{Anchors.{anchored, IsFit}, Members.{contexts_in, placed}};
ghost use Rattle.krs_ctx.specs.Told.{anchors_without, changed, with_ring};

use crate::maps::{detach_processes, detach_uids, set_ring};
use crate::table::ContextTable;
use krs_types::{Context, Errno, Serial, UidRings};
use std::alloc::Global;
use std::collections::BTreeMap;
use std::collections::btree_set::Range;
use std::marker::Model;

/// Contexts by number, processes by number with their process keyrings, and uids with their two keyrings.
#[derive(Drop)]
pub struct Contexts {
    pub(crate) contexts: ContextTable,
    pub(crate) processes: BTreeMap<u32, Option<Serial>>,
    pub(crate) uids: BTreeMap<u32, UidRings>,
    pub(crate) next: u64,
    /// Whether each process and each uid is known to have a context: not after a context was taken back.
    pub(crate) whole: bool,
    pub(crate) alloc: Global,
}

impl Model for Contexts {
    ghost use Rattle.krs_ctx.specs.Anchors.{Anchors};

    ghost Value = { Anchors };

    ghost use Rattle.krs_ctx.specs.View.{anchors_in, IsFitInside};

    ghost view = { anchors_in };

    ghost invariant = { IsFitInside };
}

impl Contexts {
    /// No contexts, and number 1 next. It takes no memory.
    pub fn new(alloc: Global) -> Self
        ensures { result ≡ record { contexts = []; processes = []; uids = []; next_context = 1 } }
    {
        Contexts {
            contexts: ContextTable::new(alloc),
            processes: BTreeMap::new(alloc),
            uids: BTreeMap::new(alloc),
            next: 1,
            whole: true,
            alloc,
        }
    }

    /// The contexts by number.
    pub fn contexts(&self) -> &BTreeMap<u32, Context>
        ensures value { result.now.entries ≡ self.now.contexts }
        ensures fit { IsFit self.now }
    {
        self.contexts.all()
    }

    /// The process keyrings by the number of the process.
    pub fn processes(&self) -> &BTreeMap<u32, Option<Serial>>
        ensures { result.now.entries ≡ self.now.processes }
    {
        &self.processes
    }

    /// The user and user-session keyrings by uid.
    pub fn uids(&self) -> &BTreeMap<u32, UidRings>
        ensures { result.now.entries ≡ self.now.uids }
    {
        &self.uids
    }

    /// The contexts of a process, numbers rising: its number, and theirs. It looks at no other context.
    pub fn in_process(&self, process: u32) -> Range<'_, (u64, u32)>
        ensures all { result ≡ placed process (contexts_in process self.now.contexts) }
        ensures rises { Rises self.now.contexts }
    {
        self.contexts.in_process(process)
    }

    /// Whether a process has a context.
    pub fn has_process(&self, process: u32) -> bool
        ensures { result ≡ has_process self.now.contexts process }
    {
        self.contexts.has_process(process)
    }

    /// Whether a uid has a context.
    pub fn has_uid(&self, uid: u32) -> bool
        ensures { result ≡ has_uid self.now.contexts uid }
    {
        self.contexts.has_uid(uid)
    }

    /// The context of that number, where it is the client's: ESRCH.
    #[tactic(auto, unfolding(krs_model::specs::Lookup::context_of))]
    pub fn context_of(&self, client: u32, number: u32) -> Result<&Context, Errno>
        ensures { (s : State)
            → Is (λ c. c.now) result (context_of (anchored s self.now) client number) }
    {
        match self.contexts.get(number) {
            Some(context) if context.client == client => Ok(context),
            _ => Err(Errno::ESRCH),
        }
    }

    /// The keyring of a process.
    pub fn process_ring(&self, process: u32) -> Option<Serial>
        ensures { (s : State) → result ≡ process_ring (anchored s self.now) process }
    {
        match self.processes.get(&process) {
            Some(ring) => *ring,
            None => None,
        }
    }

    /// The keyrings of a uid, where it has a context.
    pub fn rings(&self, uid: u32) -> Option<UidRings>
        ensures { result ≡ at self.now.uids uid }
    {
        self.uids.get(&uid).copied()
    }

    /// Takes a key out of every attachment. It takes no memory.
    pub fn detach(&mut self, serial: Serial)
        ensures { self.new ≡ anchors_without self.old serial }
    {
        self.contexts.detach(serial);
        detach_processes(&mut self.processes, serial);
        detach_uids(&mut self.uids, serial);
    }

    /// Makes a keyring the session keyring of a context.
    pub fn attach_session(&mut self, number: u32, ring: Serial)
        ensures { self.new ≡ changed self.old number (session_to ring) }
    {
        self.contexts.set_session(number, Some(ring));
    }

    /// Makes a keyring the thread keyring of a context.
    pub fn attach_thread(&mut self, number: u32, ring: Serial)
        ensures { self.new ≡ changed self.old number (thread_to ring) }
    {
        self.contexts.set_thread(number, Some(ring));
    }

    /// Makes a keyring the keyring of a process.
    pub fn attach_process(&mut self, process: u32, ring: Serial)
        ensures { self.new ≡ with_ring self.old process ring }
    {
        set_ring(&mut self.processes, process, Some(ring));
    }
}
