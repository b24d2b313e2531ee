//! The contexts by number, with what each client, process and uid has of them.
ghost use Rattle.std.specs.Prelude.{[], ◌<◌, ◌==◌, ◌||◌, ◌≡◌, count_by, filter, IfNone, IfSome, length, None, not};
ghost use Rattle.std.specs.{Prelude.{OnErr, OnOk, option_copied, ℕ}, Map.values_of};
ghost use Rattle.krs_model.specs.Asks.{Invalidating.context_without, Leaving.{contexts_without, has_process, has_uid}};
ghost use Rattle.krs_model.specs.Table.{alter, at, map_values, put, Rises, without};
ghost use Rattle.krs_ctx.specs.Members.{contexts_in, IsThereFailing, placed};

use crate::listed::{Groups, Listed};
use crate::maps::{detach_contexts, put_new, set_session, set_thread, take_out};
use krs_types::{Context, Serial};
use std::alloc::{AllocError, Global};
use std::collections::BTreeMap;
use std::collections::btree_set::Range;
use std::marker::Model;

/// Contexts by number. What is asked of a client, a process or a uid looks at its own contexts alone.
#[derive(Drop)]
pub(crate) struct ContextTable {
    contexts: BTreeMap<u32, Context>,
    listed: Listed,
}

impl Model for ContextTable {
    ghost use Rattle.krs_types.specs.declared.context.Context.{Context};
    ghost use Rattle.krs_model.specs.Table.{Table};

    ghost Value = { Table Context };

    ghost use Rattle.krs_ctx.specs.View.{AreListedInside};

    ghost view = { λ t. t.contexts.entries };

    ghost invariant = { AreListedInside };
}

impl ContextTable {
    /// No contexts. It takes no memory.
    pub(crate) fn new(alloc: Global) -> Self
        ensures { result ≡ [] }
    {
        ContextTable {
            contexts: BTreeMap::new(alloc),
            listed: Listed::new(alloc),
        }
    }

    /// The contexts by number.
    pub(crate) fn all(&self) -> &BTreeMap<u32, Context>
        ensures { result.now.entries ≡ self.now }
    {
        &self.contexts
    }

    /// The context of a number.
    pub(crate) fn get(&self, number: u32) -> Option<&Context>
        ensures { option_copied result ≡ at self.now number }
    {
        self.contexts.get(&number)
    }

    /// How many contexts a client has.
    pub(crate) fn count(&self, client: u32) -> usize
        ensures { result ≡ count_by (λ c. c.client == client) (values_of self.now) }
    {
        self.listed.clients.count(client)
    }

    /// Whether a process has a context.
    pub(crate) fn has_process(&self, process: u32) -> bool
        ensures { result ≡ has_process self.now process }
    {
        self.listed.processes.first(process).is_some()
    }

    /// Whether a uid has a context.
    pub(crate) fn has_uid(&self, uid: u32) -> bool
        ensures { result ≡ has_uid self.now uid }
    {
        self.listed.uids.first(uid).is_some()
    }

    /// The first context of a client.
    pub(crate) fn first_of(&self, client: u32) -> Option<u32>
        ensures there { IfSome result (IsThereFailing (λ e. not (e.1.client == client)) self.now) }
        ensures none { IfNone result (contexts_without client self.now ≡ self.now) }
    {
        self.listed.clients.first(client)
    }

    /// The contexts of a process, numbers rising: its number, and theirs.
    pub(crate) fn in_process(&self, process: u32) -> Range<'_, (u64, u32)>
        ensures all { result ≡ placed process (contexts_in process self.now) }
        ensures rises { Rises self.now }
    {
        self.listed.processes.of(process)
    }

    /// The first other context of a process.
    pub(crate) fn other_in(&self, process: u32, number: u32) -> Option<u32>
        ensures there { IfSome result (IsThereFailing
            (λ e. not (e.1.process == process) || (e.0 == number)) self.now) }
        ensures none { IfNone result
            (filter (λ e. not (e.1.process == process) || (e.0 == number)) self.now ≡ self.now) }
    {
        self.listed.processes.other(process, number)
    }

    /// A new context. A refusal leaves it nowhere.
    #[tactic(auto, using(krs_model::proofs::Tables::Changes::without_put))]
    pub(crate) fn insert(&mut self, number: u32, context: Context) -> Result<(), AllocError>
        requires { at self.old number ≡ None }
        ensures ok { OnOk result (self.new ≡ put self.old number context) }
        ensures err { OnErr result (self.new ≡ self.old) }
    {
        let groups = Groups::of(&context);
        put_new(&mut self.contexts, number, context)?;
        if self.listed.list(number, groups).is_err() {
            take_out(&mut self.contexts, number);
            return Err(AllocError);
        }
        Ok(())
    }

    /// Takes a context out, which is answered.
    pub(crate) fn remove(&mut self, number: u32) -> Option<Context>
        ensures value { result ≡ at self.old number }
        ensures contexts { self.new ≡ without self.old number }
        ensures gone { at self.new number ≡ None }
        ensures fewer { IfSome result (λ c. length self.new < length self.old) }
    {
        let Some(context) = self.contexts.remove(&number) else {
            return None;
        };
        self.listed.unlist(number, Groups::of(&context));
        Some(context)
    }

    /// Another thread keyring of a context, or none.
    pub(crate) fn set_thread(&mut self, number: u32, ring: Option<Serial>)
        ensures { self.new ≡ alter self.old number (λ c. record c { thread = ring }) }
    {
        set_thread(&mut self.contexts, number, ring);
    }

    /// Another session keyring of a context, or none.
    pub(crate) fn set_session(&mut self, number: u32, ring: Option<Serial>)
        ensures { self.new ≡ alter self.old number (λ c. record c { session = ring }) }
    {
        set_session(&mut self.contexts, number, ring);
    }

    /// No context attaches the key.
    pub(crate) fn detach(&mut self, serial: Serial)
        ensures { self.new ≡ map_values (context_without serial) self.old }
    {
        detach_contexts(&mut self.contexts, serial);
    }

    /// Just this context of its process stays.
    pub(crate) fn end_others(&mut self, process: u32, number: u32)
        ensures { self.new ≡ filter (λ e. not (e.1.process == process) || (e.0 == number)) self.old }
    {
        'ending: while let Some(other) = self.other_in(process, number) {
            let _ = self.remove(other);
        }
    }
}
