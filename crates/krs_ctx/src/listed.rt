//! Contexts by their client, by their process and by their uid.
ghost use Rattle.std.specs.Prelude.{[], ◌≡◌, OnErr, OnOk};
ghost use Rattle.krs_ctx.specs.Members.{AreListed, groups_of, KeepsListed, ListsContext, UnlistsContext};

use crate::members::Members;
use krs_types::Context;
use std::alloc::{AllocError, Global};

/// What a context is of.
#[derive(Clone, Copy)]
pub(crate) struct Groups {
    client: u32,
    process: u32,
    uid: u32,
}

impl Groups {
    /// Those of a context.
    pub(crate) fn of(context: &Context) -> Self
        ensures { result ≡ groups_of context.now }
    {
        Groups {
            client: context.client,
            process: context.process,
            uid: context.caller.uid,
        }
    }
}

/// The contexts of each client, of each process and of each uid.
#[derive(Drop)]
pub(crate) struct Listed {
    pub(crate) clients: Members,
    pub(crate) processes: Members,
    pub(crate) uids: Members,
}

impl Listed {
    /// None. It takes no memory.
    pub(crate) fn new(alloc: Global) -> Self
        ensures { AreListed [] result }
    {
        Listed {
            clients: Members::new(alloc),
            processes: Members::new(alloc),
            uids: Members::new(alloc),
        }
    }

    /// Lists a new context. A refusal leaves it listed nowhere.
    pub(crate) fn list(&mut self, number: u32, groups: Groups) -> Result<(), AllocError>
        ensures ok { OnOk result (ListsContext number groups self.old self.new) }
        ensures err { OnErr result (KeepsListed number self.old self.new) }
    {
        self.clients.insert(groups.client, number)?;
        if self.processes.insert(groups.process, number).is_err() {
            self.clients.remove(groups.client, number);
            return Err(AllocError);
        }
        if self.uids.insert(groups.uid, number).is_err() {
            self.clients.remove(groups.client, number);
            self.processes.remove(groups.process, number);
            return Err(AllocError);
        }
        Ok(())
    }

    /// Lists a context no more that ends.
    pub(crate) fn unlist(&mut self, number: u32, groups: Groups)
        ensures { UnlistsContext number groups self.old self.new }
    {
        self.clients.remove(groups.client, number);
        self.processes.remove(groups.process, number);
        self.uids.remove(groups.uid, number);
    }
}
