//! The contexts that end: EXEC, EXIT and LEAVE.
ghost use Rattle.std.specs.Prelude.{◌==◌, ◌≡◌, IfNone, IfSome, not, true};
ghost use Rattle.krs_model.specs.{Asks.{Entering.exec, Leaving.{contexts_without, exit, left}}, State.State, Table.at};
ghost use Rattle.krs_ctx.specs.Anchors.{anchored, anchors_of, IsWhole};
ghost use Rattle.krs_ctx.specs.{Members.IsThereFailing, Told.{Does, ended_where, without_idle}};

use crate::contexts::Contexts;
use crate::maps::{drop_processes, drop_uids, end_process, end_uid, set_ring};
use krs_types::Errno;

impl Contexts {
    /// Ends the other contexts of a context's process, and lets go of the keyrings of both: ESRCH.
    #[tactic(auto, unfolding(krs_model::specs::Asks::Entering::exec))]
    pub fn exec(&mut self, client: u32, number: u32) -> Result<(), Errno>
        ensures { Does self.old result self.new (λ s. exec s client number) }
    {
        let process = self.context_of(client, number)?.process;
        self.contexts.set_thread(number, None);
        self.contexts.end_others(process, number);
        set_ring(&mut self.processes, process, None);
        Ok(())
    }

    /// Ends a context: ESRCH.
    #[tactic(auto, unfolding(krs_model::specs::Asks::Leaving::exit))]
    pub fn exit(&mut self, client: u32, number: u32) -> Result<(), Errno>
        ensures { Does self.old result self.new (λ s. exit s client number) }
    {
        let _own = self.context_of(client, number)?;
        self.end(number);
        Ok(())
    }

    /// Ends a context, and its process and the keyrings of its uid with their last context.
    fn end(&mut self, number: u32)
        ensures { self.new ≡ ended_where self.old number (at self.old.contexts number) }
    {
        let Some(context) = self.contexts.remove(number) else {
            return;
        };
        end_process(&mut self.processes, &self.contexts, context.process);
        end_uid(&mut self.uids, &self.contexts, context.caller.uid);
    }

    /// A context of a client.
    pub fn first_of(&self, client: u32) -> Option<u32>
        ensures there { IfSome result (IsThereFailing
            (λ e. not (e.1.client == client)) self.now.contexts) }
        ensures none { IfNone result
            (contexts_without client self.now.contexts ≡ self.now.contexts) }
    {
        self.contexts.first_of(client)
    }

    /// Whether each process and each uid is known to have a context.
    pub fn is_whole(&self) -> bool
        ensures { result ≡ true → IsWhole self.now }
    {
        self.whole
    }

    /// Just the processes and uids stay that have a context.
    fn end_idle(&mut self)
        ensures { self.new ≡ without_idle self.old }
    {
        drop_processes(&mut self.processes, &self.contexts);
        drop_uids(&mut self.uids, &self.contexts);
        self.whole = true;
    }

    /// Ends all contexts of a client, and the processes and uids that have no context then.
    pub fn leave(&mut self, client: u32)
        ensures { (s : State) → self.new ≡ anchors_of (left (anchored s self.old) client) }
    {
        'ending: while let Some(number) = self.first_of(client) {
            self.end(number);
        }
        if !self.is_whole() {
            self.end_idle();
        }
    }
}
