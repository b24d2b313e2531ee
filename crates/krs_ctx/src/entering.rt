//! The contexts that a client enters: HELLO, THREAD and FORK.
ghost use Rattle.std.specs.Prelude.{◌+◌, ◌≡◌, IfOk, None, OnErr, OnOk, Some};
ghost use Rattle.krs_model.specs.Asks.Entering.{fork, thread, without_thread};
ghost use Rattle.krs_model.specs.{Lookup.user_session_ring, Outcome.Is, State.State, Table.at};
ghost use Rattle.krs_ctx.specs.Anchors.{anchored, IsFit};
ghost use Rattle.krs_ctx.specs.Told.{CanBeTakenBack, enterable, Enters, greeted, Opens, OpensWith, taken_back};

use crate::contexts::Contexts;
use crate::maps::{enter, enter_first, own_context, take_out};
use krs_types::{Caller, Context, Errno, Fault, Serial, UidRings};
use std::alloc::{AllocError, Global};

/// How many contexts a client has at most: profile, contexts per client.
const MAX_CONTEXTS: usize = 64;

/// The last context number that is given: profile, context numbers.
const LAST_NUMBER: u64 = 4_294_967_295;

impl Contexts {
    /// Whether a client may have one more context: EINVAL, ENOSPC.
    pub fn can_enter(&self, client: u32) -> Result<(), Errno>
        ensures given { (s : State) → result ≡ enterable (anchored s self.now) client }
        ensures fit { IsFit self.now }
    {
        self.next_number(client)?;
        Ok(())
    }

    /// The number of the client's next context, where it may have one more.
    fn next_number(&self, client: u32) -> Result<u32, Errno>
        ensures given { (s : State) → Is (λ n. tt) result (enterable (anchored s self.now) client) }
        ensures number { IfOk result (λ n. n ≡ self.now.next_context) }
        ensures fit { IsFit self.now }
    {
        if self.contexts.count(client) >= MAX_CONTEXTS {
            return Err(Errno::EINVAL);
        }
        if self.next > LAST_NUMBER {
            return Err(Errno::ENOSPC);
        }
        Ok(self.next as u32)
    }

    /// A context in a process of its own, for a caller that was checked. The keyrings of its uid come with the uid's
    /// first context: whoever asks makes them, and takes the context back where that fails. EINVAL, ENOSPC, ENOMEM.
    pub fn hello(
        &mut self,
        client: u32,
        caller: Caller,
        made: Option<UidRings>,
    ) -> Result<u32, Fault>
        ensures done { Enters self.old result self.new (λ s. greeted s client caller made) }
        ensures last { IfOk result (λ n. self.new.next_context ≡ n + 1) }
        ensures back { CanBeTakenBack self.old result self.new caller.uid }
    {
        let number = self.next_number(client)?;
        self.open(client, caller, number, made)?;
        Ok(number)
    }

    /// A context of a uid that has its keyrings, or for which they were made.
    fn open(
        &mut self,
        client: u32,
        caller: Caller,
        number: u32,
        made: Option<UidRings>,
    ) -> Result<(), AllocError>
        requires { self.old.next_context ≡ number }
        ensures ok { OnOk result (Opens self.old self.new client caller made) }
        ensures err { OnErr result (self.new ≡ self.old) }
    {
        match made {
            Some(rings) => self.open_first(client, caller, number, rings),
            None => self.open_known(client, caller, number),
        }
    }

    /// A context of a uid that has its keyrings.
    fn open_known(&mut self, client: u32, caller: Caller, number: u32) -> Result<(), AllocError>
        requires { self.old.next_context ≡ number }
        ensures ok { OnOk result (Opens self.old self.new client caller None) }
        ensures err { OnErr result (self.new ≡ self.old) }
    {
        let session = self.uid_session(caller.uid);
        self.open_with(client, caller, number, session)
    }

    /// The user-session keyring of a uid.
    fn uid_session(&self, uid: u32) -> Option<Serial>
        ensures { result ≡ user_session_ring (at self.now.uids uid) }
    {
        match self.uids.get(&uid) {
            Some(rings) => rings.session,
            None => None,
        }
    }

    /// A context in a process of its own, with this session keyring.
    fn open_with(
        &mut self,
        client: u32,
        caller: Caller,
        number: u32,
        session: Option<Serial>,
    ) -> Result<(), AllocError>
        requires { self.old.next_context ≡ number }
        ensures ok { OnOk result (OpensWith self.old self.new client caller session) }
        ensures err { OnErr result (self.new ≡ self.old) }
    {
        let context = own_context(client, caller, number, session);
        enter(&mut self.contexts, &mut self.processes, number, context)?;
        self.next += 1;
        Ok(())
    }

    /// The first context of a uid, with the keyrings that were made for it.
    fn open_first(
        &mut self,
        client: u32,
        caller: Caller,
        number: u32,
        rings: UidRings,
    ) -> Result<(), AllocError>
        requires { self.old.next_context ≡ number }
        ensures ok { OnOk result (Opens self.old self.new client caller (Some rings)) }
        ensures err { OnErr result (self.new ≡ self.old) }
    {
        let context = own_context(client, caller, number, rings.session);
        enter_first(
            &mut self.contexts,
            &mut self.processes,
            &mut self.uids,
            number,
            context,
            rings,
        )?;
        self.next += 1;
        Ok(())
    }

    /// Takes back the context that was made last, with its process and the keyrings of its uid: for a HELLO whose
    /// uid's keyrings could not be made after all.
    pub fn take_back(&mut self, number: u32, uid: u32)
        requires { self.old.next_context ≡ number + 1 }
        ensures { self.new ≡ taken_back self.old number uid }
    {
        let _ = self.contexts.remove(number);
        take_out(&mut self.processes, number);
        take_out(&mut self.uids, uid);
        self.next = u64::from(number);
        self.whole = false;
    }

    /// One more context of a process, with the session keyring of this one: ESRCH, EINVAL, ENOSPC, ENOMEM.
    #[tactic(auto, unfolding(krs_model::specs::Asks::Entering::thread))]
    pub fn thread(&mut self, client: u32, number: u32) -> Result<u32, Fault>
        ensures { Enters self.old result self.new (λ s. thread s client number) }
    {
        let maker = self.context_of(client, number)?;
        let entered = self.next_number(client)?;
        let context = thread_of(self.alloc, maker)?;
        self.contexts.insert(entered, context)?;
        self.next += 1;
        Ok(entered)
    }

    /// A context in a process of its own, with the session keyring of this one: ESRCH, EINVAL, ENOSPC, ENOMEM.
    #[tactic(auto, unfolding(krs_model::specs::Asks::Entering::fork))]
    pub fn fork(&mut self, client: u32, number: u32) -> Result<u32, Fault>
        ensures { Enters self.old result self.new (λ s. fork s client number) }
    {
        let maker = self.context_of(client, number)?;
        let entered = self.next_number(client)?;
        let session = maker.session;
        let caller = maker.caller.copy(self.alloc)?;
        self.open_with(client, caller, entered, session)?;
        Ok(entered)
    }
}

/// A context as this one, without a thread keyring.
fn thread_of(alloc: Global, context: &Context) -> Result<Context, AllocError>
    ensures { IfOk result (λ c. c ≡ without_thread context.now) }
{
    Ok(Context {
        client: context.client,
        process: context.process,
        caller: context.caller.copy(alloc)?,
        thread: None,
        session: context.session,
    })
}
