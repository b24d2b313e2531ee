ghost use Rattle.std.specs.Prelude.{◌≡◌};
ghost use Rattle.krs_remote.specs.{Asked.is_hello, Remote.unasked};

use crate::asking::ask_and_reply;
use krs_commands::Command;
use krs_script::{listing, records};
use krs_types::{Answer, Ask, Caller, Op, Reply};
use krs_words::{Output, Stop};
use std::alloc::Global;
use std::io::{Read, Write};

/// A client over a connection, between two commands. The end that it writes to is passed with each command. How many
/// asks were made is the tag of the last one.
#[derive(Drop)]
pub(crate) struct Remote<F> {
    pub from: F,
    pub context: u32,
    pub refused: bool,
    pub asked: u64,
}

fn is_hello(op: &Op) -> bool
    ensures { result ≡ is_hello op.now }
{
    matches!(op, Op::Hello(_))
}

/// A client before its first ask.
pub(crate) fn start<F>(from: F) -> Remote<F>
    ensures { result ≡ unasked from }
{
    Remote {
        from,
        context: 0,
        refused: false,
        asked: 0,
    }
}

impl<F: Read> Remote<F> {
    ghost use Rattle.std.specs.Prelude.{◌+◌, ◌<◌, ◌^◌, ◌||◌, ◌≤◌, IfErr, IfOk, is_err};
    ghost use Rattle.krs_types.specs.declared.ask.Op.{Op};
    ghost use Rattle.krs_script.specs.Ending.{context_after};
    ghost use Rattle.krs_remote.specs.Remote.{Acts, AsksOver, AsksUnseen, Breaks, BreaksCall, BreaksList, CallsFor};
    ghost use Rattle.krs_remote.specs.Remote.{GivesUpAsk, Lists, ListsBy, StopsList, talk_of};

    /// What a command comes to. There is no moment to set: the server has its own clock.
    pub(crate) fn act<T: Write>(
        &mut self,
        alloc: Global,
        to: &mut T,
        command: Command,
    ) -> Result<Output, Stop>
        requires { self.old.asked + 2 < 2 ^ 64 }
        ensures ok { IfOk result (λ output. Acts (talk_of F.remaining self.old (T.contents to.old))
            command output (talk_of F.remaining self.new (T.contents to.new))) }
        ensures err { IfErr result (λ stop. Breaks (talk_of F.remaining self.old (T.contents to.old))
            command stop (talk_of F.remaining self.new (T.contents to.new))) }
        ensures few { self.new.asked ≤ self.old.asked + 2 }
    {
        match command {
            Command::Context(context) => {
                self.context = context;
                Ok(Output::Reply(Ok(Answer::Nothing)))
            }
            Command::Moment(_) => Err(Stop::Usage),
            Command::Ask(op) => Ok(Output::Reply(self.ask(alloc, to, op)?)),
            Command::Rlist(id) => self.rlist(alloc, to, id),
            Command::Readq { queue, room } => {
                Ok(records(self.ask(alloc, to, Op::ReadQueue { queue, room })?))
            }
        }
    }

    fn rlist<T: Write>(&mut self, alloc: Global, to: &mut T, id: i32) -> Result<Output, Stop>
        requires { self.old.asked + 2 < 2 ^ 64 }
        ensures ok { IfOk result (λ output. Lists (talk_of F.remaining self.old (T.contents to.old))
            id output (talk_of F.remaining self.new (T.contents to.new))) }
        ensures err { IfErr result (λ stop. BreaksList (talk_of F.remaining self.old (T.contents to.old))
            id stop (talk_of F.remaining self.new (T.contents to.new))) }
        ensures few { self.new.asked ≤ self.old.asked + 2 }
    {
        let reply = self.ask(alloc, to, Op::Read { id })?;
        self.list(alloc, to, id, reply)
    }

    /// What a READ of this key comes to in a list. DESCRIBE tells whether the bytes are serials, and its refusal does
    /// not count as one of the script.
    fn list<T: Write>(
        &mut self,
        alloc: Global,
        to: &mut T,
        id: i32,
        reply: Reply,
    ) -> Result<Output, Stop>
        requires { self.old.asked + 1 < 2 ^ 64 }
        ensures ok { IfOk result (λ output. ListsBy (talk_of F.remaining self.old (T.contents to.old))
            id reply output (talk_of F.remaining self.new (T.contents to.new))) }
        ensures err { IfErr result (λ stop. StopsList (talk_of F.remaining self.old (T.contents to.old))
            id reply stop (talk_of F.remaining self.new (T.contents to.new))) }
        ensures few { self.new.asked ≤ self.old.asked + 1 }
    {
        match reply {
            Ok(Answer::Bytes(bytes)) => {
                let described = self.exchange(alloc, to, Op::Describe { id })?;
                Ok(listing(bytes, &described))
            }
            Ok(answer) => Ok(Output::Reply(Ok(answer))),
            Err(error) => Ok(Output::Reply(Err(error))),
        }
    }

    /// Makes a context for this caller and carries a command out in it. A refusal to make it ends the call.
    pub(crate) fn call<T: Write>(
        &mut self,
        alloc: Global,
        to: &mut T,
        caller: Caller,
        command: Command,
    ) -> Result<Output, Stop>
        requires { self.old.asked + 3 < 2 ^ 64 }
        ensures ok { IfOk result (λ output. CallsFor (talk_of F.remaining self.old (T.contents to.old))
            caller command output (talk_of F.remaining self.new (T.contents to.new))) }
        ensures err { IfErr result (λ stop. BreaksCall (talk_of F.remaining self.old (T.contents to.old))
            caller command stop (talk_of F.remaining self.new (T.contents to.new))) }
    {
        let reply = self.ask(alloc, to, Op::Hello(caller))?;
        match reply {
            Ok(_) => self.act(alloc, to, command),
            Err(error) => Ok(Output::Reply(Err(error))),
        }
    }

    /// An ask in the current context, and its reply.
    fn ask<T: Write>(&mut self, alloc: Global, to: &mut T, op: Op) -> Result<Reply, Stop>
        requires { self.old.asked + 1 < 2 ^ 64 }
        ensures ok { IfOk result (λ reply. AsksOver (talk_of F.remaining self.old (T.contents to.old))
            op reply (talk_of F.remaining self.new (T.contents to.new))) }
        ensures err { IfErr result (λ stop. GivesUpAsk (talk_of F.remaining self.old (T.contents to.old))
            op stop (talk_of F.remaining self.new (T.contents to.new))) }
        ensures asked { self.new.asked ≡ self.old.asked + 1 }
    {
        let names_context = is_hello(&op);
        let reply = self.exchange(alloc, to, op)?;
        self.note(names_context, &reply);
        Ok(reply)
    }

    /// Keeps what the lines that follow need to know of a reply.
    fn note(&mut self, names_context: bool, reply: &Reply)
        ensures context { (asked : Op) → names_context ≡ is_hello asked
            → self.new.context ≡ context_after self.old.context asked reply.now }
        ensures refused { self.new.refused ≡ (self.old.refused || is_err reply.now) }
        ensures stays { self.new.from ≡ self.old.from }
        ensures asked { self.new.asked ≡ self.old.asked }
    {
        if let (true, Ok(Answer::Number(context))) = (names_context, reply) {
            self.context = *context;
        }
        self.refused |= reply.is_err();
    }

    /// The same, unseen: nothing is kept of the reply. The tags of a connection's asks are 1, 2, 3 and so on.
    fn exchange<T: Write>(&mut self, alloc: Global, to: &mut T, op: Op) -> Result<Reply, Stop>
        requires { self.old.asked + 1 < 2 ^ 64 }
        ensures ok { IfOk result (λ reply. AsksUnseen (talk_of F.remaining self.old (T.contents to.old))
            op reply (talk_of F.remaining self.new (T.contents to.new))) }
        ensures err { IfErr result (λ stop. GivesUpAsk (talk_of F.remaining self.old (T.contents to.old))
            op stop (talk_of F.remaining self.new (T.contents to.new))) }
        ensures asked { self.new.asked ≡ self.old.asked + 1 }
    {
        let ask = Ask {
            context: self.context,
            op,
        };
        let tag = self.asked + 1;
        self.asked = tag;
        ask_and_reply(alloc, &mut self.from, to, &ask, tag)
    }
}
