//! Growths that are refused, in the rows of the scripts. For a run in which one is: the ask that it hits answers
//! ENOMEM, where it takes memory and is accepted, and changes nothing; made again at the same moment it gives the row's
//! answer. Any other ask gives the row's answer at once, and the rest of the row goes on as written.
use super::script::{changes, contexts, holders, keyrings, moves, notes};
use krs_commands::{Command, parse};
use krs_script::records;
use krs_store::Store;
use krs_types::{Answer, Ask, Errno, Op, Reply};
use krs_words::{NoCommand, Output, output_line, words};
use std::alloc::Global;
use std::process::Abort;

/// A client of a store of its own.
#[derive(Drop)]
struct Client {
    store: Store,
    context: u32,
    moment: u64,
}

impl Client {
    /// Does the lines one after the other.
    fn check(rt: &impl Abort, alloc: Global, rows: &[(&str, &str)]) {
        let mut client = Client {
            store: Store::new(alloc),
            context: 0,
            moment: 0,
        };
        for (line, wanted) in rows {
            client.check_line(rt, alloc, line, wanted);
        }
    }

    /// Does a line, again where it found no memory, and compares what it prints.
    fn check_line(&mut self, rt: &impl Abort, alloc: Global, line: &str, wanted: &str) {
        let output = match self.obey(rt, alloc, line, wanted) {
            Some(output) => Some(output),
            None => self.obey(rt, alloc, line, wanted),
        };
        assert!(rt; is_printed(alloc, output, wanted), "{line:?}: {wanted:?}");
    }

    /// What the line comes to; nothing where it found no memory and changed nothing.
    fn obey(&mut self, rt: &impl Abort, alloc: Global, line: &str, wanted: &str) -> Option<Output> {
        match command(alloc, line.as_bytes()) {
            Ok(command) => self.output_of(rt, command, wanted),
            Err(_) => None,
        }
    }

    fn output_of(&mut self, rt: &impl Abort, command: Command, wanted: &str) -> Option<Output> {
        match command {
            Command::Context(context) => {
                self.context = context;
                Some(Output::Reply(Ok(Answer::Nothing)))
            }
            Command::Moment(moment) => {
                self.moment = moment;
                Some(Output::Reply(Ok(Answer::Nothing)))
            }
            Command::Ask(op) => Some(Output::Reply(self.ask(rt, op, wanted)?)),
            Command::Rlist(id) => Some(listed(self.ask(rt, Op::Read { id }, wanted)?)),
            Command::Readq { queue, room } => {
                let op = Op::ReadQueue { queue, room };
                Some(records(self.ask(rt, op, wanted)?))
            }
        }
    }

    fn reply_to(&mut self, op: Op) -> Reply {
        let ask = Ask {
            context: self.context,
            op,
        };
        self.store.apply(0, self.moment, ask)
    }

    fn ask(&mut self, rt: &impl Abort, op: Op, wanted: &str) -> Option<Reply> {
        let may_lack_memory = op.grows() && !wanted.starts_with("error");
        let is_hello = matches!(op, Op::Hello(_));
        let reply = self.reply_to(op);
        if let Err(Errno::ENOMEM) = reply {
            assert!(rt; may_lack_memory, "ENOMEM in place of {wanted:?}");
            return None;
        }
        if let (true, Ok(Answer::Number(context))) = (is_hello, &reply) {
            self.context = *context;
        }
        Some(reply)
    }
}

/// The bytes that RLIST is answered with as serials.
fn listed(reply: Reply) -> Output {
    match reply {
        Ok(Answer::Bytes(bytes)) => Output::Serials(bytes),
        reply => Output::Reply(reply),
    }
}

fn command(alloc: Global, line: &[u8]) -> Result<Command, NoCommand> {
    let words = words(alloc, line)?;
    parse(alloc, words.as_slice())
}

fn is_printed(alloc: Global, output: Option<Output>, wanted: &str) -> bool {
    let Some(output) = output else { return false };
    let line = output_line(alloc, &output).or_else(|_| output_line(alloc, &output));
    match line {
        Ok(line) => line.as_slice().strip_suffix(b"\n") == Some(wanted.as_bytes()),
        Err(_) => false,
    }
}

#[test]
fn of_contexts(rt: HostRuntime) {
    for rows in &contexts::GROWING {
        Client::check(&rt, rt.alloc(), rows);
    }
}

#[test]
fn of_keys(rt: HostRuntime) {
    for rows in &changes::GROWING {
        Client::check(&rt, rt.alloc(), rows);
    }
}

#[test]
fn of_keyrings(rt: HostRuntime) {
    for rows in &keyrings::GROWING {
        Client::check(&rt, rt.alloc(), rows);
    }
}

#[test]
fn of_moves(rt: HostRuntime) {
    for rows in &moves::GROWING {
        Client::check(&rt, rt.alloc(), rows);
    }
}

#[test]
fn of_holders(rt: HostRuntime) {
    for rows in &holders::GROWING {
        Client::check(&rt, rt.alloc(), rows);
    }
}

#[test]
fn of_queues(rt: HostRuntime) {
    for rows in &notes::GROWING {
        Client::check(&rt, rt.alloc(), rows);
    }
}
