ghost use Rattle.std.specs.Prelude.{◌≡◌, map};
ghost use Rattle.krs_words.specs.Parsed.{Reads};
ghost use Rattle.krs_remote.specs.Call.{call_of, EndsCall, is_single};

use crate::remote::{Remote, start};
use krs_commands::{Command, parse};
use krs_script::finish;
use krs_types::{Caller, Op};
use krs_words::{NoCommand, Stop, output_line};
use std::alloc::Global;
use std::io::{Read, Write};

/// The command of a single call, which has one context and no lines that follow.
pub fn call_command(alloc: Global, words: &[&[u8]]) -> Result<Command, NoCommand>
    ensures { Reads result (call_of (map (λ w. w.now) words.now)) }
{
    let command = parse(alloc, words)?;
    if is_single(&command) {
        Ok(command)
    } else {
        command.let_go();
        Err(NoCommand::Usage)
    }
}

fn is_single(command: &Command) -> bool
    ensures { result ≡ is_single command.now }
{
    !matches!(
        command,
        Command::Context(_) | Command::Moment(_) | Command::Ask(Op::Hello(_))
    )
}

/// A single call over the two ends of a connection, and its status: HELLO for the caller, and then the command.
pub fn run_call<W: Write, F: Read + Drop, T: Write>(
    alloc: Global,
    caller: Caller,
    command: Command,
    writer: &mut W,
    from: F,
    to: &mut T,
) -> u8
    ensures { EndsCall caller command (W.contents writer.old) (W.contents writer.new)
        (T.contents to.old) (T.contents to.new) (F.remaining from) result }
{
    let mut remote = start(from);
    remote.call_once(alloc, to, caller, command, writer)
}

impl<F: Read> Remote<F> {
    ghost use Rattle.std.specs.Prelude.{◌≡◌, IfErr, IfOk};
    ghost use Rattle.krs_remote.specs.{Call.{CallEnds, PrintsCall, StopsCall}, Remote.talk_of};

    /// A single call, before which nothing was asked, and its status.
    fn call_once<W: Write, T: Write>(
        &mut self,
        alloc: Global,
        to: &mut T,
        caller: Caller,
        command: Command,
        writer: &mut W,
    ) -> u8
        requires { self.old.asked ≡ 0 }
        ensures { CallEnds (talk_of F.remaining self.old (T.contents to.old)) caller command
            (W.contents writer.old) (W.contents writer.new)
            (talk_of F.remaining self.new (T.contents to.new)) result }
    {
        match self.call_line(alloc, to, caller, command) {
            Ok(mut line) => finish(writer, &mut line, Ok(()), self.refused),
            Err(stop) => finish(writer, &mut Vec::new(alloc), Err(stop), self.refused),
        }
    }

    /// The line of a single call.
    fn call_line<T: Write>(
        &mut self,
        alloc: Global,
        to: &mut T,
        caller: Caller,
        command: Command,
    ) -> Result<Vec<u8>, Stop>
        requires { self.old.asked ≡ 0 }
        ensures ok { IfOk result (λ line. PrintsCall (talk_of F.remaining self.old (T.contents to.old))
            caller command line.items (talk_of F.remaining self.new (T.contents to.new))) }
        ensures err { IfErr result (λ stop. StopsCall (talk_of F.remaining self.old (T.contents to.old))
            caller command stop (talk_of F.remaining self.new (T.contents to.new))) }
    {
        let output = self.call(alloc, to, caller, command)?;
        Ok(output_line(alloc, &output)?)
    }
}
