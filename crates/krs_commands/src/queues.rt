//! Commands of queues.

ghost use Rattle.std.specs.Prelude.{map};
ghost use Rattle.krs_words.specs.Parsed.{Reads};
ghost use Rattle.krs_commands.specs.Command.{closeq_of, filter_of, open_of, readq_of, watch_of};

use crate::args::one_number;
use crate::command::Command;
use crate::entry::entries_words;
use krs_types::Op;
use krs_words::{NoCommand, key_word, u32_word, watch_word};
use std::alloc::Global;

pub(crate) fn open(args: &[&[u8]]) -> Result<Command, NoCommand>
    ensures { Reads result (open_of (map (λ w. w.now) args.now)) }
{
    let capacity = one_number(args)?;
    Ok(Command::Ask(Op::OpenQueue { capacity }))
}

pub(crate) fn closeq(args: &[&[u8]]) -> Result<Command, NoCommand>
    ensures { Reads result (closeq_of (map (λ w. w.now) args.now)) }
{
    let queue = one_number(args)?;
    Ok(Command::Ask(Op::CloseQueue { queue }))
}

pub(crate) fn watch(args: &[&[u8]]) -> Result<Command, NoCommand>
    ensures { Reads result (watch_of (map (λ w. w.now) args.now)) }
{
    let [key, queue, watch] = args else {
        return Err(NoCommand::Usage);
    };
    let id = key_word(key).ok_or(NoCommand::Usage)?;
    let queue = u32_word(queue).ok_or(NoCommand::Usage)?;
    let watch = watch_word(watch).ok_or(NoCommand::Usage)?;
    Ok(Command::Ask(Op::Watch { id, queue, watch }))
}

pub(crate) fn filter(alloc: Global, args: &[&[u8]]) -> Result<Command, NoCommand>
    ensures { Reads result (filter_of (map (λ w. w.now) args.now)) }
{
    let [queue, words @ ..] = args else {
        return Err(NoCommand::Usage);
    };
    if words.is_empty() {
        return Err(NoCommand::Usage);
    }
    let queue = u32_word(queue).ok_or(NoCommand::Usage)?;
    let entries = entries_words(alloc, words)?;
    Ok(Command::Ask(Op::SetFilter { queue, entries }))
}

pub(crate) fn readq(args: &[&[u8]]) -> Result<Command, NoCommand>
    ensures { Reads result (readq_of (map (λ w. w.now) args.now)) }
{
    let [queue, room] = args else {
        return Err(NoCommand::Usage);
    };
    let queue = u32_word(queue).ok_or(NoCommand::Usage)?;
    let room = u32_word(room).ok_or(NoCommand::Usage)?;
    Ok(Command::Readq { queue, room })
}
