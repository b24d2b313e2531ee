//! Commands of contexts, and of the ids in them.

ghost use Rattle.std.specs.Prelude.{map};
ghost use Rattle.krs_words.specs.Parsed.{Reads};
ghost use Rattle.krs_commands.specs.Command.{context_of, create_of, hello_of, id_of, join_of, moment_of};

use crate::args::one_number;
use crate::command::Command;
use krs_types::{Blob, Caller, Op};
use krs_words::{NoCommand, groups_words, key_word, u32_word, u64_word};
use std::alloc::Global;

pub(crate) fn hello(alloc: Global, args: &[&[u8]]) -> Result<Command, NoCommand>
    ensures { Reads result (hello_of (map (λ w. w.now) args.now)) }
{
    let [uid, gid, groups @ ..] = args else {
        return Err(NoCommand::Usage);
    };
    let uid = u32_word(uid).ok_or(NoCommand::Usage)?;
    let gid = u32_word(gid).ok_or(NoCommand::Usage)?;
    let groups = groups_words(alloc, groups)?;
    Ok(Command::Ask(Op::Hello(Caller { uid, gid, groups })))
}

pub(crate) fn context(args: &[&[u8]]) -> Result<Command, NoCommand>
    ensures { Reads result (context_of (map (λ w. w.now) args.now)) }
{
    Ok(Command::Context(one_number(args)?))
}

pub(crate) fn moment(args: &[&[u8]]) -> Result<Command, NoCommand>
    ensures { Reads result (moment_of (map (λ w. w.now) args.now)) }
{
    let [number] = args else {
        return Err(NoCommand::Usage);
    };
    Ok(Command::Moment(u64_word(number).ok_or(NoCommand::Usage)?))
}

/// Whether the words behind the key have the keyring made where it is wanted.
fn create(words: &[&[u8]]) -> Result<bool, NoCommand>
    ensures { Reads result (create_of (map (λ w. w.now) words.now)) }
{
    match words {
        [] => Ok(false),
        [word] if *word == b"create".as_slice() => Ok(true),
        _ => Err(NoCommand::Usage),
    }
}

pub(crate) fn get_id(args: &[&[u8]]) -> Result<Command, NoCommand>
    ensures { Reads result (id_of (map (λ w. w.now) args.now)) }
{
    let [key, words @ ..] = args else {
        return Err(NoCommand::Usage);
    };
    let id = key_word(key).ok_or(NoCommand::Usage)?;
    let create = create(words)?;
    Ok(Command::Ask(Op::GetId { id, create }))
}

pub(crate) fn join(alloc: Global, args: &[&[u8]]) -> Result<Command, NoCommand>
    ensures { Reads result (join_of (map (λ w. w.now) args.now)) }
{
    let name = match args {
        [] => Blob::from_slice(alloc, b"")?,
        [name] => Blob::from_slice(alloc, name)?,
        _ => return Err(NoCommand::Usage),
    };
    Ok(Command::Ask(Op::Join { name }))
}
