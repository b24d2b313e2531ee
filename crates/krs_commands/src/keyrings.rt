//! Commands of keyrings, and of searches in them.

ghost use Rattle.std.specs.Prelude.{map};
ghost use Rattle.krs_words.specs.Parsed.{Reads};
ghost use Rattle.krs_commands.specs.Command.{clear_of, dest_of, flags_of, link_of, move_of, newring_of, request_of};
ghost use Rattle.krs_commands.specs.Command.{restrict_of, search_of, unlink_of};

use crate::args::{key_and_ring, one_key};
use crate::command::Command;
use krs_types::{Blob, MOVE_EXCL, Op, TypeName};
use krs_words::{NoCommand, key_word};
use std::alloc::Global;

pub(crate) fn newring(alloc: Global, args: &[&[u8]]) -> Result<Command, NoCommand>
    ensures { Reads result (newring_of (map (λ w. w.now) args.now)) }
{
    let [desc, ring] = args else {
        return Err(NoCommand::Usage);
    };
    let ring = key_word(ring).ok_or(NoCommand::Usage)?;
    Ok(Command::Ask(Op::Add {
        type_name: TypeName::from_slice(alloc, b"keyring")?,
        desc: Blob::from_slice(alloc, desc)?,
        payload: Blob::from_slice(alloc, b"")?,
        ring,
    }))
}

pub(crate) fn clear(args: &[&[u8]]) -> Result<Command, NoCommand>
    ensures { Reads result (clear_of (map (λ w. w.now) args.now)) }
{
    let id = one_key(args)?;
    Ok(Command::Ask(Op::Clear { id }))
}

pub(crate) fn link(args: &[&[u8]]) -> Result<Command, NoCommand>
    ensures { Reads result (link_of (map (λ w. w.now) args.now)) }
{
    let (key, ring) = key_and_ring(args)?;
    Ok(Command::Ask(Op::Link { key, ring }))
}

pub(crate) fn unlink(args: &[&[u8]]) -> Result<Command, NoCommand>
    ensures { Reads result (unlink_of (map (λ w. w.now) args.now)) }
{
    let (key, ring) = key_and_ring(args)?;
    Ok(Command::Ask(Op::Unlink { key, ring }))
}

/// The flags that the words behind the keyrings spell: none, or `MOVE_EXCL` for `excl`.
fn move_flags(words: &[&[u8]]) -> Result<u32, NoCommand>
    ensures { Reads result (flags_of (map (λ w. w.now) words.now)) }
{
    match words {
        [] => Ok(0),
        [word] if *word == b"excl".as_slice() => Ok(MOVE_EXCL),
        _ => Err(NoCommand::Usage),
    }
}

pub(crate) fn move_link(args: &[&[u8]]) -> Result<Command, NoCommand>
    ensures { Reads result (move_of (map (λ w. w.now) args.now)) }
{
    let [key, from, to, words @ ..] = args else {
        return Err(NoCommand::Usage);
    };
    let key = key_word(key).ok_or(NoCommand::Usage)?;
    let from = key_word(from).ok_or(NoCommand::Usage)?;
    let to = key_word(to).ok_or(NoCommand::Usage)?;
    let flags = move_flags(words)?;
    Ok(Command::Ask(Op::Move {
        key,
        from,
        to,
        flags,
    }))
}

pub(crate) fn restrict(alloc: Global, args: &[&[u8]]) -> Result<Command, NoCommand>
    ensures { Reads result (restrict_of (map (λ w. w.now) args.now)) }
{
    let ring = one_key(args)?;
    Ok(Command::Ask(Op::RestrictKeyring {
        ring,
        type_name: TypeName::from_slice(alloc, b"")?,
    }))
}

/// The destination that the words behind the description name: 0, for none, where there is no word.
fn destination(words: &[&[u8]]) -> Result<i32, NoCommand>
    ensures { Reads result (dest_of (map (λ w. w.now) words.now)) }
{
    match words {
        [] => Ok(0),
        [ring] => key_word(ring).ok_or(NoCommand::Usage),
        _ => Err(NoCommand::Usage),
    }
}

pub(crate) fn search_from(alloc: Global, args: &[&[u8]]) -> Result<Command, NoCommand>
    ensures { Reads result (search_of (map (λ w. w.now) args.now)) }
{
    let [ring, type_name, desc, words @ ..] = args else {
        return Err(NoCommand::Usage);
    };
    let head = key_word(ring).ok_or(NoCommand::Usage)?;
    let dest = destination(words)?;
    Ok(Command::Ask(Op::Search {
        head,
        type_name: TypeName::from_slice(alloc, type_name)?,
        desc: Blob::from_slice(alloc, desc)?,
        dest,
    }))
}

pub(crate) fn request(alloc: Global, args: &[&[u8]]) -> Result<Command, NoCommand>
    ensures { Reads result (request_of (map (λ w. w.now) args.now)) }
{
    let [type_name, desc, words @ ..] = args else {
        return Err(NoCommand::Usage);
    };
    let dest = destination(words)?;
    Ok(Command::Ask(Op::Request {
        type_name: TypeName::from_slice(alloc, type_name)?,
        desc: Blob::from_slice(alloc, desc)?,
        dest,
    }))
}
