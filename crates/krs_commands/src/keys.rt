//! Commands of one key.

ghost use Rattle.std.specs.Prelude.{map};
ghost use Rattle.krs_words.specs.Parsed.{Reads};
ghost use Rattle.krs_commands.specs.Command.{add_of, chgrp_of, chown_of, invalidate_of, print_of, rdescribe_of};
ghost use Rattle.krs_commands.specs.Command.{revoke_of, rlist_of, setperm_of, timeout_of, update_of};

use crate::args::{key_and_number, one_key};
use crate::command::Command;
use krs_types::{Blob, Op, TypeName, UNCHANGED};
use krs_words::{NoCommand, data_word, hexadecimal_word, key_word};
use std::alloc::Global;

pub(crate) fn add(alloc: Global, args: &[&[u8]]) -> Result<Command, NoCommand>
    ensures { Reads result (add_of (map (λ w. w.now) args.now)) }
{
    let [type_name, desc, payload, ring] = args else {
        return Err(NoCommand::Usage);
    };
    let payload = data_word(alloc, payload)?;
    let ring = key_word(ring).ok_or(NoCommand::Usage)?;
    Ok(Command::Ask(Op::Add {
        type_name: TypeName::from_slice(alloc, type_name)?,
        desc: Blob::from_slice(alloc, desc)?,
        payload,
        ring,
    }))
}

pub(crate) fn update(alloc: Global, args: &[&[u8]]) -> Result<Command, NoCommand>
    ensures { Reads result (update_of (map (λ w. w.now) args.now)) }
{
    let [key, data] = args else {
        return Err(NoCommand::Usage);
    };
    let payload = data_word(alloc, data)?;
    let id = key_word(key).ok_or(NoCommand::Usage)?;
    Ok(Command::Ask(Op::Update { id, payload }))
}

pub(crate) fn print(args: &[&[u8]]) -> Result<Command, NoCommand>
    ensures { Reads result (print_of (map (λ w. w.now) args.now)) }
{
    let id = one_key(args)?;
    Ok(Command::Ask(Op::Read { id }))
}

pub(crate) fn rlist(args: &[&[u8]]) -> Result<Command, NoCommand>
    ensures { Reads result (rlist_of (map (λ w. w.now) args.now)) }
{
    let id = one_key(args)?;
    Ok(Command::Rlist(id))
}

pub(crate) fn rdescribe(args: &[&[u8]]) -> Result<Command, NoCommand>
    ensures { Reads result (rdescribe_of (map (λ w. w.now) args.now)) }
{
    let id = one_key(args)?;
    Ok(Command::Ask(Op::Describe { id }))
}

pub(crate) fn revoke(args: &[&[u8]]) -> Result<Command, NoCommand>
    ensures { Reads result (revoke_of (map (λ w. w.now) args.now)) }
{
    let id = one_key(args)?;
    Ok(Command::Ask(Op::Revoke { id }))
}

pub(crate) fn invalidate(args: &[&[u8]]) -> Result<Command, NoCommand>
    ensures { Reads result (invalidate_of (map (λ w. w.now) args.now)) }
{
    let id = one_key(args)?;
    Ok(Command::Ask(Op::Invalidate { id }))
}

pub(crate) fn chown(args: &[&[u8]]) -> Result<Command, NoCommand>
    ensures { Reads result (chown_of (map (λ w. w.now) args.now)) }
{
    let (id, uid) = key_and_number(args)?;
    let gid = UNCHANGED;
    Ok(Command::Ask(Op::Chown { id, uid, gid }))
}

pub(crate) fn chgrp(args: &[&[u8]]) -> Result<Command, NoCommand>
    ensures { Reads result (chgrp_of (map (λ w. w.now) args.now)) }
{
    let (id, gid) = key_and_number(args)?;
    let uid = UNCHANGED;
    Ok(Command::Ask(Op::Chown { id, uid, gid }))
}

pub(crate) fn setperm(args: &[&[u8]]) -> Result<Command, NoCommand>
    ensures { Reads result (setperm_of (map (λ w. w.now) args.now)) }
{
    let [key, mask] = args else {
        return Err(NoCommand::Usage);
    };
    let id = key_word(key).ok_or(NoCommand::Usage)?;
    let mask = hexadecimal_word(mask).ok_or(NoCommand::Usage)?;
    Ok(Command::Ask(Op::SetPerm { id, mask }))
}

pub(crate) fn timeout(args: &[&[u8]]) -> Result<Command, NoCommand>
    ensures { Reads result (timeout_of (map (λ w. w.now) args.now)) }
{
    let (id, seconds) = key_and_number(args)?;
    Ok(Command::Ask(Op::SetTimeout { id, seconds }))
}
