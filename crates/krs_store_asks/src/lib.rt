//! Asks in few words, and what they are answered with, for the tests of the store and the desk.
#![tactic(auto)]

ghost use Rattle.std.specs.Prelude.{[], ◌≡◌, IfOk};
ghost use Rattle.krs_types.specs.declared.ask.Op.TheVariants.{Add, Describe, Hello, Leave, Read, Update};
ghost use Rattle.krs_store_asks.specs.Wanted.{is_wanted};

use krs_types::{Answer, Ask, Blob, Caller, Errno, Groups, Op, Reply, TypeName};
use std::alloc::{AllocError, Global};

/// What an ask is answered with.
#[derive(Clone, Copy, Debug)]
pub enum Want<'a> {
    Nothing,
    Number(u32),
    Bytes(&'a [u8]),
    Refused(Errno),
}

/// Whether a reply is the one that is wanted.
pub fn is_wanted(reply: &Reply, want: Want<'_>) -> bool
    ensures { result ≡ is_wanted reply.now want.entry }
{
    match (reply, want) {
        (Ok(Answer::Nothing), Want::Nothing) => true,
        (Ok(Answer::Number(got)), Want::Number(number)) => *got == number,
        (Ok(Answer::Bytes(got)), Want::Bytes(bytes)) => got.as_slice() == bytes,
        (Err(got), Want::Refused(errno)) => got.number() == errno.number(),
        _ => false,
    }
}

/// The number that a reply gives, and 0 for any other reply.
pub fn number_of(reply: &Reply) -> u32 {
    match reply {
        Ok(Answer::Number(number)) => *number,
        _ => 0,
    }
}

/// HELLO of a uid whose group has its number, without other groups.
pub fn hello(alloc: Global, uid: u32) -> Ask
    ensures { result ≡ record { context = 0; op = Hello (record { uid = uid; gid = uid; groups = [] }) } }
{
    let groups = Groups::new(Vec::new(alloc));
    let caller = Caller {
        uid,
        gid: uid,
        groups,
    };
    Ask {
        context: 0,
        op: Op::Hello(caller),
    }
}

/// ADD in the first context.
pub fn add(
    alloc: Global,
    type_name: &[u8],
    desc: &[u8],
    payload: &[u8],
    ring: i32,
) -> Result<Ask, AllocError>
    ensures { IfOk result (λ ask. ask ≡ record {
      context = 1;
      op = Add type_name.now desc.now payload.now ring;
    }) }
{
    let op = Op::Add {
        type_name: TypeName::from_slice(alloc, type_name)?,
        desc: Blob::from_slice(alloc, desc)?,
        payload: Blob::from_slice(alloc, payload)?,
        ring,
    };
    Ok(Ask { context: 1, op })
}

/// READ in a context.
pub fn read(context: u32, id: i32) -> Ask
    ensures { result ≡ record { context = context; op = Read id } }
{
    Ask {
        context,
        op: Op::Read { id },
    }
}

/// DESCRIBE in a context.
pub fn describe(context: u32, id: i32) -> Ask
    ensures { result ≡ record { context = context; op = Describe id } }
{
    Ask {
        context,
        op: Op::Describe { id },
    }
}

/// UPDATE in the first context.
pub fn update(alloc: Global, id: i32, payload: &[u8]) -> Result<Ask, AllocError>
    ensures { IfOk result (λ ask. ask ≡ record { context = 1; op = Update id payload.now }) }
{
    let payload = Blob::from_slice(alloc, payload)?;
    Ok(change(Op::Update { id, payload }))
}

/// An ask of the first context.
pub fn change(op: Op) -> Ask
    ensures { result ≡ record { context = 1; op = op } }
{
    Ask { context: 1, op }
}

/// LEAVE, which looks at no context.
pub fn leave() -> Ask
    ensures { result ≡ record { context = 0; op = Leave } }
{
    Ask {
        context: 0,
        op: Op::Leave,
    }
}
