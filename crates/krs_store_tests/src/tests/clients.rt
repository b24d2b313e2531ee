//! Two clients of one store.
use super::{expect, reply};
use krs_store::Store;
use krs_store_asks::{Want, add, change, describe, hello, leave, read};
use krs_types::{Ask, Blob, Errno, Op};
use std::alloc::{AllocError, Global};
use std::process::Abort;
use std::test::Fail;

/// The asks of the test of a kept key, by their number.
fn kept_ask(alloc: Global, step: u8) -> Result<Ask, AllocError> {
    match step {
        0 => Ok(hello(alloc, 1000)),
        1 => Ok(hello(alloc, 2000)),
        2 => add(alloc, b"user", b"alpha", b"s3", -4),
        3 => add(alloc, b"user", b"alpha", b"t4", -4),
        4 => add(alloc, b"user", b"beta", b"x", 7),
        5 => Ok(describe(1, 7)),
        6 => Ok(read(1, 7)),
        7 => Ok(read(1, -1)),
        8 => Ok(read(1, 0)),
        9 => Ok(read(1, -4)),
        10 => Ok(read(2, 7)),
        11 => Ok(leave()),
        12 => Ok(read(3, 7)),
        _ => Ok(describe(2, -4)),
    }
}

/// A client, the number of its ask, and what that is answered with.
type Row<'a> = (u32, u8, Want<'a>);

#[rattlefmt::skip]
const KEPT: [Row<'static>; 17] = [
    (0, 0, Want::Number(1)),
    (7, 1, Want::Number(2)),
    (0, 2, Want::Number(7)),
    (0, 6, Want::Bytes(b"s3")),
    (0, 5, Want::Bytes(b"user;1000;1000;3f010000;alpha")),
    (0, 3, Want::Number(7)),
    (0, 6, Want::Bytes(b"t4")),
    (0, 4, Want::Refused(Errno::ENOTDIR)),
    (0, 7, Want::Refused(Errno::ENOKEY)),
    (0, 8, Want::Refused(Errno::EINVAL)),
    (0, 9, Want::Bytes(&[7, 0, 0, 0])),
    (7, 10, Want::Refused(Errno::EACCES)),
    (7, 6, Want::Refused(Errno::ESRCH)),
    (0, 11, Want::Nothing),
    (0, 0, Want::Number(3)),
    (0, 12, Want::Refused(Errno::ENOKEY)),
    (7, 13, Want::Bytes(b"keyring;2000;2000;1f3f0000;_uid.2000")),
];

fn check_kept(rt: &impl Abort, alloc: Global, store: &mut Store) -> Result<(), Fail> {
    for (client, step, want) in &KEPT {
        let ask = kept_ask(alloc, *step)?;
        expect(rt, reply(store, *client, 0, ask), *want, "a row");
    }
    Ok(())
}

#[test]
fn a_key_is_kept_updated_and_left(rt: HostRuntime) -> Result<(), Fail> {
    let alloc = rt.alloc();
    let mut store = Store::new(alloc);
    check_kept(&rt, alloc, &mut store)
}

/// WATCH of key 5, by a queue that one of the clients has.
fn watch(context: u32, watch: i32) -> Ask {
    let op = Op::Watch {
        id: 5,
        queue: 1,
        watch,
    };
    Ask { context, op }
}

/// The asks of the test of a dropped key, by their number.
fn dropping_ask(alloc: Global, step: u8) -> Result<Ask, AllocError> {
    match step {
        0 => Ok(hello(alloc, 1000)),
        1 => {
            let name = Blob::from_slice(alloc, b"")?;
            Ok(change(Op::Join { name }))
        }
        2 => Ok(change(Op::OpenQueue { capacity: 4 })),
        3 => Ok(watch(2, 9)),
        4 => Ok(leave()),
        5 => Ok(change(Op::ReadQueue { queue: 1, room: 64 })),
        6 => Ok(watch(2, -2)),
        7 => Ok(watch(1, 9)),
        8 => Ok(watch(1, -1)),
        _ => Ok(change(Op::CloseQueue { queue: 1 })),
    }
}

/// A key that drops as its client leaves gives a removal record to the queue of another, which is no queue of that
/// client.
#[rattlefmt::skip]
const DROPPED: [Row<'static>; 12] = [
    (0, 0, Want::Number(1)),
    (0, 1, Want::Number(5)),
    (1, 0, Want::Number(2)),
    (1, 2, Want::Number(1)),
    (1, 6, Want::Refused(Errno::EINVAL)),
    (1, 3, Want::Nothing),
    (0, 7, Want::Refused(Errno::EBADF)),
    (0, 8, Want::Refused(Errno::EBADF)),
    (0, 9, Want::Refused(Errno::EBADF)),
    (0, 4, Want::Nothing),
    (0, 5, Want::Refused(Errno::EBADF)),
    (1, 5, Want::Bytes(&[0, 0, 0, 0, 16, 9, 0, 0, 5, 0, 0, 0, 0, 0, 0, 0])),
];

fn check_dropped(rt: &impl Abort, alloc: Global, store: &mut Store) -> Result<(), Fail> {
    for (client, step, want) in &DROPPED {
        let ask = dropping_ask(alloc, *step)?;
        expect(rt, reply(store, *client, 0, ask), *want, "a row");
    }
    Ok(())
}

#[test]
fn a_dropped_key_ends_watches_of_others(rt: HostRuntime) -> Result<(), Fail> {
    let alloc = rt.alloc();
    let mut store = Store::new(alloc);
    check_dropped(&rt, alloc, &mut store)
}
