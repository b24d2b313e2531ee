//! A full keyring, by asks.
use super::{expect, reply};
use krs_store::Store;
use krs_store_asks::{Want, add, change, hello, read};
use krs_types::{Answer, Ask, Blob, Errno, Op, Reply};
use std::alloc::{AllocError, Global};
use std::process::Abort;
use std::test::*;

/// The asks of the test by their number: HELLO and the keyring, and then those behind all keys that it may have.
fn ask_at(alloc: Global, step: u8) -> Result<Ask, AllocError> {
    match step {
        0 => Ok(hello(alloc, 1000)),
        1 => add(alloc, b"keyring", b"big", b"", -4),
        2 => add(alloc, b"user", b"k65535", b"x", 5),
        3 => add(alloc, b"user", b"k65535", b"x", -4),
        4 => Ok(moved(0)),
        5 => Ok(moved(2)),
        6 => add(alloc, b"user", b"k0", b"x", -4),
        7 => Ok(change(Op::Link {
            key: 65_542,
            ring: 5,
        })),
        8 => Ok(read(1, 6)),
        9 => Ok(change(Op::Unlink { key: 5, ring: -4 })),
        _ => Ok(read(1, 7)),
    }
}

/// A MOVE of the key elsewhere into the full keyring.
fn moved(flags: u32) -> Ask {
    change(Op::Move {
        key: 65_541,
        from: -4,
        to: 5,
        flags,
    })
}

/// The number of an ask, what that is answered with, and what it is.
type Row<'a> = (u8, Want<'a>, &'a str);

#[rattlefmt::skip]
const EMPTY: [Row<'static>; 2] = [
    (0, Want::Number(1), "HELLO"),
    (1, Want::Number(5), "the keyring"),
];

#[rattlefmt::skip]
const FULL: [Row<'static>; 7] = [
    (2, Want::Refused(Errno::ENFILE), "one key more"),
    (3, Want::Number(65_541), "a key elsewhere"),
    (4, Want::Refused(Errno::ENFILE), "its move"),
    (5, Want::Refused(Errno::EINVAL), "a move with a flag that there isn't"),
    (6, Want::Number(65_542), "a key of a name that is there"),
    (7, Want::Nothing, "its link"),
    (8, Want::Refused(Errno::ENOKEY), "the key that was displaced"),
];

#[rattlefmt::skip]
const GONE: [Row<'static>; 2] = [
    (9, Want::Nothing, "the keyring's only link"),
    (10, Want::Refused(Errno::ENOKEY), "a key that it alone links"),
];

fn check_rows(
    rt: &impl Abort,
    alloc: Global,
    store: &mut Store,
    rows: &[Row<'_>],
) -> Result<(), AllocError> {
    for (step, want, name) in rows {
        let ask = ask_at(alloc, *step)?;
        expect(rt, reply(store, 0, 9, ask), *want, name);
    }
    Ok(())
}

/// Adds the key of a number to the keyring, which has this serial.
fn check_key(
    rt: &impl Abort,
    alloc: Global,
    store: &mut Store,
    number: u32,
    serial: u32,
) -> Result<(), AllocError> {
    let desc = format!(in alloc; "k{number}")?;
    let ask = add(alloc, b"user", desc.as_bytes(), b"x", 5)?;
    expect(rt, reply(store, 0, 9, ask), Want::Number(serial), "a key");
    Ok(())
}

/// Whether a reply is all links of the full keyring, the first of which is the one that took the place of another.
fn gives_all_links(reply: &Reply) -> bool {
    match reply {
        Ok(Answer::Bytes(links)) => {
            links.as_slice().len() == 262_140 && links.as_slice().starts_with(&[6, 0, 1, 0])
        }
        _ => false,
    }
}

fn check_full(rt: &impl Abort, alloc: Global, store: &mut Store) -> Result<(), Fail> {
    check_rows(rt, alloc, store, &EMPTY)?;
    for number in 0..65_535u32 {
        check_key(rt, alloc, store, number, number + 6)?;
    }
    check_rows(rt, alloc, store, &FULL)?;
    let links = reply(store, 0, 9, read(1, 5));
    assert!(rt; gives_all_links(&links), "the keyring is not read");
    Ok(check_rows(rt, alloc, store, &GONE)?)
}

// A keyring with as many links as one may have takes no new name: keyctl(2), KEYCTL_LINK, "ENFILE". A link of an equal
// name takes the place of the other, whose key nothing holds any more.
#[test]
fn a_full_keyring_takes_no_new_key(rt: HostRuntime) -> Result<(), Fail> {
    let alloc = rt.alloc();
    let mut store = Store::new(alloc);
    check_full(&rt, alloc, &mut store)
}
