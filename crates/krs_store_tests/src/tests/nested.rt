//! A chain of ten thousand keyrings, each of which links the next, by asks.
use super::{expect, reply};
use krs_store::Store;
use krs_store_asks::{Want, add, change, hello};
use krs_types::{Ask, Errno, Op};
use std::alloc::{AllocError, Global};
use std::process::Abort;
use std::test::Fail;

/// The serial of the first keyring, and that of the last.
const FIRST: i32 = 5;

const LAST: i32 = 10_005;

/// The asks that make a keyring with this serial and link it in the one before it. In the user keyring it takes the
/// place of that one, and its owner may do all with it where nobody possesses it.
fn chain_ask(alloc: Global, serial: i32, step: u8) -> Result<Ask, AllocError> {
    match step {
        0 => add(alloc, b"keyring", b"r", b"", -4),
        1 => Ok(change(Op::SetPerm {
            id: serial,
            mask: 0x3f3f_0000,
        })),
        _ => Ok(change(Op::Link {
            key: serial,
            ring: serial.saturating_sub(1),
        })),
    }
}

fn check_chain(rt: &impl Abort, alloc: Global, store: &mut Store) -> Result<(), AllocError> {
    let head = add(alloc, b"keyring", b"head", b"", -4)?;
    expect(rt, reply(store, 0, 0, head), Want::Number(5), "the first");
    for serial in FIRST + 1..=LAST {
        let made = Want::Number(serial.cast_unsigned());
        for (step, want) in [(0, made), (1, Want::Nothing), (2, Want::Nothing)] {
            let ask = chain_ask(alloc, serial, step)?;
            expect(rt, reply(store, 0, 0, ask), want, "a keyring");
        }
    }
    Ok(())
}

/// Asks, and their answers: the user keyring links the first keyring and the last, and then neither.
#[rattlefmt::skip]
fn check_end(rt: &impl Abort, store: &mut Store) {
    let rows = [
        (Op::Unlink { key: LAST, ring: -4 }, Want::Nothing, "the last one's second link"),
        (Op::Read { id: LAST }, Want::Bytes(&[]), "the last"),
        (Op::Unlink { key: FIRST, ring: -4 }, Want::Nothing, "the first one's only link"),
        (Op::Read { id: LAST }, Want::Refused(Errno::ENOKEY), "the last, with all before it"),
    ];
    for (op, want, name) in rows {
        expect(rt, reply(store, 0, 0, change(op)), want, name);
    }
}

/// With a keyring goes all that it links, however deep that is.
#[test]
fn all_that_a_keyring_links_goes(rt: HostRuntime) -> Result<(), Fail> {
    let alloc = rt.alloc();
    let mut store = Store::new(alloc);
    expect(
        &rt,
        reply(&mut store, 0, 0, hello(alloc, 1000)),
        Want::Number(1),
        "HELLO",
    );
    check_chain(&rt, alloc, &mut store)?;
    check_end(&rt, &mut store);
    Ok(())
}
