//! Seats of one desk: in turn on one thread, and side by side on two. Where an allocation of `open` is refused, the
//! store that came back opens the next desk, so that each of these also shows that it came back whole.
ghost use Rattle.krs_desk.specs.Sitting.{IsIdleAt};

use crate::two_seats;
use krs_desk::{Desk, Seat};
use krs_store::Store;
use krs_store_asks::{Want, hello, is_wanted, number_of, read};
use krs_types::{Answer, Ask, Reply};
use std::alloc::{AllocError, Global};
use std::sync::Wait;
use std::test::*;
use std::thread;
use std::thread::Threads;

/// ADD of a user key to the user keyring.
pub(super) fn add(
    alloc: Global,
    context: u32,
    desc: &[u8],
    payload: &[u8],
) -> Result<Ask, AllocError> {
    let ask = krs_store_asks::add(alloc, b"user", desc, payload, -4)?;
    Ok(Ask { context, ..ask })
}

fn gives_length(reply: &Reply, length: usize) -> bool {
    match reply {
        Ok(Answer::Bytes(body)) => body.as_slice().len() == length,
        _ => false,
    }
}

/// What a thread did at its seat: its context, and the serials of its keys.
#[derive(Drop)]
struct Work {
    context: u32,
    serials: Vec<u32>,
}

// HELLO, and keys whose descriptions are this letter and the numbers 1 to 100.
fn add_hundred<R: Wait>(
    rt: &R,
    alloc: Global,
    desk: &Desk,
    seat: &mut Seat,
    letter: char,
) -> Result<Work, AllocError>
    requires { IsIdleAt desk.now seat.old }
    ensures { IsIdleAt desk.now seat.new }
{
    let context = number_of(&desk.call(rt, seat, 0, hello(alloc, 1000)));
    let mut serials = Vec::with_capacity(alloc, 100)?;
    for n in 1..=100u8 {
        let desc = format!(in alloc; "{letter}{n}")?;
        let ask = add(alloc, context, desc.as_bytes(), b"x")?;
        serials.push(number_of(&desk.call(rt, seat, 0, ask)))?;
    }
    Ok(Work { context, serials })
}

// The seat goes to the thread, and comes back with what was done.
fn work_at<R: Wait>(
    rt: &R,
    alloc: Global,
    desk: &Desk,
    mut seat: Seat,
    letter: char,
) -> (Seat, Result<Work, AllocError>)
    requires { IsIdleAt desk.now seat }
    ensures { IsIdleAt desk.now result.0 }
{
    let done = add_hundred(rt, alloc, desk, &mut seat, letter);
    (seat, done)
}

// Two threads share the desk by reference.
fn work_side_by_side<R: Threads + Wait + Sync>(
    rt: &R,
    alloc: Global,
    desk: &Desk,
    first: Seat,
    second: Seat,
) -> (
    (Seat, Result<Work, AllocError>),
    (Seat, Result<Work, AllocError>),
)
    requires { IsIdleAt desk.now first × IsIdleAt desk.now second }
    ensures { IsIdleAt desk.now result.0.0 × IsIdleAt desk.now result.1.0 }
{
    thread::join(
        rt,
        || work_at(rt, alloc, desk, first, 'k'),
        || work_at(rt, alloc, desk, second, 'h'),
    )
}

// 200 keys of two threads have the serials 5 to 204, each once. Both contexts read 800 bytes of links then, and so does
// the store that the desk gives back.
#[test]
fn two_threads_share_one_store(rt: HostRuntime) -> Result<(), Fail> {
    let alloc = rt.alloc();
    let (desk, first, second) = two_seats(alloc, Store::new(alloc)).ok_or("no desk")?;
    let ((mut first, one), (mut second, two)) = work_side_by_side(&rt, alloc, &desk, first, second);
    let (one, two) = (one?, two?);
    let mut serials = one.serials;
    for serial in two.serials {
        serials.push(serial)?;
    }
    serials.sort_unstable();
    assert_eq!(rt; serials.len(), 200);
    let mut wanted = 5u32;
    for serial in serials.iter() {
        assert_eq!(rt; *serial, wanted);
        wanted = wanted.saturating_add(1);
    }
    desk.meet(&mut first, &mut second);
    assert!(rt; gives_length(&desk.call(&rt, &mut first, 0, read(one.context, -4)), 800));
    assert!(rt; gives_length(&desk.call(&rt, &mut second, 0, read(two.context, -4)), 800));
    let mut store = desk.close(first).map_err(|_| "the turn is out")?;
    assert!(rt; gives_length(&store.apply(0, 0, read(one.context, -4)), 800));
    Ok(())
}

/// A store with context 1 of client 0 and key 5 of the payload `s3`.
fn used_store(alloc: Global) -> Result<Store, AllocError> {
    let mut store = Store::new(alloc);
    let _ = store.apply(0, 0, hello(alloc, 1000));
    let _ = store.apply(0, 0, add(alloc, 1, b"alpha", b"s3")?);
    Ok(store)
}

// The seats of a desk go on with what its store has. Where an allocation of `open` was refused it is the store that
// came back.
#[test]
fn a_desk_goes_on_with_its_store(rt: HostRuntime) -> Result<(), Fail> {
    let alloc = rt.alloc();
    let (desk, mut first, mut second) = two_seats(alloc, used_store(alloc)?).ok_or("no desk")?;
    let reply = desk.try_call(&mut first, 0, read(1, 5));
    assert!(rt; reply.is_ok_and(|reply| is_wanted(&reply, Want::Bytes(b"s3"))));
    let reply = desk.try_call(&mut second, 0, hello(alloc, 1000));
    assert!(rt; reply.is_ok_and(|reply| number_of(&reply) == 2));
    let reply = desk.try_call(&mut second, 0, read(2, -4));
    assert!(rt; reply.is_ok_and(|reply| is_wanted(&reply, Want::Bytes(&[5, 0, 0, 0]))));
    let mut store = desk.close(first).map_err(|_| "the turn is out")?;
    assert!(rt; is_wanted(&store.apply(0, 0, read(1, 5)), Want::Bytes(b"s3")));
    Ok(())
}
