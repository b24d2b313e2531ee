//! Calls that are posted: one seat posts, and another answers in a turn of `help` or `call`.
ghost use Rattle.std.specs.Prelude.{◌≡◌};
ghost use Rattle.krs_desk.specs.Sitting.{IsIdleAt};

use super::desk::add;
use crate::{opened, three_seats, two_seats};
use krs_desk::{Desk, Helped, Seat};
use krs_store::Store;
use krs_store_asks::{hello, number_of};
use krs_types::{Ask, Blob, Op, Reply, TypeName};
use std::alloc::{AllocError, Global};
use std::sync::Wait;
use std::sync::atomic::{AtomicU64, Ordering};
use std::test::*;
use std::thread;
use std::thread::Threads;
use std::time::{Clock, Duration};

/// Whether a seat collected this number.
fn gives(reply: Option<Reply>, number: u32) -> bool {
    match reply {
        Some(reply) => number_of(&reply) == number,
        None => false,
    }
}

/// A seat says HELLO and posts ADD of a key, which is its first. The context is its lane's first too.
fn post_first<R: Wait>(
    rt: &R,
    alloc: Global,
    desk: &Desk,
    seat: &mut Seat,
    desc: &[u8],
) -> Result<u32, AllocError>
    requires { IsIdleAt desk.now seat.old }
    ensures { seat.new.table ≡ desk.now }
{
    let context = number_of(&desk.call(rt, seat, 0, hello(alloc, 1000)));
    desk.post(seat, 0, add(alloc, context, desc, b"x")?);
    Ok(context)
}

// One seat posts, another answers, and the first collects once.
#[test]
fn another_seat_answers_a_posted_call(rt: HostRuntime) -> Result<(), Fail> {
    let alloc = rt.alloc();
    let (desk, mut first, mut second) = two_seats(alloc, Store::new(alloc)).ok_or("no desk")?;
    assert_eq!(rt; post_first(&rt, alloc, &desk, &mut first, b"a")?, 1);
    assert!(rt; !first.is_idle());
    assert!(rt; desk.help(&mut second) == Helped::Took(1));
    assert!(rt; gives(desk.collect(&mut first), 5));
    assert!(rt; first.is_idle());
    assert!(rt; desk.collect(&mut first).is_none());
    assert!(rt; desk.help(&mut second) == Helped::Took(0));
    Ok(())
}

// A third seat answers the calls of two lanes in one turn, and neither lane's own seat helps.
#[test]
fn one_turn_answers_all_that_is_posted(rt: HostRuntime) -> Result<(), Fail> {
    let alloc = rt.alloc();
    let (desk, mut first, mut second, mut third) = three_seats(alloc, Store::new(alloc)).ok_or(
        "no desk",
    )?;
    assert_eq!(rt; post_first(&rt, alloc, &desk, &mut first, b"a")?, 1);
    // The second lane's HELLO by `call` would answer the first lane's call too: it is posted in its place.
    desk.post(&mut second, 0, hello(alloc, 1000));
    assert!(rt; desk.help(&mut third) == Helped::Took(2));
    assert!(rt; gives(desk.collect(&mut first), 5));
    assert!(rt; gives(desk.collect(&mut second), 2));
    Ok(())
}

// A call in a turn of its own answers what another lane has posted, before its own ask.
#[test]
fn a_call_answers_what_is_posted(rt: HostRuntime) -> Result<(), Fail> {
    let alloc = rt.alloc();
    let (desk, mut first, mut second) = two_seats(alloc, Store::new(alloc)).ok_or("no desk")?;
    assert_eq!(rt; post_first(&rt, alloc, &desk, &mut first, b"a")?, 1);
    assert_eq!(rt;
        number_of(&desk.call(&rt, &mut second, 0, hello(alloc, 1000))),
        2
    );
    assert!(rt; gives(desk.collect(&mut first), 5));
    Ok(())
}

/// Waits for the flag, for ten seconds at most, and collects. It makes no call meanwhile.
fn collect_late<R: Clock + Wait>(rt: &R, desk: &Desk, mut seat: Seat, flag: &AtomicU64) -> bool
    requires { seat.table ≡ desk.now }
{
    for _ in 0..100_000 {
        if flag.load(Ordering::SeqCst) == 1 {
            return gives(desk.collect(&mut seat), 5);
        }
        thread::sleep(rt, Duration::from_micros(100));
    }
    false
}

/// Answers what is posted, and sets the flag.
fn help_and_tell(desk: &Desk, mut seat: Seat, flag: &AtomicU64) -> bool
    requires { seat.table ≡ desk.now }
{
    for _ in 0..100_000 {
        if desk.help(&mut seat) == Helped::Took(1) {
            flag.store(1, Ordering::SeqCst);
            return true;
        }
    }
    false
}

/// One thread waits for its reply, and another answers.
fn post_and_help<R: Clock + Threads + Wait + Sync>(
    rt: &R,
    desk: &Desk,
    poster: Seat,
    helper: Seat,
    flag: &AtomicU64,
) -> (bool, bool)
    requires { (poster.table ≡ desk.now) × (helper.table ≡ desk.now) }
{
    thread::join(
        rt,
        || collect_late(rt, desk, poster, flag),
        || help_and_tell(desk, helper, flag),
    )
}

// A thread that makes no call has its reply once another thread has had the turn.
#[test]
fn another_thread_answers_a_posted_call(rt: HostRuntime) -> Result<(), Fail> {
    let alloc = rt.alloc();
    let (desk, mut first, second) = two_seats(alloc, Store::new(alloc)).ok_or("no desk")?;
    assert_eq!(rt; post_first(&rt, alloc, &desk, &mut first, b"a")?, 1);
    let flag = AtomicU64::new(0);
    assert!(rt; post_and_help(&rt, &desk, first, second, &flag) == (true, true));
    Ok(())
}

/// How many threads share a desk, and how many calls each of them makes.
const THREADS: u32 = 8;

const CALLS: u32 = 125_000;

/// ADD of a keyring of the name `r` to the user keyring.
fn add_ring(alloc: Global, context: u32) -> Result<Ask, AllocError> {
    let op = Op::Add {
        type_name: TypeName::from_slice(alloc, b"keyring")?,
        desc: Blob::from_slice(alloc, b"r")?,
        payload: Blob::from_slice(alloc, b"")?,
        ring: -4,
    };
    Ok(Ask { context, op })
}

/// Adds keyrings of one name, each of which displaces the one before, and gives their serials. A seat of an odd lane
/// may keep its turn in runs of 100 calls.
fn add_rings<R: Wait>(
    rt: &R,
    alloc: Global,
    desk: &Desk,
    seat: &mut Seat,
) -> Result<Vec<u32>, AllocError>
    requires { IsIdleAt desk.now seat.old }
    ensures { IsIdleAt desk.now seat.new }
{
    let keeps = seat.lane() % 2 == 1;
    let context = number_of(&desk.call(rt, seat, 0, hello(alloc, 1000)));
    let mut serials = Vec::with_capacity(alloc, CALLS as usize)?;
    'calls: for call in 0..CALLS {
        let ask = add_ring(alloc, context)?;
        let more = keeps && call % 100 != 99;
        serials.push(number_of(&desk.call_on(rt, seat, 0, ask, more)))?;
    }
    Ok(serials)
}

/// The same, and nobody waits for the seat after it.
fn add_rings_and_rest<R: Wait>(
    rt: &R,
    alloc: Global,
    desk: &Desk,
    mut seat: Seat,
) -> Result<Vec<u32>, AllocError>
    requires { IsIdleAt desk.now seat }
{
    let serials = add_rings(rt, alloc, desk, &mut seat);
    desk.rest(&mut seat);
    serials
}

// A million calls of eight threads, half of which keep their turns: each new keyring has a serial of its own, and none
// is left out.
#[test]
fn a_million_calls_have_serials_of_their_own(rt: HostRuntime) -> Result<(), Fail> {
    let alloc = rt.alloc();
    let (desk, seats) = opened(alloc, THREADS, Store::new(alloc)).ok_or("no desk")?;
    let lists = thread::map_vec(
        &rt,
        seats,
        &|seat| add_rings_and_rest(&rt, alloc, &desk, seat),
    )?;
    let mut serials = Vec::with_capacity(alloc, 1_000_000)?;
    for list in lists {
        for serial in list? {
            serials.push(serial)?;
        }
    }
    serials.sort_unstable();
    assert_eq!(rt; serials.len(), 1_000_000);
    let mut wanted = 5u32;
    for serial in serials.iter() {
        assert_eq!(rt; *serial, wanted);
        wanted = wanted.saturating_add(1);
    }
    Ok(())
}
