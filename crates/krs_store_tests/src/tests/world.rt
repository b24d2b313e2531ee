//! The check that a list of events may have happened to a new store.
use krs_store_asks::{add, describe, hello, read};
use krs_types::{Answer, Ask, Body, Event, Reply};
use krs_world::replay_check;
use std::alloc::{AllocError, Global};
use std::process::Abort;
use std::test::Fail;

fn bytes(alloc: Global, bytes: &[u8]) -> Result<Reply, AllocError> {
    let bytes = Vec::from_slice(alloc, bytes)?;
    if bytes.len() > 262140 {
        return Err(AllocError);
    }
    Ok(Ok(Answer::Bytes(Body::new(bytes))))
}

fn event(ask: Ask, reply: Reply) -> Event {
    Event {
        lane: 0,
        moment: 0,
        ask,
        reply,
    }
}

/// A client's first calls, by their place: HELLO, ADD of a key, READ and DESCRIBE of it, where ADD is said to answer
/// this serial.
fn first_call(alloc: Global, place: u8, serial: u32) -> Result<Event, AllocError> {
    match place {
        0 => Ok(event(hello(alloc, 1000), Ok(Answer::Number(1)))),
        1 => {
            let ask = add(alloc, b"user", b"alpha", b"s3", -4)?;
            Ok(event(ask, Ok(Answer::Number(serial))))
        }
        2 => Ok(event(read(1, 5), bytes(alloc, b"s3")?)),
        _ => {
            let described = bytes(alloc, b"user;1000;1000;3f010000;alpha")?;
            Ok(event(describe(1, 5), described))
        }
    }
}

/// Appends them to these events.
fn add_first_calls(alloc: Global, serial: u32, events: &mut Vec<Event>) -> Result<(), AllocError> {
    for place in 0..4u8 {
        events.push(first_call(alloc, place, serial)?)?;
    }
    Ok(())
}

/// Appends copies of the first events to others.
fn add_copies(alloc: Global, events: &[Event], copies: &mut Vec<Event>) -> Result<(), AllocError> {
    for event in events {
        copies.push(event.copy(alloc)?)?;
    }
    Ok(())
}

/// Whether it is found that these events may have happened, or may not.
fn is_replayed(alloc: Global, events: &[Event], happened: bool) -> bool {
    match replay_check(alloc, events) {
        Ok(found) => found == happened,
        Err(_) => false,
    }
}

fn check_first_calls(
    rt: &impl Abort,
    alloc: Global,
    events: &mut Vec<Event>,
    copies: &mut Vec<Event>,
    other: &mut Vec<Event>,
) -> Result<(), AllocError> {
    add_first_calls(alloc, 5, events)?;
    add_copies(alloc, events, copies)?;
    add_first_calls(alloc, 6, other)?;
    assert!(rt; is_replayed(alloc, events, true), "the events");
    assert!(rt; is_replayed(alloc, copies, true), "their copies");
    assert!(rt; is_replayed(alloc, other, false), "another serial");
    Ok(())
}

#[test]
fn first_calls_may_have_happened(rt: HostRuntime) -> Result<(), Fail> {
    let alloc = rt.alloc();
    let (mut events, mut copies) = (Vec::new(alloc), Vec::new(alloc));
    let mut other = Vec::new(alloc);
    check_first_calls(&rt, alloc, &mut events, &mut copies, &mut other)?;
    Ok(())
}
