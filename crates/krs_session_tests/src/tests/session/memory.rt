//! Sessions over bytes in memory, each on a seat of a desk.
ghost use Rattle.std.specs.Prelude.{[], ◌≡◌, List};
ghost use Rattle.krs_types.specs.declared.event.Event.{Event};
ghost use Rattle.krs_desk.specs.Sitting.{IsIdleAt};
ghost use Rattle.krs_wire.specs.declared.framed.Framed.{Framed};
ghost use Rattle.krs_session.specs.Calls.{GainsSession};
ghost use Rattle.krs_session_tests.specs.Conversing.{Conversed};

use super::fakes::{Rising, Watching, watches};
use super::{ADD, ASKS, HELLO, READ, REPLIES, tagged};
use krs_desk::{Desk, Seat};
use krs_desk_tests::one_seat;
use krs_session::*;
use krs_store::Store;
use std::alloc::{AllocError, Global};
use std::sync::Wait;
use std::test::*;

// Context 1 and serial 5; context 2 and ESRCH.
const ADDED: [u8; 24] = [
    8, 0, 0, 0, 0, 0, 0, 0, 1, 0, 0, 0, 8, 0, 0, 0, 0, 0, 0, 0, 5, 0, 0, 0,
];

const CONTEXT_2_AND_ESRCH: [u8; 20] = [8, 0, 0, 0, 0, 0, 0, 0, 2, 0, 0, 0, 4, 0, 0, 0, 3, 0, 0, 0];

// In context 1, behind HELLO and ADD: UPDATE of 5 to `s4`; CHOWN of 5 to uid 1000, the gid left; SETPERM of 5 to
// 3f010001; SET_TIMEOUT of 5 to 10 seconds; READ of 5; REVOKE of 5; READ of 5.
const CHANGES: [u8; 134] = [
    0x12, 0, 0, 0, 1, 0, 2, 0, 1, 0, 0, 0, 5, 0, 0, 0, 2, 0, 0, 0, 0x73, 0x34, //
    0x14, 0, 0, 0, 1, 0, 4, 0, 1, 0, 0, 0, 5, 0, 0, 0, 0xe8, 3, 0, 0, 0xff, 0xff, 0xff, 0xff, //
    0x10, 0, 0, 0, 1, 0, 5, 0, 1, 0, 0, 0, 5, 0, 0, 0, 1, 0, 1, 0x3f, //
    0x10, 0, 0, 0, 1, 0, 0x0f, 0, 1, 0, 0, 0, 5, 0, 0, 0, 10, 0, 0, 0, //
    0x0c, 0, 0, 0, 1, 0, 0x0b, 0, 1, 0, 0, 0, 5, 0, 0, 0, //
    0x0c, 0, 0, 0, 1, 0, 3, 0, 1, 0, 0, 0, 5, 0, 0, 0, //
    0x0c, 0, 0, 0, 1, 0, 0x0b, 0, 1, 0, 0, 0, 5, 0, 0, 0,
];

// Nothing, four times; `s4`; nothing; EKEYREVOKED.
const CHANGED: [u8; 58] = [
    4, 0, 0, 0, 0, 0, 0, 0, 4, 0, 0, 0, 0, 0, 0, 0, //
    4, 0, 0, 0, 0, 0, 0, 0, 4, 0, 0, 0, 0, 0, 0, 0, //
    6, 0, 0, 0, 0, 0, 0, 0, 0x73, 0x34, //
    4, 0, 0, 0, 0, 0, 0, 0, 4, 0, 0, 0, 0x80, 0, 0, 0,
];

// Behind HELLO and ADD: in context 1 SEARCH from -4 for user alpha, without a destination; REQUEST of user alpha,
// without one; THREAD; FORK; EXEC; EXIT; in context 3 READ of 5; in context 1 READ of 5.
const CONTEXTS: [u8; 142] = [
    0x1d, 0, 0, 0, 1, 0, 0x0a, 0, 1, 0, 0, 0, 0xfc, 0xff, 0xff, 0xff, 4, 0, 0x75, 0x73, 0x65, 0x72,
    5, 0, 0x61, 0x6c, 0x70, 0x68, 0x61, 0, 0, 0, 0, //
    0x19, 0, 0, 0, 1, 0, 7, 1, 1, 0, 0, 0, 4, 0, 0x75, 0x73, 0x65, 0x72, 5, 0, 0x61, 0x6c, 0x70,
    0x68, 0x61, 0, 0, 0, 0, //
    8, 0, 0, 0, 1, 0, 1, 1, 1, 0, 0, 0, //
    8, 0, 0, 0, 1, 0, 2, 1, 1, 0, 0, 0, //
    8, 0, 0, 0, 1, 0, 3, 1, 1, 0, 0, 0, //
    8, 0, 0, 0, 1, 0, 4, 1, 1, 0, 0, 0, //
    0x0c, 0, 0, 0, 1, 0, 0x0b, 0, 3, 0, 0, 0, 5, 0, 0, 0, //
    0x0c, 0, 0, 0, 1, 0, 0x0b, 0, 1, 0, 0, 0, 5, 0, 0, 0,
];

// Serial 5, twice; contexts 2 and 3; nothing, twice; `s3`; ESRCH.
const CAME_AND_WENT: [u8; 82] = [
    8, 0, 0, 0, 0, 0, 0, 0, 5, 0, 0, 0, 8, 0, 0, 0, 0, 0, 0, 0, 5, 0, 0, 0, //
    8, 0, 0, 0, 0, 0, 0, 0, 2, 0, 0, 0, 8, 0, 0, 0, 0, 0, 0, 0, 3, 0, 0, 0, //
    4, 0, 0, 0, 0, 0, 0, 0, 4, 0, 0, 0, 0, 0, 0, 0, //
    6, 0, 0, 0, 0, 0, 0, 0, 0x73, 0x33, 4, 0, 0, 0, 3, 0, 0, 0,
];

// In context 1, behind HELLO and ADD: GET_ID of -1 with create; INVALIDATE of 5; READ of 5; JOIN without a name;
// GET_ID of -3 without create.
const KEYRINGS: [u8; 80] = [
    0x0d, 0, 0, 0, 1, 0, 0, 0, 1, 0, 0, 0, 0xff, 0xff, 0xff, 0xff, 1, //
    0x0c, 0, 0, 0, 1, 0, 0x15, 0, 1, 0, 0, 0, 5, 0, 0, 0, //
    0x0c, 0, 0, 0, 1, 0, 0x0b, 0, 1, 0, 0, 0, 5, 0, 0, 0, //
    0x0a, 0, 0, 0, 1, 0, 1, 0, 1, 0, 0, 0, 0, 0, //
    0x0d, 0, 0, 0, 1, 0, 0, 0, 1, 0, 0, 0, 0xfd, 0xff, 0xff, 0xff, 0,
];

// Serial 6; nothing; ENOKEY; serial 7, twice.
const ATTACHED: [u8; 52] = [
    8, 0, 0, 0, 0, 0, 0, 0, 6, 0, 0, 0, 4, 0, 0, 0, 0, 0, 0, 0, 4, 0, 0, 0, 0x7e, 0, 0, 0, //
    8, 0, 0, 0, 0, 0, 0, 0, 7, 0, 0, 0, 8, 0, 0, 0, 0, 0, 0, 0, 7, 0, 0, 0,
];

// Behind HELLO and ADD: OPEN_QUEUE of 4 records; SET_FILTER of queue 1 to updated notes; in context 1 WATCH of 5 by
// queue 1 with the id 9, SET_TIMEOUT of 5 to 60 seconds, UPDATE of 5 to `s4`; READ_QUEUE of queue 1 into 64 bytes,
// twice; CLOSE_QUEUE of queue 1; READ_QUEUE of queue 1 into 16 bytes.
#[rattlefmt::skip]
const QUEUES: [u8; 222] = [
    0x0c, 0, 0, 0, 1, 0, 8, 1, 0, 0, 0, 0, 4, 0, 0, 0,
    0x3c, 0, 0, 0, 1, 0, 9, 1, 0, 0, 0, 0, 1, 0, 0, 0, 1, 0, 0, 0,
    1, 0, 0, 0, 0, 0, 0, 0, 0, 0, 0, 0, 2, 0, 0, 0, 0, 0, 0, 0, 0, 0, 0, 0,
    0, 0, 0, 0, 0, 0, 0, 0, 0, 0, 0, 0, 0, 0, 0, 0, 0, 0, 0, 0,
    0x14, 0, 0, 0, 1, 0, 0x20, 0, 1, 0, 0, 0, 5, 0, 0, 0, 1, 0, 0, 0, 9, 0, 0, 0,
    0x10, 0, 0, 0, 1, 0, 0x0f, 0, 1, 0, 0, 0, 5, 0, 0, 0, 60, 0, 0, 0,
    0x12, 0, 0, 0, 1, 0, 2, 0, 1, 0, 0, 0, 5, 0, 0, 0, 2, 0, 0, 0, 0x73, 0x34,
    0x10, 0, 0, 0, 1, 0, 0x0a, 1, 0, 0, 0, 0, 1, 0, 0, 0, 64, 0, 0, 0,
    0x10, 0, 0, 0, 1, 0, 0x0a, 1, 0, 0, 0, 0, 1, 0, 0, 0, 64, 0, 0, 0,
    0x0c, 0, 0, 0, 1, 0, 0x0b, 1, 0, 0, 0, 0, 1, 0, 0, 0,
    0x10, 0, 0, 0, 1, 0, 0x0a, 1, 0, 0, 0, 0, 1, 0, 0, 0, 16, 0, 0, 0,
];

// Queue 1; nothing, four times; the updated note of watch 9 of key 5; EAGAIN; nothing; EBADF.
#[rattlefmt::skip]
const NOTED: [u8; 92] = [
    8, 0, 0, 0, 0, 0, 0, 0, 1, 0, 0, 0,
    4, 0, 0, 0, 0, 0, 0, 0, 4, 0, 0, 0, 0, 0, 0, 0, 4, 0, 0, 0, 0, 0, 0, 0, 4, 0, 0, 0, 0, 0, 0, 0,
    20, 0, 0, 0, 0, 0, 0, 0, 1, 0, 0, 1, 16, 9, 0, 0, 5, 0, 0, 0, 0, 0, 0, 0,
    4, 0, 0, 0, 11, 0, 0, 0, 4, 0, 0, 0, 0, 0, 0, 0, 4, 0, 0, 0, 9, 0, 0, 0,
];

// An empty text with room for a few replies, for which memory may be refused once.
pub(super) fn with_room(alloc: Global) -> Vec<u8>
    ensures { result.items ≡ [] }
{
    match Vec::with_capacity(alloc, 64) {
        Ok(text) => text,
        Err(_) => match Vec::with_capacity(alloc, 64) {
            Ok(text) => text,
            Err(_) => Vec::new(alloc),
        },
    }
}

// A session over bytes in memory, and what `run` tells of it of its bytes there where it was closed, and of its seat:
// the new calls are what frames ask, and one LEAVE.
pub(super) fn converse<R: Wait>(
    rt: &R,
    alloc: Global,
    input: &[u8],
    desk: &Desk,
    seat: &mut Seat,
    gate: &Watching,
) -> (Vec<u8>, Ended)
    requires { IsIdleAt desk.now seat.old }
    ensures table { IsIdleAt desk.now seat.new }
    ensures closed { result.1 ≡ Ended.Closed
        → (events : List Event) × (last : Event) × Conversed input.now result.0.items events last }
    ensures session { (frames : List Framed) × (calls : List Event) × GainsSession seat.old frames calls seat.new }
{
    let mut reader = Over::new(input);
    let mut writer = Over::new(with_room(alloc));
    let mut clock = Rising { at: 100 };
    a_session_is_its_asks_and_leave::<Over<&[u8]>, Over<Vec<u8>>, Rising>();
    let ended = run(
        rt,
        alloc,
        &mut reader,
        &mut writer,
        desk,
        seat,
        &mut clock,
        gate,
        99,
    );
    (writer.into_inner(), ended)
}

// What a session is sent, and what it writes.
#[rattlefmt::skip]
const SESSIONS: [([&[u8]; 3], [&[u8]; 2]); 7] = [
    ([&ASKS, &[], &[]], [&REPLIES, &[]]),
    ([&HELLO, &ADD, &CHANGES], [&ADDED, &CHANGED]),
    ([&HELLO, &ADD, &CONTEXTS], [&ADDED, &CAME_AND_WENT]),
    ([&HELLO, &ADD, &KEYRINGS], [&ADDED, &ATTACHED]),
    ([&HELLO, &ADD, &QUEUES], [&ADDED, &NOTED]),
    ([&tagged::HELLO, &tagged::EXEC, &[]], [&tagged::REPLIES, &[]]),
    ([&tagged::MIXED, &[], &[]], [&tagged::MIXED_REPLIES, &[]]),
];

fn together(alloc: Global, parts: &[&[u8]]) -> Result<Vec<u8>, AllocError> {
    let mut text = Vec::new(alloc);
    for part in parts {
        text.extend_from_slice(part)?;
    }
    Ok(text)
}

// Whether a session that is sent these asks is closed with these replies.
fn is_answered<R: Wait>(
    rt: &R,
    alloc: Global,
    desk: &Desk,
    seat: &mut Seat,
    asks: &[&[u8]],
    replies: &[&[u8]],
) -> Result<bool, AllocError>
    requires { IsIdleAt desk.now seat.old }
    ensures { IsIdleAt desk.now seat.new }
{
    let (stream, wanted) = (together(alloc, asks)?, together(alloc, replies)?);
    let (text, ended) = converse(rt, alloc, &stream, desk, seat, &watches(0));
    Ok(ended == Ended::Closed && text.as_slice() == wanted.as_slice())
}

// Each session is on the seat of a new desk.
#[test]
fn sessions_over_memory_are_answered(rt: HostRuntime) -> Result<(), Fail> {
    for (place, (asks, replies)) in SESSIONS.iter().enumerate() {
        let (desk, mut seat) = one_seat(rt.alloc(), Store::new(rt.alloc())).ok_or("no desk")?;
        assert!(rt;
            is_answered(&rt, rt.alloc(), &desk, &mut seat, asks, replies)?,
            "{place}"
        );
        assert!(rt; desk.close(seat).is_ok());
    }
    Ok(())
}

// HELLO and ADD, and then a session of HELLO and READ in context 1: it has a new context, and the first one's is gone.
#[test]
fn one_seat_serves_two_sessions(rt: HostRuntime) -> Result<(), Fail> {
    let alloc = rt.alloc();
    let (desk, mut seat) = one_seat(alloc, Store::new(alloc)).ok_or("no desk")?;
    assert!(rt; is_answered(&rt, alloc, &desk, &mut seat, &[&HELLO, &ADD], &[&ADDED])?);
    let replies = [CONTEXT_2_AND_ESRCH.as_slice()];
    assert!(rt; is_answered(&rt, alloc, &desk, &mut seat, &[&HELLO, &READ], &replies)?);
    assert!(rt; desk.close(seat).is_ok());
    Ok(())
}
