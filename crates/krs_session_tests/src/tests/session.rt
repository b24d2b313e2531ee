//! How a session ends, over ends that give and take their bytes in pieces, or fail.
mod fakes;
mod growths;
mod joined;
mod kept;
mod memory;
mod tagged;

use fakes::{
    Anew, Bites, Chair, Rising, Table, Then, Watching, chair_of, reader_of, watches, writer_of,
};
use krs_session::*;
use krs_wire::WireFault;
use std::alloc::Global;
use std::process::Abort;
use std::test::*;

// HELLO 1000 1000 without groups; ADD user alpha `s3` to -4 in context 1; READ 5 in context 1.
const ASKS: [u8; 75] = [
    0x14, 0, 0, 0, 1, 0, 0, 1, 0, 0, 0, 0, 0xe8, 3, 0, 0, 0xe8, 3, 0, 0, 0, 0, 0, 0, //
    0x1f, 0, 0, 0, 1, 0, 6, 1, 1, 0, 0, 0, 4, 0, 0x75, 0x73, 0x65, 0x72, 5, 0, 0x61, 0x6c, 0x70,
    0x68, 0x61, 2, 0, 0, 0, 0x73, 0x33, 0xfc, 0xff, 0xff, 0xff, //
    0x0c, 0, 0, 0, 1, 0, 0x0b, 0, 1, 0, 0, 0, 5, 0, 0, 0,
];

// Context 1; serial 5; `s3`.
const REPLIES: [u8; 34] = [
    8, 0, 0, 0, 0, 0, 0, 0, 1, 0, 0, 0, //
    8, 0, 0, 0, 0, 0, 0, 0, 5, 0, 0, 0, //
    6, 0, 0, 0, 0, 0, 0, 0, 0x73, 0x33,
];

// The asks one by one.
const HELLO: [u8; 24] = [
    0x14, 0, 0, 0, 1, 0, 0, 1, 0, 0, 0, 0, 0xe8, 3, 0, 0, 0xe8, 3, 0, 0, 0, 0, 0, 0,
];

const ADD: [u8; 35] = [
    0x1f, 0, 0, 0, 1, 0, 6, 1, 1, 0, 0, 0, 4, 0, 0x75, 0x73, 0x65, 0x72, 5, 0, 0x61, 0x6c, 0x70,
    0x68, 0x61, 2, 0, 0, 0, 0x73, 0x33, 0xfc, 0xff, 0xff, 0xff,
];

const READ: [u8; 16] = [0x0c, 0, 0, 0, 1, 0, 0x0b, 0, 1, 0, 0, 0, 5, 0, 0, 0];

// HELLO, and the length 7 in the same piece.
const HELLO_AND_7: [u8; 28] = [
    0x14, 0, 0, 0, 1, 0, 0, 1, 0, 0, 0, 0, 0xe8, 3, 0, 0, 0xe8, 3, 0, 0, 0, 0, 0, 0, 7, 0, 0, 0,
];

// HELLO; CLEAR of 5 in context 1; READ of 5 in context 1.
const HELLO_CLEAR_AND_READ: [u8; 56] = [
    0x14, 0, 0, 0, 1, 0, 0, 1, 0, 0, 0, 0, 0xe8, 3, 0, 0, 0xe8, 3, 0, 0, 0, 0, 0, 0, //
    0x0c, 0, 0, 0, 1, 0, 7, 0, 1, 0, 0, 0, 5, 0, 0, 0, //
    0x0c, 0, 0, 0, 1, 0, 0x0b, 0, 1, 0, 0, 0, 5, 0, 0, 0,
];

// Context 1; ENOMEM; `s3`.
const WITHOUT_MEMORY: [u8; 30] = [
    8, 0, 0, 0, 0, 0, 0, 0, 1, 0, 0, 0, 4, 0, 0, 0, 0x0c, 0, 0, 0, 6, 0, 0, 0, 0, 0, 0, 0, 0x73,
    0x33,
];

#[derive(Clone, Copy)]
struct Case<'a> {
    name: &'a str,
    stream: &'a [u8],
    // How many bytes the first read gives and each later one, and what the end of the stream is.
    reads: (usize, usize, Then),
    // How many bytes a write takes at most, how many all take, and what a write does then.
    writes: (usize, usize, Then),
    turns: u64,
    ended: Ended,
    asked: u32,
    written: usize,
    // How often the writer was called.
    calls: u32,
}

// A session over the ends of a case.
fn converse_in_pieces(
    rt: &impl Abort,
    alloc: Global,
    case: &Case<'_>,
    seat: &mut Chair,
    gate: &Watching,
) -> (Bites, Ended) {
    let (next, later, then) = case.reads;
    let mut reader = reader_of(case.stream, next, later, then);
    let (most, room, then) = case.writes;
    let mut writer = writer_of(alloc, most, room, then);
    let mut clock = Rising { at: 100 };
    let ended = run(
        rt,
        alloc,
        &mut reader,
        &mut writer,
        &Table,
        seat,
        &mut clock,
        gate,
        case.turns,
    );
    (writer, ended)
}

// Whether LEAVE was asked once and last, and each ask passed the gate twice, at a second of its own.
fn has_left(case: &Case<'_>, seat: &Chair, gate: &Watching) -> bool {
    let is_last = seat.leaves == 1 && seat.late == 0;
    let is_all = seat.asked == case.asked && seat.moment == 99 + u64::from(case.asked);
    let has_passed = gate.asked.get() == case.asked && gate.answered.get() == case.asked;
    is_last && is_all && has_passed && gate.wrong.get() == 0
}

fn is_as_told(rt: &impl Abort, alloc: Global, case: &Case<'_>) -> bool {
    let mut seat = chair_of(alloc, 7, 1);
    let gate = watches(7);
    let (writer, ended) = converse_in_pieces(rt, alloc, case, &mut seat, &gate);
    let (written, _) = REPLIES.split_at(case.written.min(REPLIES.len()));
    let is_written = writer.calls == case.calls && writer.text.as_slice() == written;
    is_written && ended == case.ended && has_left(case, &seat, &gate)
}

fn check(rt: &impl Abort, alloc: Global, case: &Case<'_>) {
    let is_right = is_as_told(rt, alloc, case);
    let (name, asked, written) = (case.name, case.asked, case.written);
    assert!(rt; is_right, "{name}: {asked} asks, {written} bytes");
}

const ALL: (usize, usize, Then) = (4096, 4096, Then::GivesNone);

const BYTES: (usize, usize, Then) = (1, 1, Then::GivesNone);

const BAD_LENGTH: Ended = Ended::Wire(WireFault::BadLength);

#[rattlefmt::skip]
const CASES: [Case<'static>; 20] = [
    Case { name: "one read", stream: &ASKS, reads: ALL, writes: ALL,
        turns: 99, ended: Ended::Closed, asked: 4, written: 34, calls: 1 },
    Case { name: "a read for each ask", stream: &ASKS, reads: (24, 35, Then::GivesNone), writes: ALL,
        turns: 99, ended: Ended::Closed, asked: 4, written: 34, calls: 3 },
    // The replies are written before the fault is told.
    Case { name: "HELLO and length 7", stream: &HELLO_AND_7, reads: ALL, writes: ALL,
        turns: 99, ended: BAD_LENGTH, asked: 2, written: 12, calls: 1 },
    Case { name: "HELLO and length 7, not written", stream: &HELLO_AND_7, reads: ALL, writes: (4096, 0, Then::Fails),
        turns: 99, ended: Ended::Write, asked: 2, written: 0, calls: 1 },
    Case { name: "byte by byte", stream: &ASKS, reads: BYTES, writes: ALL,
        turns: 99, ended: Ended::Closed, asked: 4, written: 34, calls: 3 },
    Case { name: "three bytes a write", stream: &ASKS, reads: ALL, writes: (3, 4096, Then::GivesNone),
        turns: 99, ended: Ended::Closed, asked: 4, written: 34, calls: 12 },
    Case { name: "length 7", stream: &[7, 0, 0, 0], reads: ALL, writes: ALL,
        turns: 99, ended: BAD_LENGTH, asked: 1, written: 0, calls: 0 },
    Case { name: "length 65537", stream: &[1, 0, 1, 0], reads: BYTES, writes: ALL,
        turns: 99, ended: BAD_LENGTH, asked: 1, written: 0, calls: 0 },
    Case { name: "length 65537 at once", stream: &[1, 0, 1, 0], reads: ALL, writes: ALL,
        turns: 99, ended: BAD_LENGTH, asked: 1, written: 0, calls: 0 },
    Case { name: "version 2 without a tag", stream: &[8, 0, 0, 0, 2, 0, 3, 1, 1, 0, 0, 0], reads: ALL, writes: ALL,
        turns: 99, ended: Ended::Wire(WireFault::BadBody), asked: 1, written: 0, calls: 0 },
    Case { name: "version 3", stream: &[8, 0, 0, 0, 3, 0, 3, 1, 1, 0, 0, 0], reads: ALL, writes: ALL,
        turns: 99, ended: Ended::Wire(WireFault::BadVersion), asked: 1, written: 0, calls: 0 },
    Case { name: "operation 31", stream: &[8, 0, 0, 0, 1, 0, 31, 0, 0, 0, 0, 0], reads: ALL, writes: ALL,
        turns: 99, ended: Ended::Wire(WireFault::BadOp), asked: 1, written: 0, calls: 0 },
    Case { name: "EXEC with a body", stream: &[9, 0, 0, 0, 1, 0, 3, 1, 1, 0, 0, 0, 0], reads: ALL, writes: ALL,
        turns: 99, ended: Ended::Wire(WireFault::BadBody), asked: 1, written: 0, calls: 0 },
    Case { name: "GET_ID, create 2", stream: &[13, 0, 0, 0, 1, 0, 0, 0, 1, 0, 0, 0, 0xfc, 0xff, 0xff, 0xff, 2],
        reads: ALL, writes: ALL,
        turns: 99, ended: Ended::Wire(WireFault::BadBody), asked: 1, written: 0, calls: 0 },
    Case { name: "five bytes of HELLO", stream: &ASKS, reads: BYTES, writes: ALL,
        turns: 5, ended: Ended::Turns, asked: 1, written: 0, calls: 0 },
    Case { name: "a read fails", stream: &ASKS, reads: (24, 51, Then::Fails), writes: ALL,
        turns: 99, ended: Ended::Read, asked: 4, written: 34, calls: 2 },
    Case { name: "a write fails", stream: &ASKS, reads: ALL, writes: (4096, 20, Then::Fails),
        turns: 99, ended: Ended::Write, asked: 4, written: 20, calls: 2 },
    Case { name: "a write takes none", stream: &ASKS, reads: (24, 35, Then::GivesNone), writes: (5, 5, Then::GivesNone),
        turns: 99, ended: Ended::Write, asked: 2, written: 5, calls: 2 },
    Case { name: "two turns", stream: &ASKS, reads: (24, 35, Then::GivesNone), writes: ALL,
        turns: 2, ended: Ended::Turns, asked: 3, written: 24, calls: 2 },
    Case { name: "no turns", stream: &ASKS, reads: ALL, writes: ALL,
        turns: 0, ended: Ended::Turns, asked: 1, written: 0, calls: 0 },
];

#[test]
fn each_end_is_told_and_leave_is_asked_last(rt: HostRuntime) {
    for case in &CASES {
        check(&rt, rt.alloc(), case);
    }
}

// The moment of LEAVE, where the clock answers 100 first, and goes on by a second each time that it is asked anew.
fn last_moment(rt: &impl Abort, alloc: Global, next: usize, later: usize) -> u64 {
    let mut reader = reader_of(&ASKS, next, later, Then::GivesNone);
    let mut writer = writer_of(alloc, 4096, 4096, Then::GivesNone);
    let mut seat = chair_of(alloc, 7, 1);
    let mut clock = Anew { last: 99 };
    let gate = watches(7);
    let _ = run(
        rt,
        alloc,
        &mut reader,
        &mut writer,
        &Table,
        &mut seat,
        &mut clock,
        &gate,
        99,
    );
    seat.moment
}

// Three asks of one read have one moment, and LEAVE has the next; in reads of their own each has one of its own.
#[test]
fn the_clock_is_asked_anew_once_a_read(rt: HostRuntime) {
    let together = last_moment(&rt, rt.alloc(), 4096, 4096);
    assert!(rt; together == 101);
    let apart = last_moment(&rt, rt.alloc(), 24, 35);
    assert!(rt; apart == 103);
}

// A reply of ENOMEM is a reply as any other, and the session goes on.
#[test]
fn a_refusal_for_memory_is_a_reply(rt: HostRuntime) {
    let case = Case {
        name: "a refusal for memory",
        stream: &HELLO_CLEAR_AND_READ,
        reads: ALL,
        writes: ALL,
        turns: 99,
        ended: Ended::Closed,
        asked: 4,
        written: 30,
        calls: 1,
    };
    let mut seat = chair_of(rt.alloc(), 7, 1);
    let gate = watches(7);
    let (writer, ended) = converse_in_pieces(&rt, rt.alloc(), &case, &mut seat, &gate);
    let is_answered = writer.text.as_slice() == WITHOUT_MEMORY.as_slice();
    assert!(rt; is_answered && ended == Ended::Closed && has_left(&case, &seat, &gate));
}
