//! Asks of version 2, whose replies have their tags, alone and between asks of version 1.
use super::fakes::{Then, chair_of, watches};
use super::{ALL, Case, converse_in_pieces, has_left};
use krs_session::Ended;
use std::alloc::Global;
use std::process::Abort;
use std::test::*;

// HELLO 1000 1000 without groups, tag 1.
pub(super) const HELLO: [u8; 32] = [
    0x1c, 0, 0, 0, 2, 0, 0, 1, 0, 0, 0, 0, 1, 0, 0, 0, 0, 0, 0, 0, //
    0xe8, 3, 0, 0, 0xe8, 3, 0, 0, 0, 0, 0, 0,
];

// EXEC in context 1, tag 7.
pub(super) const EXEC: [u8; 20] = [
    0x10, 0, 0, 0, 2, 0, 3, 1, 1, 0, 0, 0, 7, 0, 0, 0, 0, 0, 0, 0,
];

// Context 1, tag 1; nothing, tag 7.
pub(super) const REPLIES: [u8; 36] = [
    0x10, 0, 0, 0, 0, 0, 0, 0, 1, 0, 0, 0, 0, 0, 0, 0, 1, 0, 0, 0, //
    0x0c, 0, 0, 0, 0, 0, 0, 0, 7, 0, 0, 0, 0, 0, 0, 0,
];

// That HELLO; ADD user alpha `s3` to -4 in context 1, version 1; that EXEC; READ 5 in context 1, version 1; that EXEC.
#[rattlefmt::skip]
pub(super) const MIXED: [u8; 123] = [
    0x1c, 0, 0, 0, 2, 0, 0, 1, 0, 0, 0, 0, 1, 0, 0, 0, 0, 0, 0, 0, 0xe8, 3, 0, 0, 0xe8, 3, 0, 0, 0, 0, 0, 0,
    0x1f, 0, 0, 0, 1, 0, 6, 1, 1, 0, 0, 0, 4, 0, 0x75, 0x73, 0x65, 0x72, 5, 0, 0x61, 0x6c, 0x70, 0x68, 0x61,
    2, 0, 0, 0, 0x73, 0x33, 0xfc, 0xff, 0xff, 0xff,
    0x10, 0, 0, 0, 2, 0, 3, 1, 1, 0, 0, 0, 7, 0, 0, 0, 0, 0, 0, 0,
    0x0c, 0, 0, 0, 1, 0, 0x0b, 0, 1, 0, 0, 0, 5, 0, 0, 0,
    0x10, 0, 0, 0, 2, 0, 3, 1, 1, 0, 0, 0, 7, 0, 0, 0, 0, 0, 0, 0,
];

// Context 1, tag 1; serial 5; nothing, tag 7; `s3`; nothing, tag 7.
#[rattlefmt::skip]
pub(super) const MIXED_REPLIES: [u8; 74] = [
    0x10, 0, 0, 0, 0, 0, 0, 0, 1, 0, 0, 0, 0, 0, 0, 0, 1, 0, 0, 0,
    8, 0, 0, 0, 0, 0, 0, 0, 5, 0, 0, 0,
    0x0c, 0, 0, 0, 0, 0, 0, 0, 7, 0, 0, 0, 0, 0, 0, 0,
    6, 0, 0, 0, 0, 0, 0, 0, 0x73, 0x33,
    0x0c, 0, 0, 0, 0, 0, 0, 0, 7, 0, 0, 0, 0, 0, 0, 0,
];

// HELLO and EXEC.
#[rattlefmt::skip]
const BOTH: [u8; 52] = [
    0x1c, 0, 0, 0, 2, 0, 0, 1, 0, 0, 0, 0, 1, 0, 0, 0, 0, 0, 0, 0, 0xe8, 3, 0, 0, 0xe8, 3, 0, 0, 0, 0, 0, 0,
    0x10, 0, 0, 0, 2, 0, 3, 1, 1, 0, 0, 0, 7, 0, 0, 0, 0, 0, 0, 0,
];

// Asks, their replies, and how many they are.
const STREAMS: [(&[u8], &[u8], u32); 2] = [(&BOTH, &REPLIES, 2), (&MIXED, &MIXED_REPLIES, 5)];

// Whether a session is answered so whose reads give so many bytes each.
fn is_answered_in_pieces(
    rt: &impl Abort,
    alloc: Global,
    stream: &[u8],
    replies: &[u8],
    asks: u32,
    size: usize,
) -> bool {
    let case = Case {
        name: "with tags",
        stream,
        reads: (size, size, Then::GivesNone),
        writes: ALL,
        turns: 999,
        ended: Ended::Closed,
        asked: asks.wrapping_add(1),
        written: 0,
        calls: 0,
    };
    let mut seat = chair_of(alloc, 7, 1);
    let gate = watches(7);
    let (writer, ended) = converse_in_pieces(rt, alloc, &case, &mut seat, &gate);
    ended == Ended::Closed && writer.text.as_slice() == replies && has_left(&case, &seat, &gate)
}

#[test]
fn each_reply_has_its_asks_version_and_tag(rt: HostRuntime) {
    for (stream, replies, asks) in &STREAMS {
        for size in 1..=stream.len() {
            let is_right = is_answered_in_pieces(&rt, rt.alloc(), stream, replies, *asks, size);
            assert!(rt; is_right, "{size} bytes a read");
        }
    }
}
