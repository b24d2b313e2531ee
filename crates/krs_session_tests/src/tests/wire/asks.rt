//! Every ask, as its frame and its reply encode it.
use super::told::told;
use super::{NOTHING, READ, TAG, is_fault, is_reply, with_tag};
use krs_store_asks::Want;
use krs_types::{Ask, Op};
use krs_wire::{Feed, WireFault, encode_ask, encode_ask2};
use std::alloc::Global;
use std::test::Fail;

// Serial or context 5.
const FIVE: [u8; 12] = [8, 0, 0, 0, 0, 0, 0, 0, 5, 0, 0, 0];

const THREE_BYTES: [u8; 11] = [7, 0, 0, 0, 0, 0, 0, 0, 1, 0, 0];

const PAYLOAD: [u8; 10] = [6, 0, 0, 0, 0, 0, 0, 0, 0x73, 0x33];

// An updated note of watch 9 of key 5, and a loss.
const RECORDS: [u8; 24] = [
    1, 0, 0, 1, 16, 9, 0, 0, 5, 0, 0, 0, 0, 0, 0, 0, 0, 0, 0, 1, 8, 0, 0, 0,
];

const RECORDS_FRAME: [u8; 32] = [
    28, 0, 0, 0, 0, 0, 0, 0, 1, 0, 0, 1, 16, 9, 0, 0, 5, 0, 0, 0, 0, 0, 0, 0, //
    0, 0, 0, 1, 8, 0, 0, 0,
];

// A refusal by a number that is no errno, and one with a byte behind it.
const NO_ERRNO: [u8; 8] = [4, 0, 0, 0, 4, 0, 0, 0];

const LONG_REFUSAL: [u8; 9] = [5, 0, 0, 0, 126, 0, 0, 0, 1];

/// An accepted ask's reply, the frame of it, and two frames that are no reply to the ask.
type Form = (Want<'static>, &'static [u8], [&'static [u8]; 2]);

const DONE: Form = (Want::Nothing, &NOTHING, [&FIVE, &THREE_BYTES]);

const NUMBER: Form = (Want::Number(5), &FIVE, [&NOTHING, &THREE_BYTES]);

const S3: Form = (Want::Bytes(b"s3"), &PAYLOAD, [&NO_ERRNO, &LONG_REFUSAL]);

const NOTES: Form = (
    Want::Bytes(&RECORDS),
    &RECORDS_FRAME,
    [&NO_ERRNO, &LONG_REFUSAL],
);

// Frames of every ask, what they say and in which context, and the reply.
#[rattlefmt::skip]
static ASKS: [(&[u8], &str, Form); 32] = [
    (&[0x14, 0, 0, 0, 1, 0, 0, 1, 0, 0, 0, 0, 0xe8, 3, 0, 0, 0xe8, 3, 0, 0, 0, 0, 0, 0],
        "0 Hello { uid: 1000, gid: 1000, groups: [] }", NUMBER),
    (&[0x1f, 0, 0, 0, 1, 0, 6, 1, 1, 0, 0, 0, 4, 0, 0x75, 0x73, 0x65, 0x72, 5, 0, 0x61, 0x6c, 0x70, 0x68, 0x61,
        2, 0, 0, 0, 0x73, 0x33, 0xfc, 0xff, 0xff, 0xff],
        "1 Add { type_name: [117, 115, 101, 114], desc: [97, 108, 112, 104, 97], \
        payload: [115, 51], ring: -4 }", NUMBER),
    (&READ, "1 Read { id: 5 }", S3),
    (&[0x12, 0, 0, 0, 1, 0, 2, 0, 1, 0, 0, 0, 5, 0, 0, 0, 2, 0, 0, 0, 0x73, 0x34],
        "1 Update { id: 5, payload: [115, 52] }", DONE),
    (&[0x0c, 0, 0, 0, 1, 0, 3, 0, 1, 0, 0, 0, 0xfc, 0xff, 0xff, 0xff], "1 Revoke { id: -4 }", DONE),
    (&[0x14, 0, 0, 0, 1, 0, 4, 0, 1, 0, 0, 0, 5, 0, 0, 0, 0xe8, 3, 0, 0, 0xff, 0xff, 0xff, 0xff],
        "1 Chown { id: 5, uid: 1000, gid: 4294967295 }", DONE),
    (&[0x10, 0, 0, 0, 1, 0, 5, 0, 1, 0, 0, 0, 5, 0, 0, 0, 1, 0, 1, 0x3f],
        "1 SetPerm { id: 5, mask: 1057030145 }", DONE),
    (&[0x10, 0, 0, 0, 1, 0, 0x0f, 0, 1, 0, 0, 0, 5, 0, 0, 0, 10, 0, 0, 0], "1 SetTimeout { id: 5, seconds: 10 }", DONE),
    (&[0x10, 0, 0, 0, 1, 0, 8, 0, 1, 0, 0, 0, 6, 0, 0, 0, 5, 0, 0, 0], "1 Link { key: 6, ring: 5 }", DONE),
    (&[0x10, 0, 0, 0, 1, 0, 9, 0, 1, 0, 0, 0, 5, 0, 0, 0, 0xfc, 0xff, 0xff, 0xff],
        "1 Unlink { key: 5, ring: -4 }", DONE),
    (&[0x18, 0, 0, 0, 1, 0, 0x1e, 0, 1, 0, 0, 0, 7, 0, 0, 0, 5, 0, 0, 0, 6, 0, 0, 0, 1, 0, 0, 0],
        "1 Move { key: 7, from: 5, to: 6, flags: 1 }", DONE),
    (&[0x0e, 0, 0, 0, 1, 0, 0x1d, 0, 1, 0, 0, 0, 5, 0, 0, 0, 0, 0],
        "1 RestrictKeyring { ring: 5, type_name: [] }", DONE),
    (&[0x0c, 0, 0, 0, 1, 0, 7, 0, 1, 0, 0, 0, 5, 0, 0, 0], "1 Clear { id: 5 }", DONE),
    (&[0x0d, 0, 0, 0, 1, 0, 0, 0, 1, 0, 0, 0, 0xff, 0xff, 0xff, 0xff, 1], "1 GetId { id: -1, create: true }", NUMBER),
    (&[0x0d, 0, 0, 0, 1, 0, 0, 0, 1, 0, 0, 0, 5, 0, 0, 0, 0], "1 GetId { id: 5, create: false }", NUMBER),
    (&[0x0a, 0, 0, 0, 1, 0, 1, 0, 1, 0, 0, 0, 0, 0], "1 Join { name: [] }", NUMBER),
    (&[0x0b, 0, 0, 0, 1, 0, 1, 0, 1, 0, 0, 0, 1, 0, 0x73], "1 Join { name: [115] }", NUMBER),
    (&[8, 0, 0, 0, 1, 0, 1, 1, 1, 0, 0, 0], "1 Thread", NUMBER),
    (&[8, 0, 0, 0, 1, 0, 2, 1, 1, 0, 0, 0], "1 Fork", NUMBER),
    (&[0x1d, 0, 0, 0, 1, 0, 0x0a, 0, 1, 0, 0, 0, 0xfd, 0xff, 0xff, 0xff, 4, 0, 0x75, 0x73, 0x65, 0x72,
        5, 0, 0x61, 0x6c, 0x70, 0x68, 0x61, 6, 0, 0, 0],
        "1 Search { head: -3, type_name: [117, 115, 101, 114], \
        desc: [97, 108, 112, 104, 97], dest: 6 }", NUMBER),
    (&[0x19, 0, 0, 0, 1, 0, 7, 1, 1, 0, 0, 0, 4, 0, 0x75, 0x73, 0x65, 0x72, 5, 0, 0x61, 0x6c, 0x70, 0x68, 0x61,
        0, 0, 0, 0],
        "1 Request { type_name: [117, 115, 101, 114], \
        desc: [97, 108, 112, 104, 97], dest: 0 }", NUMBER),
    (&[0x0c, 0, 0, 0, 1, 0, 0x15, 0, 1, 0, 0, 0, 6, 0, 0, 0], "1 Invalidate { id: 6 }", DONE),
    (&[0x0c, 0, 0, 0, 1, 0, 0x15, 0, 1, 0, 0, 0, 0xfc, 0xff, 0xff, 0xff], "1 Invalidate { id: -4 }", DONE),
    (&[8, 0, 0, 0, 1, 0, 3, 1, 1, 0, 0, 0], "1 Exec", DONE),
    (&[8, 0, 0, 0, 1, 0, 4, 1, 1, 0, 0, 0], "1 Exit", DONE),
    (&[0x14, 0, 0, 0, 1, 0, 0x20, 0, 1, 0, 0, 0, 5, 0, 0, 0, 1, 0, 0, 0, 9, 0, 0, 0],
        "1 Watch { id: 5, queue: 1, watch: 9 }", DONE),
    (&[0x14, 0, 0, 0, 1, 0, 0x20, 0, 1, 0, 0, 0, 0xfc, 0xff, 0xff, 0xff, 1, 0, 0, 0, 0xff, 0xff, 0xff, 0xff],
        "1 Watch { id: -4, queue: 1, watch: -1 }", DONE),
    (&[0x0c, 0, 0, 0, 1, 0, 8, 1, 1, 0, 0, 0, 8, 0, 0, 0], "1 OpenQueue { capacity: 8 }", NUMBER),
    (&[0x10, 0, 0, 0, 1, 0, 9, 1, 1, 0, 0, 0, 1, 0, 0, 0, 0, 0, 0, 0],
        "1 SetFilter { queue: 1, entries: [] }", DONE),
    (&[0x3c, 0, 0, 0, 1, 0, 9, 1, 1, 0, 0, 0, 1, 0, 0, 0, 1, 0, 0, 0, 1, 0, 0, 0, 0, 5, 0, 0, 0, 0xff, 0, 0,
        2, 0, 0, 0, 0, 0, 0, 0x80, 3, 0, 0, 0, 4, 0, 0, 0, 5, 0, 0, 0, 6, 0, 0, 0, 7, 0, 0, 0, 8, 0, 0, 0],
        "1 SetFilter { queue: 1, entries: [FilterEntry { note_type: 1, info_filter: 1280, \
        info_mask: 65280, subtypes: [2, 2147483648, 3, 4, 5, 6, 7, 8] }] }", DONE),
    (&[0x10, 0, 0, 0, 1, 0, 0x0a, 1, 1, 0, 0, 0, 1, 0, 0, 0, 0x40, 0, 0, 0],
        "1 ReadQueue { queue: 1, room: 64 }", NOTES),
    (&[0x0c, 0, 0, 0, 1, 0, 0x0b, 1, 1, 0, 0, 0, 1, 0, 0, 0], "1 CloseQueue { queue: 1 }", DONE),
];

pub(super) fn asks() -> &'static [(&'static [u8], &'static str, Form)] {
    &ASKS
}

/// Whether the ask is encoded so in words and in bytes.
fn is_ask(alloc: Global, ask: &Ask, text: &str, frame: &[u8]) -> Result<bool, WireFault> {
    let (context, op) = (ask.context, &ask.op);
    let asked = told(alloc, op)?;
    let words = format!(in alloc; "{context} {asked}")?;
    Ok(words.as_str() == text && encode_ask(alloc, ask)?.as_slice() == frame)
}

/// Whether the reply to the ask has this form alone.
fn is_answered(alloc: Global, op: &Op, form: Form) -> Result<bool, WireFault> {
    let (want, frame, [one, other]) = form;
    let bad = WireFault::BadBody;
    Ok(
        is_reply(alloc, op, want, frame)?
            && is_fault(alloc, op, one, bad)
            && is_fault(alloc, op, other, bad),
    )
}

/// Whether the frame is read as one ask, which is encoded and answered so.
fn is_encoded(alloc: Global, frame: &[u8], text: &str, form: Form) -> Result<bool, WireFault> {
    let frames = Feed::new(alloc).feed(frame)?;
    let [framed] = frames.as_slice() else {
        return Ok(false);
    };
    Ok(
        framed.tag.is_none()
            && is_ask(alloc, &framed.ask, text, frame)?
            && is_answered(alloc, &framed.ask.op, form)?,
    )
}

/// Whether the frame in version 2, with a tag, is read as one ask with that tag, which is encoded so.
fn is_encoded_with_tag(alloc: Global, frame: &[u8], text: &str) -> Result<bool, WireFault> {
    let mut tagged = with_tag(alloc, frame, 12)?;
    if let Some(version) = tagged.get_mut(4) {
        *version = 2;
    }
    let frames = Feed::new(alloc).feed(&tagged)?;
    let [framed] = frames.as_slice() else {
        return Ok(false);
    };
    let again = encode_ask2(alloc, &framed.ask, TAG)?;
    Ok(
        framed.tag == Some(TAG)
            && is_ask(alloc, &framed.ask, text, frame)?
            && again.as_slice() == tagged.as_slice(),
    )
}

#[test]
fn each_ask_is_encoded(rt: HostRuntime) -> Result<(), Fail> {
    for (frame, text, form) in asks() {
        assert!(rt; is_encoded(rt.alloc(), frame, text, *form)?, "{text}");
        assert!(rt;
            is_encoded_with_tag(rt.alloc(), frame, text)?,
            "{text}, with a tag"
        );
    }
    Ok(())
}
