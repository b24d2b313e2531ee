//! Frames with a fault.
use super::READ;
use krs_wire::{Feed, WireFault};
use std::alloc::{AllocError, Global};
use std::test::Fail;

// Frames with a fault: lengths, versions and operations, and then bodies that are too short or too long, or whose
// create byte is neither 0 nor 1.
#[rattlefmt::skip]
const FAULTS: [(&[u8], WireFault); 49] = [
    (&[7, 0, 0, 0], WireFault::BadLength),
    (&[1, 0, 1, 0], WireFault::BadLength),
    (&[8, 0, 0, 0, 3, 0, 5, 1, 0, 0, 0, 0], WireFault::BadVersion),
    (&[8, 0, 0, 0, 0, 0, 31, 0, 0, 0, 0, 0], WireFault::BadVersion),
    (&[16, 0, 0, 0, 3, 0, 3, 1, 1, 0, 0, 0, 7, 0, 0, 0, 0, 0, 0, 0], WireFault::BadVersion),
    (&[8, 0, 0, 0, 2, 1, 3, 1, 1, 0, 0, 0], WireFault::BadVersion),
    // Of version 2: frames too short for their tag, and a body that is too long and one that is too short.
    (&[8, 0, 0, 0, 2, 0, 3, 1, 1, 0, 0, 0], WireFault::BadBody),
    (&[8, 0, 0, 0, 2, 0, 31, 0, 0, 0, 0, 0], WireFault::BadOp),
    (&[15, 0, 0, 0, 2, 0, 3, 1, 1, 0, 0, 0, 7, 0, 0, 0, 0, 0, 0], WireFault::BadBody),
    (&[15, 0, 0, 0, 2, 0, 31, 0, 1, 0, 0, 0, 7, 0, 0, 0, 0, 0, 0], WireFault::BadOp),
    (&[12, 0, 0, 0, 2, 0, 0x0b, 0, 1, 0, 0, 0, 5, 0, 0, 0], WireFault::BadBody),
    (&[17, 0, 0, 0, 2, 0, 3, 1, 1, 0, 0, 0, 7, 0, 0, 0, 0, 0, 0, 0, 0], WireFault::BadBody),
    (&[16, 0, 0, 0, 2, 0, 0x0b, 0, 1, 0, 0, 0, 7, 0, 0, 0, 0, 0, 0, 0], WireFault::BadBody),
    (&[1, 0, 1, 0, 2, 0, 3, 1], WireFault::BadLength),
    (&[8, 0, 0, 0, 1, 0, 31, 0, 0, 0, 0, 0], WireFault::BadOp),
    (&[9, 0, 0, 0, 1, 0, 5, 1, 0, 0, 0, 0, 9], WireFault::BadBody),
    (&[11, 0, 0, 0, 1, 0, 6, 0, 0, 0, 0, 0, 5, 0, 0], WireFault::BadBody),
    (&[10, 0, 0, 0, 1, 0, 6, 1, 0, 0, 0, 0, 4, 0], WireFault::BadBody),
    (&[17, 0, 0, 0, 1, 0, 2, 0, 0, 0, 0, 0, 5, 0, 0, 0, 2, 0, 0, 0, 0x73], WireFault::BadBody),
    (&[16, 0, 0, 0, 1, 0, 4, 0, 0, 0, 0, 0, 5, 0, 0, 0, 0xe8, 3, 0, 0], WireFault::BadBody),
    (&[16, 0, 0, 0, 1, 0, 3, 0, 0, 0, 0, 0, 5, 0, 0, 0, 0xe8, 3, 0, 0], WireFault::BadBody),
    (&[12, 0, 0, 0, 1, 0, 8, 0, 0, 0, 0, 0, 6, 0, 0, 0], WireFault::BadBody),
    (&[17, 0, 0, 0, 1, 0, 9, 0, 0, 0, 0, 0, 6, 0, 0, 0, 5, 0, 0, 0, 0], WireFault::BadBody),
    (&[16, 0, 0, 0, 1, 0, 7, 0, 0, 0, 0, 0, 6, 0, 0, 0, 5, 0, 0, 0], WireFault::BadBody),
    (&[13, 0, 0, 0, 1, 0, 0, 0, 0, 0, 0, 0, 5, 0, 0, 0, 2], WireFault::BadBody),
    (&[12, 0, 0, 0, 1, 0, 0, 0, 0, 0, 0, 0, 5, 0, 0, 0], WireFault::BadBody),
    (&[8, 0, 0, 0, 1, 0, 1, 0, 0, 0, 0, 0], WireFault::BadBody),
    (&[23, 0, 0, 0, 1, 0, 10, 0, 0, 0, 0, 0, 5, 0, 0, 0, 4, 0, 0x75, 0x73, 0x65, 0x72, 3, 0, 0x61, 0x62, 0x63],
        WireFault::BadBody),
    (&[18, 0, 0, 0, 1, 0, 7, 1, 0, 0, 0, 0, 4, 0, 0x75, 0x73, 0x65, 0x72, 2, 0, 0x61, 0x62], WireFault::BadBody),
    (&[12, 0, 0, 0, 1, 0, 1, 1, 0, 0, 0, 0, 1, 0, 0, 0], WireFault::BadBody),
    (&[9, 0, 0, 0, 1, 0, 3, 1, 0, 0, 0, 0, 0], WireFault::BadBody),
    (&[9, 0, 0, 0, 1, 0, 4, 1, 0, 0, 0, 0, 0], WireFault::BadBody),
    (&[8, 0, 0, 0, 1, 0, 21, 0, 0, 0, 0, 0], WireFault::BadBody),
    (&[16, 0, 0, 0, 1, 0, 21, 0, 0, 0, 0, 0, 5, 0, 0, 0, 5, 0, 0, 0], WireFault::BadBody),
    // Of asks of queues: bodies that are too short or too long, and counts of entries that do not agree with them.
    (&[16, 0, 0, 0, 1, 0, 32, 0, 0, 0, 0, 0, 5, 0, 0, 0, 1, 0, 0, 0], WireFault::BadBody),
    (&[21, 0, 0, 0, 1, 0, 32, 0, 0, 0, 0, 0, 5, 0, 0, 0, 1, 0, 0, 0, 9, 0, 0, 0, 0], WireFault::BadBody),
    (&[10, 0, 0, 0, 1, 0, 8, 1, 0, 0, 0, 0, 8, 0], WireFault::BadBody),
    (&[16, 0, 0, 0, 1, 0, 8, 1, 0, 0, 0, 0, 8, 0, 0, 0, 8, 0, 0, 0], WireFault::BadBody),
    (&[12, 0, 0, 0, 1, 0, 9, 1, 0, 0, 0, 0, 1, 0, 0, 0], WireFault::BadBody),
    (&[16, 0, 0, 0, 1, 0, 9, 1, 0, 0, 0, 0, 1, 0, 0, 0, 1, 0, 0, 0], WireFault::BadBody),
    (&[16, 0, 0, 0, 1, 0, 9, 1, 0, 0, 0, 0, 1, 0, 0, 0, 255, 255, 255, 255], WireFault::BadBody),
    (&[20, 0, 0, 0, 1, 0, 9, 1, 0, 0, 0, 0, 1, 0, 0, 0, 0, 0, 0, 0, 1, 0, 0, 0], WireFault::BadBody),
    (&[12, 0, 0, 0, 1, 0, 10, 1, 0, 0, 0, 0, 1, 0, 0, 0], WireFault::BadBody),
    (&[8, 0, 0, 0, 1, 0, 11, 1, 0, 0, 0, 0], WireFault::BadBody),
    (&[8, 0, 0, 0, 1, 0, 12, 1, 0, 0, 0, 0], WireFault::BadOp),
    // Counts of 0, 2 and 4294967295 with the bytes of one entry, and a count of 1 with a byte less.
    (&[0x3c, 0, 0, 0, 1, 0, 9, 1, 1, 0, 0, 0, 1, 0, 0, 0, 0, 0, 0, 0, 1, 0, 0, 0, 0, 5, 0, 0, 0, 0xff, 0, 0,
        2, 0, 0, 0, 0, 0, 0, 0x80, 3, 0, 0, 0, 4, 0, 0, 0, 5, 0, 0, 0, 6, 0, 0, 0, 7, 0, 0, 0, 8, 0, 0, 0],
        WireFault::BadBody),
    (&[0x3c, 0, 0, 0, 1, 0, 9, 1, 1, 0, 0, 0, 1, 0, 0, 0, 2, 0, 0, 0, 1, 0, 0, 0, 0, 5, 0, 0, 0, 0xff, 0, 0,
        2, 0, 0, 0, 0, 0, 0, 0x80, 3, 0, 0, 0, 4, 0, 0, 0, 5, 0, 0, 0, 6, 0, 0, 0, 7, 0, 0, 0, 8, 0, 0, 0],
        WireFault::BadBody),
    (&[0x3c, 0, 0, 0, 1, 0, 9, 1, 1, 0, 0, 0, 1, 0, 0, 0, 0xff, 0xff, 0xff, 0xff, 1, 0, 0, 0, 0, 5, 0, 0, 0, 0xff, 0, 0,
        2, 0, 0, 0, 0, 0, 0, 0x80, 3, 0, 0, 0, 4, 0, 0, 0, 5, 0, 0, 0, 6, 0, 0, 0, 7, 0, 0, 0, 8, 0, 0, 0],
        WireFault::BadBody),
    (&[0x3b, 0, 0, 0, 1, 0, 9, 1, 1, 0, 0, 0, 1, 0, 0, 0, 1, 0, 0, 0, 1, 0, 0, 0, 0, 5, 0, 0, 0, 0xff, 0, 0,
        2, 0, 0, 0, 0, 0, 0, 0x80, 3, 0, 0, 0, 4, 0, 0, 0, 5, 0, 0, 0, 6, 0, 0, 0, 7, 0, 0, 0, 8, 0, 0],
        WireFault::BadBody),
];

/// Whether the piece is answered with this fault.
fn is_refused(feed: &mut Feed, piece: &[u8], fault: WireFault) -> bool {
    match feed.feed(piece) {
        Err(found) => found == fault,
        Ok(_) => false,
    }
}

/// Whether there is one frame in the piece, and this fault behind it.
fn is_last(feed: &mut Feed, piece: &[u8], fault: WireFault) -> bool {
    let is_one = match feed.feed(piece) {
        Ok(frames) => frames.len() == 1,
        Err(_) => false,
    };
    match feed.fault() {
        Some(found) => is_one && found == fault,
        None => false,
    }
}

/// Whether the fault is the answer where no good frame stands before it. Behind a good frame it shows afterwards, and
/// is what later pieces are answered with.
fn is_told(alloc: Global, bytes: &[u8], fault: WireFault) -> Result<bool, AllocError> {
    let mut text = Vec::from_slice(alloc, &READ)?;
    text.extend_from_slice(bytes)?;
    let mut feed = Feed::new(alloc);
    Ok(
        is_refused(&mut Feed::new(alloc), bytes, fault)
            && is_last(&mut feed, &text, fault)
            && is_refused(&mut feed, &READ, fault),
    )
}

#[test]
fn faults_are_told_at_once_and_from_then_on(rt: HostRuntime) -> Result<(), Fail> {
    for (bytes, fault) in &FAULTS {
        assert!(rt; is_told(rt.alloc(), bytes, *fault)?, "{bytes:?}");
    }
    Ok(())
}
