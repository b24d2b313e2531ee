use krs_store_asks::{Want, is_wanted};
use krs_types::Op;
use krs_wire::{WireFault, decode_reply, decode_reply2, encode_reply, encode_reply2};
use std::alloc::{AllocError, Global};

mod asks;
mod faults;
mod pieces;
mod replies;
mod told;

// READ of 5 in context 1.
const READ: [u8; 16] = [0x0c, 0, 0, 0, 1, 0, 0x0b, 0, 1, 0, 0, 0, 5, 0, 0, 0];

// The reply of nothing.
const NOTHING: [u8; 8] = [4, 0, 0, 0, 0, 0, 0, 0];

// The tag of a frame, and its bytes.
const TAG: u64 = 0xf7e6_d5c4_b3a2_9180;

const TAG_BYTES: [u8; 8] = [0x80, 0x91, 0xa2, 0xb3, 0xc4, 0xd5, 0xe6, 0xf7];

/// A frame of version 1 with that tag behind so many bytes, and its length greater by 8: a reply's frame of version 2,
/// and an ask's but for the version.
fn with_tag(alloc: Global, frame: &[u8], head: usize) -> Result<Vec<u8>, AllocError> {
    let (front, body) = frame.split_at(head.min(frame.len()));
    let mut tagged = Vec::from_slice(alloc, front)?;
    tagged.extend_from_slice(&TAG_BYTES)?;
    tagged.extend_from_slice(body)?;
    if let Some(length) = tagged.first_mut() {
        *length = length.wrapping_add(8);
    }
    Ok(tagged)
}

/// Whether a reply to this ask is encoded so in version 2: the frame is read as the reply and its tag, these are
/// encoded as the frame, and no reply is in the frame without its last byte.
fn is_tagged_reply(
    alloc: Global,
    op: &Op,
    want: Want<'_>,
    frame: &[u8],
) -> Result<bool, WireFault> {
    let Some((found, tag, len)) = decode_reply2(alloc, op, frame)? else {
        return Ok(false);
    };
    let Some((_, part)) = frame.split_last() else {
        return Ok(false);
    };
    let again = encode_reply2(alloc, &found, TAG)?;
    let is_same = tag == TAG && len == frame.len() && again.as_slice() == frame;
    Ok(is_same && is_wanted(&found, want) && decode_reply2(alloc, op, part)?.is_none())
}

/// Whether a reply to this ask is encoded so: the frame is read as the reply, which is encoded as the frame, and no
/// reply is in the frame without its last byte. The same is true of version 2, with a tag.
fn is_reply(alloc: Global, op: &Op, want: Want<'_>, frame: &[u8]) -> Result<bool, WireFault> {
    let Some((found, len)) = decode_reply(alloc, op, frame)? else {
        return Ok(false);
    };
    let Some((_, part)) = frame.split_last() else {
        return Ok(false);
    };
    let again = encode_reply(alloc, &found)?;
    let is_same = len == frame.len() && again.as_slice() == frame;
    let tagged = with_tag(alloc, frame, 8)?;
    Ok(
        is_same
            && is_wanted(&found, want)
            && decode_reply(alloc, op, part)?.is_none()
            && is_tagged_reply(alloc, op, want, &tagged)?,
    )
}

/// Whether these bytes, as a reply of version 2 to this ask, have this fault.
fn is_tagged_fault(alloc: Global, op: &Op, bytes: &[u8], fault: WireFault) -> bool {
    match decode_reply2(alloc, op, bytes) {
        Err(found) => found == fault,
        Ok(_) => false,
    }
}

/// Whether these bytes, as a reply to this ask, have this fault.
fn is_fault(alloc: Global, op: &Op, bytes: &[u8], fault: WireFault) -> bool {
    match decode_reply(alloc, op, bytes) {
        Err(found) => found == fault,
        Ok(_) => false,
    }
}
