ghost use Rattle.std.specs.Prelude.{◌++◌, ◌+◌, ◌≡◌, ◌≤◌, false, IfErr, IfOk, IfSome, IsOk, length, None, Ok, OnErr};
ghost use Rattle.std.specs.{Prelude.{OnOk, option_map, Some, take, true}, Int.{to_le_bytes, w32}};
ghost use Rattle.krs_types.specs.declared.ask.Answer.TheVariants.{Bytes};
ghost use Rattle.krs_wire.specs.{Faulting.GivesRead, Reply.{answer_of, Finds, frame_of, IsAtFront, IsFound, reply_by}};
ghost use Rattle.krs_wire.specs.Reply.{reply_frame, reply_front, reply_of, shape_of, status_fields, tagged, untagged};
ghost use Rattle.krs_wire.specs.Tag.{tag_size, tag_text};

use crate::WireFault;
use crate::fields::{ended, tag_at, u32_at};
use crate::room::make_room;
use byteorder::{ByteOrder, LittleEndian};
use krs_types::{Answer, Body, Errno, Op, Reply, Shape};
use std::alloc::{AllocError, Global};

/// The least and the greatest length of a reply's frame, which counts the bytes behind it. With a tag both are longer
/// by the tag.
const MIN_LENGTH: usize = 4;

const MAX_LENGTH: usize = 262_144;

/// How many bytes longer the tag makes a frame.
fn tag_length(is_tagged: bool) -> usize
    ensures { result ≡ tag_size is_tagged }
{
    if is_tagged { 8 } else { 0 }
}

/// The status and the tag, where there is one, behind their length with that of a body: so many bytes of these.
fn head_of(tag: Option<u64>, status: u32, body_length: u32) -> ([u8; 16], usize)
    requires { body_length ≤ 262140 }
    ensures head { take result.1 result.0 ≡ to_le_bytes w32 (4 + length (tag_text tag) + body_length)
        ++ (to_le_bytes w32 status ++ tag_text tag) }
    ensures size { result.1 ≤ 16 }
{
    let mut head = [0; 16];
    LittleEndian::write_u32(&mut head[4..], status);
    match tag {
        None => {
            LittleEndian::write_u32(&mut head, body_length + 4);
            (head, 8)
        }
        Some(tag) => {
            LittleEndian::write_u32(&mut head, body_length + 12);
            LittleEndian::write_u64(&mut head[8..], tag);
            (head, 16)
        }
    }
}

fn put_frame(
    out: &mut Vec<u8>,
    tag: Option<u64>,
    status: u32,
    body: &[u8],
) -> Result<(), AllocError>
    requires { length body.now ≤ 262140 }
    ensures ok { OnOk result (out.new.items ≡ out.old.items ++ frame_of tag status body.now) }
    ensures err { OnErr result (out.new.items ≡ out.old.items) }
{
    let (head, size) = head_of(tag, status, body.len() as u32);
    make_room(out, size + body.len())?;
    out.extend_from_slice(&head[..size])?;
    out.extend_from_slice(body)?;
    Ok(())
}

/// Appends the frame of a reply, in its ask's version: with the ask's tag, or with none.
pub fn append_reply(out: &mut Vec<u8>, tag: Option<u64>, reply: &Reply) -> Result<(), AllocError>
    ensures ok { OnOk result (out.new.items ≡ out.old.items ++ reply_frame tag reply.now) }
    ensures err { OnErr result (out.new.items ≡ out.old.items) }
{
    match reply {
        Ok(Answer::Nothing) => put_frame(out, tag, 0, &[]),
        Ok(Answer::Number(number)) => {
            let mut body = [0; 4];
            LittleEndian::write_u32(&mut body, *number);
            put_frame(out, tag, 0, &body)
        }
        Ok(Answer::Bytes(bytes)) => put_frame(out, tag, 0, bytes.as_slice()),
        Err(error) => put_frame(out, tag, error.number(), &[]),
    }
}

/// As `append_reply`, of a reply that is these bytes.
pub fn append_bytes(out: &mut Vec<u8>, tag: Option<u64>, bytes: &[u8]) -> Result<(), AllocError>
    requires { length bytes.now ≤ 262140 }
    ensures ok { OnOk result (out.new.items ≡ out.old.items ++ reply_frame tag (Ok (Bytes bytes.now))) }
    ensures err { OnErr result (out.new.items ≡ out.old.items) }
{
    put_frame(out, tag, 0, bytes)
}

/// The frame of a reply in version 1.
/// No program calls it; tests do.
pub fn encode_reply(alloc: Global, reply: &Reply) -> Result<Vec<u8>, WireFault>
    ensures frame { IfOk result (λ v. v.items ≡ reply_frame None reply.now) }
    ensures memory { IfErr result (λ fault. fault ≡ WireFault.Memory) }
{
    let mut out = Vec::new(alloc);
    append_reply(&mut out, None, reply)?;
    Ok(out)
}

/// The frame of a reply in version 2, with its ask's tag.
/// No program calls it; tests do.
pub fn encode_reply2(alloc: Global, reply: &Reply, tag: u64) -> Result<Vec<u8>, WireFault>
    ensures frame { IfOk result (λ v. v.items ≡ reply_frame (Some tag) reply.now) }
    ensures memory { IfErr result (λ fault. fault ≡ WireFault.Memory) }
{
    let mut out = Vec::new(alloc);
    append_reply(&mut out, Some(tag), reply)?;
    Ok(out)
}

fn answer_at(alloc: Global, shape: Shape, body: &[u8]) -> Result<Reply, WireFault>
    requires { length body.now ≤ 262140 }
    ensures read { GivesRead (λ reply. reply) result (answer_of shape body.now) }
    ensures memory { result ≡ Err WireFault.Memory → IsOk (answer_of shape body.now) }
{
    match shape {
        Shape::Nothing => ended(Ok(Answer::Nothing), body),
        Shape::Number => {
            let (number, rest) = u32_at(body)?;
            ended(Ok(Answer::Number(number)), rest)
        }
        Shape::Bytes => {
            let bytes = Vec::from_slice(alloc, body)?;
            Ok(Ok(Answer::Bytes(Body::new(bytes))))
        }
    }
}

/// What a status and a body say.
fn reply_at(alloc: Global, shape: Shape, status: u32, body: &[u8]) -> Result<Reply, WireFault>
    requires { length body.now ≤ 262140 }
    ensures read { GivesRead (λ reply. reply) result (reply_of shape status body.now) }
    ensures memory { result ≡ Err WireFault.Memory → IsOk (reply_of shape status body.now) }
{
    if status == 0 {
        return answer_at(alloc, shape, body);
    }
    match Errno::from_number(status) {
        None => Err(WireFault::BadBody),
        Some(error) => ended(Err(error), body),
    }
}

/// What a whole reply says behind its length, and its tag.
fn tagged_at(
    alloc: Global,
    shape: Shape,
    is_tagged: bool,
    frame: &[u8],
) -> Result<(Reply, Option<u64>), WireFault>
    requires { length frame.now ≤ 262144 + tag_size is_tagged }
    ensures read { GivesRead (λ said. said) result
        (reply_by shape ((status_fields is_tagged).read frame.now)) }
    ensures memory { result ≡ Err WireFault.Memory
        → IsOk (reply_by shape ((status_fields is_tagged).read frame.now)) }
{
    let (status, more) = u32_at(frame)?;
    let Some((tag, body)) = tag_at(is_tagged, more) else {
        return Err(WireFault::BadBody);
    };
    let reply = reply_at(alloc, shape, status, body)?;
    Ok((reply, tag))
}

/// The reply at the front of the bytes, with its tag where frames have one, and how many bytes it takes.
#[tactic(auto, unfolding(crate::specs::Reply::reply_in))]
fn front_reply(
    alloc: Global,
    op: &Op,
    is_tagged: bool,
    bytes: &[u8],
) -> Result<Option<(Reply, Option<u64>, usize)>, WireFault>
    ensures read { GivesRead (λ found. found) result (reply_front is_tagged (shape_of op.now) bytes.now) }
    ensures memory { result ≡ Err WireFault.Memory
        → IsFound (reply_front is_tagged (shape_of op.now) bytes.now) }
{
    if bytes.len() < 4 {
        return Ok(None);
    }
    let (len, rest) = u32_at(bytes)?;
    let len = len as usize;
    let more = tag_length(is_tagged);
    if len < MIN_LENGTH + more || len > MAX_LENGTH + more {
        return Err(WireFault::BadLength);
    }
    if rest.len() < len {
        return Ok(None);
    }
    let (frame, _) = rest.split_at(len);
    let (reply, tag) = tagged_at(alloc, Shape::of(op), is_tagged, frame)?;
    Ok(Some((reply, tag, len + 4)))
}

/// The reply of version 1 at the front of the bytes to an ask of this operation, and how many bytes it takes. None
/// where it is not whole and its length, where it is there, is good.
/// No program calls it; tests do.
pub fn decode_reply(
    alloc: Global,
    op: &Op,
    bytes: &[u8],
) -> Result<Option<(Reply, usize)>, WireFault>
    ensures exact { GivesRead (λ o. option_map untagged o) result
        (reply_front false (shape_of op.now) bytes.now) }

    // Memory can run out only for a reply that stands there whole, so that each other fault is told.
    ensures memory { result ≡ Err WireFault.Memory → IsFound (reply_front false (shape_of op.now) bytes.now) }

    // What is found is encoded so.
    ensures found { IfOk result (λ o. IfSome o (λ x. IsAtFront (shape_of op.now) bytes.now (untagged x))) }

    // What is encoded so is found, whatever follows it.
    ensures only { Finds false (shape_of op.now) bytes.now untagged result }
{
    match front_reply(alloc, op, false, bytes) {
        Ok(Some((reply, _tag, size))) => Ok(Some((reply, size))),
        Ok(None) => Ok(None),
        Err(fault) => Err(fault),
    }
}

/// The reply of version 2 at the front of the bytes to an ask of this operation, its tag, and how many bytes it takes.
/// None where it is not whole and its length, where it is there, is good.
pub fn decode_reply2(
    alloc: Global,
    op: &Op,
    bytes: &[u8],
) -> Result<Option<(Reply, u64, usize)>, WireFault>
    ensures exact { GivesRead (λ o. option_map tagged o) result
        (reply_front true (shape_of op.now) bytes.now) }

    // Memory can run out only for a reply that stands there whole, so that each other fault is told.
    ensures memory { result ≡ Err WireFault.Memory → IsFound (reply_front true (shape_of op.now) bytes.now) }

    // What is found is encoded so.
    ensures found { IfOk result (λ o. IfSome o (λ x. IsAtFront (shape_of op.now) bytes.now (tagged x))) }

    // What is encoded so is found, whatever follows it.
    ensures only { Finds true (shape_of op.now) bytes.now tagged result }
{
    match front_reply(alloc, op, true, bytes) {
        Ok(Some((reply, tag, size))) => match tag {
            Some(tag) => Ok(Some((reply, tag, size))),
            None => unreachable!(),
        },
        Ok(None) => Ok(None),
        Err(fault) => Err(fault),
    }
}
