//! One ask over a connection, and its reply, in frames of version 2.

ghost use Rattle.std.specs.Prelude.{◌++◌, ◌+◌, ◌<◌, ◌≡◌, ◌≤◌, ◌⊎◌, All, drop, Err, false, IfErr, IfOk, IsOk, length};
ghost use Rattle.std.specs.Prelude.{OnOk, Result, Some, take, true, vec_len};
ghost use Rattle.std.specs.{Int.{from_le_bytes, w32}, Io.KnownBytes.{Appends, Consumes}};
ghost use Rattle.krs_types.specs.declared.{ask.Answer.Answer, errno.Errno.Errno};
ghost use Rattle.krs_wire.specs.Encoding.{ask_frame, ask_text};
ghost use Rattle.krs_wire.specs.Reply.{HasShape, is_bad_reply_length, IsFound, reply_frame, reply_front, shape_of};
ghost use Rattle.krs_remote.specs.Talking.{cause_of, Exchanges, FollowsHead, GivesReply, GivesUp, IsReply, NotSent};

use krs_types::{Ask, Blob, Op, Reply};
use krs_wire::{WireFault, decode_reply2, encode_ask2};
use krs_words::{Stop, write_text};
use std::alloc::Global;
use std::io::{Read, Write};

/// Sends an ask with this tag, and waits for its reply.
pub fn ask_and_reply<F: Read, T: Write>(
    alloc: Global,
    from: &mut F,
    to: &mut T,
    ask: &Ask,
    tag: u64,
) -> Result<Reply, Stop>
    ensures ok { IfOk result (Exchanges (T.contents to.old)
        (F.remaining from.old) tag ask.now (T.contents to.new)
        (F.remaining from.new)) }
    ensures err { IfErr result (GivesUp (T.contents to.old)
        (F.remaining from.old) tag ask.now (T.contents to.new)
        (F.remaining from.new)) }
{
    send(alloc, to, ask, tag)?;
    receive(alloc, from, &ask.op, tag)
}

/// Sends an ask. It is usage where no frame is long enough for it.
pub fn send<T: Write>(alloc: Global, to: &mut T, ask: &Ask, tag: u64) -> Result<(), Stop>
    ensures ok { OnOk result (Appends (T.contents to.old) (T.contents to.new) (ask_frame (Some tag) ask.now)) }
    ensures err { IfErr result (NotSent (T.contents to.old) tag ask.now (T.contents to.new)) }
{
    let frame = Blob::new(frame_of(alloc, ask, tag)?);
    match write_text(to, frame.as_slice()) {
        Ok(()) => Ok(()),
        Err(_) => Err(Stop::Connection),
    }
}

/// The frame of an ask.
fn frame_of(alloc: Global, ask: &Ask, tag: u64) -> Result<Vec<u8>, Stop>
    ensures frame { IfOk result (λ v. v.items ≡ ask_frame (Some tag) ask.now) }
    ensures causes { IfErr result (λ stop. (stop ≡ Stop.Memory)
        ⊎ ((stop ≡ Stop.Usage) × (65536 < length (ask_text (Some tag) ask.now)))) }
    ensures usage { 65536 < length (ask_text (Some tag) ask.now) → result ≡ Err Stop.Usage }
{
    match encode_ask2(alloc, ask, tag) {
        Ok(frame) => Ok(frame),
        Err(WireFault::Memory) => Err(Stop::Memory),
        Err(_) => Err(Stop::Usage),
    }
}

/// Reads the reply to an ask of this operation with this tag, and nothing behind it. A reply with another tag ends the
/// connection. What was read is all zeros when its memory is given back.
pub fn receive<F: Read>(alloc: Global, from: &mut F, op: &Op, tag: u64) -> Result<Reply, Stop>
    ensures ok { IfOk result (GivesReply (F.remaining from.old) (F.remaining from.new) (shape_of op.now) tag) }
    ensures causes { IfErr result (λ stop. (stop ≡ Stop.Memory) ⊎ (stop ≡ Stop.Connection)) }
{
    let mut head = [0; 4];
    fill(from, &mut head)?;
    let mut frame = announced(alloc, op, &head)?;
    let reply = taken(alloc, from, op, tag, &mut frame);
    give_back(frame);
    reply
}

/// Gives memory back that is all zeros.
fn give_back(frame: Vec<u8>)
    requires { All (λ b. b ≡ 0) frame.items }
{
    drop(frame);
}

/// The reply whose frame begins with these four bytes. It is read to where there is room for it, and then wiped.
fn taken<F: Read>(
    alloc: Global,
    from: &mut F,
    op: &Op,
    tag: u64,
    frame: &mut [u8],
) -> Result<Reply, Stop>
    requires { 4 ≤ length frame.old }
    ensures ok { IfOk result (FollowsHead (take 4 frame.old) (F.remaining from.old) (F.remaining from.new)
        (shape_of op.now) tag) }
    ensures causes { IfErr result (λ stop. (stop ≡ Stop.Memory) ⊎ (stop ≡ Stop.Connection)) }
    ensures wiped { All (λ b. b ≡ 0) frame.new }
{
    let reply = read_behind(alloc, from, op, tag, frame);
    frame.fill(0);
    reply
}

/// The same, which stays where it was read to.
fn read_behind<F: Read>(
    alloc: Global,
    from: &mut F,
    op: &Op,
    tag: u64,
    frame: &mut [u8],
) -> Result<Reply, Stop>
    requires { 4 ≤ length frame.old }
    ensures ok { IfOk result (FollowsHead (take 4 frame.old) (F.remaining from.old) (F.remaining from.new)
        (shape_of op.now) tag) }
    ensures causes { IfErr result (λ stop. (stop ≡ Stop.Memory) ⊎ (stop ≡ Stop.Connection)) }
{
    fill_behind(from, frame)?;
    whole_reply(alloc, op, tag, frame)
}

/// Reads what follows the first four bytes.
fn fill_behind<F: Read>(from: &mut F, frame: &mut [u8]) -> Result<(), Stop>
    requires { 4 ≤ length frame.old }
    ensures ok { OnOk result (Consumes (F.remaining from.old) (F.remaining from.new) (drop 4 frame.new)) }
    ensures head { OnOk result (take 4 frame.new ≡ take 4 frame.old) }
    ensures causes { IfErr result (λ stop. stop ≡ Stop.Connection) }
{
    fill(from, &mut frame[4..])
}

/// Reads as many bytes as there is room for.
fn fill<F: Read>(from: &mut F, room: &mut [u8]) -> Result<(), Stop>
    ensures ok { OnOk result (Consumes (F.remaining from.old)
        (F.remaining from.new) room.new) }
    ensures causes { IfErr result (λ stop. stop ≡ Stop.Connection) }
{
    match from.read_exact(room) {
        Ok(()) => Ok(()),
        Err(_) => Err(Stop::Connection),
    }
}

/// Room for the frame of a reply, which begins with its length. A length that no reply has ends the connection.
fn announced(alloc: Global, op: &Op, head: &[u8; 4]) -> Result<Vec<u8>, Stop>
    ensures room { IfOk result (λ room. vec_len room ≡ 4 + from_le_bytes w32 head.now) }
    ensures head { IfOk result (λ room. take 4 room.items ≡ head.now) }
    ensures causes { IfErr result (λ stop. (stop ≡ Stop.Memory) ⊎ (stop ≡ Stop.Connection)) }
    ensures bad { result ≡ Err Stop.Connection
        → is_bad_reply_length true (from_le_bytes w32 head.now) ≡ true }
    ensures good { IsOk result → is_bad_reply_length true (from_le_bytes w32 head.now) ≡ false }
{
    if let Err(fault) = decode_reply2(alloc, op, head) {
        return Err(stop_of(fault));
    }
    let mut room = Vec::from_slice(alloc, head)?;
    room.resize(u32::from_le_bytes(*head) as usize + 4, 0)?;
    Ok(room)
}

/// The reply whose frame these bytes are, with this tag. Only bytes that are no such frame end the connection.
fn whole_reply(alloc: Global, op: &Op, tag: u64, frame: &[u8]) -> Result<Reply, Stop>
    ensures ok { IfOk result (IsReply (shape_of op.now) tag frame.now) }
    ensures causes { IfErr result (λ stop. (stop ≡ Stop.Memory) ⊎ (stop ≡ Stop.Connection)) }
    ensures none { result ≡ Err Stop.Connection → (reply : Result Answer Errno)
        → ¬ IsReply (shape_of op.now) tag frame.now reply }
    ensures memory { result ≡ Err Stop.Memory → IsFound (reply_front true (shape_of op.now) frame.now) }
{
    match decode_reply2(alloc, op, frame) {
        Ok(Some((reply, found, length))) => {
            if found == tag && length == frame.len() {
                return Ok(reply);
            }
            Err(Stop::Connection)
        }
        Ok(None) => Err(Stop::Connection),
        Err(fault) => Err(stop_of(fault)),
    }
}

/// Why a script stops whose reply has this fault.
fn stop_of(fault: WireFault) -> Stop
    ensures { result ≡ cause_of fault }
{
    match fault {
        WireFault::Memory => Stop::Memory,
        _ => Stop::Connection,
    }
}
