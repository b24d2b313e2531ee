// The writing end of a session.
ghost use Rattle.std.specs.Prelude.{[], ◌++◌, ◌+◌, ◌<◌, ◌≡◌, ◌≢◌, All, OnErr, OnOk, Some, true, vec_len};
ghost use Rattle.krs_wire.specs.Reply.{reply_frame};
ghost use Rattle.krs_session.specs.Serving.{MayServe, OnlyWrites, Pending, Stays, Wrote};
ghost use Rattle.krs_session.specs.Session.{TookFront};

use crate::connection::Connection;
use crate::{Ended, Failed, Keeper, Sink};
use krs_types::Reply;
use krs_wire::append_reply;

/// The replies that are held are written before the next ask from so many bytes on: docs/FORMAT.md, "A connection".
const FLUSH_SIZE: usize = 65_536;

/// So many bytes stand before the body of a reply at most.
const HEAD_SIZE: usize = 16;

/// Whether a reply with a body of so many bytes can be held behind those that are, with no write and no memory taken.
pub(crate) fn has_room(out: &Vec<u8>, body: usize) -> bool
    ensures { result ≡ true → vec_len out.now + 16 + body < 65536 }
{
    let size = out.len().saturating_add(HEAD_SIZE).saturating_add(body);
    size < FLUSH_SIZE && size <= out.capacity()
}

/// Writes all the bytes, or as many as the writer took before it failed. The seat rests.
fn write_all<H, W: Sink, S, D: Keeper<S, H>>(
    writer: &mut W,
    bytes: &[u8],
    _seat: &S,
) -> Result<(), Failed>
    requires rested { D.rested _seat.now }
    requires failures { W.failures writer.old < u64.MAX }
    ensures ok { OnOk result (W.took writer.old bytes.now writer.new) }
    ensures good { OnOk result (W.failures writer.new ≡ W.failures writer.old) }
    ensures err { OnErr result (TookFront (λ front. W.took writer.old front writer.new) bytes.now) }
    ensures failed { OnErr result (W.failures writer.new ≡ W.failures writer.old + 1) }
{
    let mut left = bytes;
    'left: while !left.is_empty() {
        match writer.write(left) {
            Err(failed) => return Err(failed),
            Ok(n) => {
                if n == 0 {
                    return Err(Failed);
                }
                let (_, after) = left.split_at(n);
                left = after;
            }
        }
    }
    Ok(())
}

/// Takes bytes out that are all zeros.
fn take_out(out: &mut Vec<u8>)
    requires { All (λ b. b ≡ 0) out.old.items }
    ensures { out.new.items ≡ [] }
{
    out.clear();
}

/// Wipes the replies that are held, after which none is.
#[inline]
pub(crate) fn forget(out: &mut Vec<u8>)
    ensures { out.new.items ≡ [] }
{
    out.fill(0);
    take_out(out);
}

impl<H, W: Sink, S, D: Keeper<S, H>, C, G> Connection<'_, H, W, S, D, C, G> {
    /// Writes the replies that are held, and wipes them. As that may block, the seat rests first. What stops the
    /// writing is the answer.
    pub(crate) fn flush(&mut self) -> Option<Ended>
        requires able { MayServe D.Keeper W.Sink self.old }
        ensures wrote { Wrote W.Sink self.old.writer.now self.new.writer.now self.old.held.now.out.bytes.items result }
        ensures not_memory { result ≢ Some Ended.Memory }
        ensures empty { self.new.held.now.out.bytes.items ≡ [] }
        ensures writes { OnlyWrites D.Keeper self.old self.new }
        ensures stays { Stays D.Keeper self.old self.new }
        ensures rested { D.rested self.new.seat.now }
    {
        self.setting.desk.rest(self.seat);
        let held = &mut *self.held;
        let written = write_all::<H, W, S, D>(self.writer, &held.out.bytes, self.seat);
        forget(&mut held.out.bytes);
        match written {
            Ok(()) => None,
            Err(_) => Some(Ended::Write),
        }
    }

    /// Holds a reply to an ask with this tag, or with none, and writes what is held once that is much. Where no memory
    /// is left for the reply, what was held before it is written. What stops the writing is the answer.
    pub(crate) fn send_reply(&mut self, tag: Option<u64>, reply: &Reply) -> Option<Ended>
        requires able { MayServe D.Keeper W.Sink self.old }
        ensures sent { Pending W.Sink self.old.writer.now self.new.writer.now self.new.held.now.out.bytes.items
            (self.old.held.now.out.bytes.items ++ reply_frame tag reply.now) result }
        ensures memory { result ≡ Some Ended.Memory
            → W.took self.old.writer.now self.old.held.now.out.bytes.items self.new.writer.now }
        ensures bounded { vec_len self.new.held.now.out.bytes < 65536 }
        ensures writes { OnlyWrites D.Keeper self.old self.new }
        ensures stays { Stays D.Keeper self.old self.new }
    {
        if append_reply(&mut self.held.out.bytes, tag, reply).is_err() {
            return match self.flush() {
                None => Some(Ended::Memory),
                Some(stop) => Some(stop),
            };
        }
        if self.held.out.bytes.len() < FLUSH_SIZE {
            return None;
        }
        self.flush()
    }
}
