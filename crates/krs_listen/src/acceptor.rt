ghost use Rattle.std.specs.Prelude.{◌+◌, ◌<◌, ◌↔◌, ◌≡◌, IfNone, IfOk, IfSome, if◌then◌else◌, IsTrue};
ghost use Rattle.std.specs.{Duration.as_nanos, IoError.raw_os_error};
ghost use Rattle.krs_listen.specs.Accepting.{accepted_by, AreEndsFrom, failed_at, is_passing};

use crate::Listens;
use std::io;
use std::marker::PhantomData;
use std::sync::Wait;
use std::time::{Clock, Duration};

/// What connections hold while they are served.
pub trait AwaitsEnd<R> {
    /// Waits until a connection has ended, but no longer than that. The answer is whether one is still served.
    fn await_end(&self, rt: &R, longest: Duration) -> bool;
}

/// How the accepting of connections ended.
#[derive(Clone, Copy, Debug, PartialEq, Eq)]
pub enum Accepted {
    /// As many as were asked for were accepted.
    All,
    /// An accept failed.
    Failed,
}

/// What an acceptor counted.
#[derive(Clone, Copy, Debug, PartialEq, Eq)]
pub struct Accepts {
    pub accepted: u64,
    pub failures: u64,
}

/// How many milliseconds an accept that failed for a cause that passes waits for the end of a connection.
const PAUSE: u64 = 100;

/// How often such an accept is tried while no connection is served, whose end could help it: for ten seconds.
const TRIES: u32 = 100;

/// Whether an accept failed for a cause that passes: a lack of descriptors or of memory, of this process or of the
/// system's, or a client that is gone. accept(2), "ERRORS".
fn passes(error: &io::Error) -> bool
    ensures { result ≡ is_passing (raw_os_error error.now) }
{
    matches!(error.raw_os_error(), Some(11 | 12 | 23 | 24 | 103 | 105))
}

/// Whether an accept that failed so is made again, before which so many in a row failed while no connection was served.
fn is_tried_again(error: &io::Error, idle: u32) -> bool
    ensures { IsTrue result ↔ (IsTrue (is_passing (raw_os_error error.now)) × (idle < 100)) }
{
    passes(error) && idle < TRIES
}

/// How many failed in a row while no connection was served, once another has failed.
fn idle_after(idle: u32, is_serving: bool) -> u32
    requires { idle < u32.MAX }
    ensures { result ≡ (if is_serving then 0 else idle + 1) }
{
    if is_serving { 0 } else { idle + 1 }
}

/// How long it waits before it is made again, unless a connection ends.
fn pause() -> Duration
    ensures { as_nanos result ≡ 100_000_000 }
{
    Duration::from_millis(PAUSE)
}

/// Over what listens, until it is dropped. An accept that fails for a cause that passes is tried again when a
/// connection has ended, or after a while, as long as any connection is served and for some seconds more.
#[derive(Drop)]
pub struct StreamAcceptor<L, S> {
    listener: L,
    accepted: u64,
    failures: u64,
    cause: io::Error,
    streams: PhantomData<S>,
}

impl<L: Listens<S>, S: Drop> StreamAcceptor<L, S> {
    pub fn new(listener: L) -> StreamAcceptor<L, S>
        ensures accepted { accepted_by result ≡ 0 }
        ensures failures { failed_at result ≡ 0 }
    {
        StreamAcceptor {
            listener,
            accepted: 0,
            failures: 0,
            cause: io::Error::other("no accept has failed"),
            streams: PhantomData,
        }
    }

    /// The ends of the next connection, one to read from it and one to write to it, or none where an accept failed for
    /// good. The connection is closed with the last of them.
    pub fn accept<R: Wait + Clock, F: AwaitsEnd<R>>(&mut self, rt: &R, served: &F) -> Option<(S, S)>
        requires accepted { accepted_by self.old < u64.MAX }
        requires failures { failed_at self.old < u64.MAX }
        ensures ends { IfSome result (AreEndsFrom L.came L.same self.new) }
        ensures one { IfSome result (λ _. accepted_by self.new ≡ accepted_by self.old + 1) }
        ensures good { IfSome result (λ _. failed_at self.new ≡ failed_at self.old) }
        ensures none { IfNone result (accepted_by self.new ≡ accepted_by self.old) }
        ensures failed { IfNone result (failed_at self.new ≡ failed_at self.old + 1) }
    {
        match self.next(rt, served) {
            Ok(ends) => {
                self.accepted += 1;
                Some(ends)
            }
            Err(cause) => {
                self.failures += 1;
                self.cause = cause;
                None
            }
        }
    }

    /// Why the last accept that failed did so.
    pub fn cause(&self) -> io::Error
        ensures { result ≡ self.now.cause }
    {
        self.cause
    }

    /// Closes the socket, so that whoever connects is refused, and gives what was counted.
    pub fn close(self) -> Accepts
    where
        L: Drop,
        ensures accepted { result.accepted ≡ accepted_by self }
        ensures failures { result.failures ≡ failed_at self }
    {
        Accepts {
            accepted: self.accepted,
            failures: self.failures,
        }
    }

    /// The next connection, waited for through failures that pass.
    fn next<R: Wait + Clock, F: AwaitsEnd<R>>(&self, rt: &R, served: &F) -> io::Result<(S, S)>
        ensures { IfOk result (AreEndsFrom L.came L.same self.now) }
    {
        let mut idle = 0;
        for _ in rt.forever() {
            match self.listener.accept() {
                Ok(stream) => return self.in_two(rt, served, stream),
                Err(error) if is_tried_again(&error, idle) => {
                    idle = idle_after(idle, served.await_end(rt, pause()));
                }
                Err(error) => return Err(error),
            }
        }
        unreachable!()
    }

    /// The ends of a stream. Where no descriptor is free for the second, that is waited for as for a connection.
    fn in_two<R: Wait + Clock, F: AwaitsEnd<R>>(
        &self,
        rt: &R,
        served: &F,
        stream: S,
    ) -> io::Result<(S, S)>
        requires { L.came self.now.listener stream }
        ensures { IfOk result (AreEndsFrom L.came L.same self.now) }
    {
        let mut idle = 0;
        for _ in rt.forever() {
            match self.listener.second(&stream) {
                Ok(other) => return Ok((stream, other)),
                Err(error) if is_tried_again(&error, idle) => {
                    idle = idle_after(idle, served.await_end(rt, pause()));
                }
                Err(error) => return Err(error),
            }
        }
        unreachable!()
    }
}
