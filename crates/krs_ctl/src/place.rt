//! Where a connection leads. `Net` is asked for here alone. What asks over a connection is proved for all that
//! connects, so it can't know that a socket shows nothing.
ghost use Rattle.std.specs.Prelude.{IfErr, IfOk, List, ℕ};

use std::io;
use std::io::{Read, Write};
use std::net::Net;
use std::os::unix::net::UnixStream;

/// What makes connections to paths, and closes them.
pub trait Connects {
    /// The end of a connection from which replies are read.
    type Reader: Read;

    /// The end to which asks are written.
    type Writer: Write;

    // From the first state to the second it was told once to connect, to this path, and made a connection with these
    // ends. Of the system that isn't known.
    ghost made: { Self → List ℕ → Self.Reader → Self.Writer → Self → Type 0 };

    // From the first to the second it was told once to connect, to this path, and made none.
    ghost failed: { Self → List ℕ → Self → Type 0 };

    // From the first to the second it closed a connection, whose ends were these by then.
    ghost closed: { Self → Self.Reader → Self.Writer → Self → Type 0 };

    fn connect(&mut self, path: &str) -> io::Result<(Self::Reader, Self::Writer)>
        ensures ok { IfOk result (λ ends. made self.old path.now ends.0 ends.1 self.new) }
        ensures err { IfErr result (λ _. failed self.old path.now self.new) };

    fn close(&mut self, from: Self::Reader, to: Self::Writer)
        ensures { closed self.old from to self.new };
}

/// The system's sockets.
#[derive(Drop)]
pub struct SystemSockets<'r, N> {
    net: &'r N,
}

impl<'r, N: Net> SystemSockets<'r, N> {
    pub fn new(net: &'r N) -> SystemSockets<'r, N> {
        SystemSockets { net }
    }
}

impl<'r, N: Net> Connects for SystemSockets<'r, N> {
    type Reader = UnixStream;

    type Writer = UnixStream;

    ghost made = { λ _ _ _ _ _. Unit {0} };

    ghost failed = { λ _ _ _. Unit {0} };

    ghost closed = { λ _ _ _ _. Unit {0} };

    fn connect(&mut self, path: &str) -> io::Result<(UnixStream, UnixStream)> {
        let stream = UnixStream::connect(self.net, path)?;
        let other = stream.try_clone()?;
        Ok((stream, other))
    }

    fn close(&mut self, from: UnixStream, to: UnixStream) {
        drop(from);
        drop(to);
    }
}
