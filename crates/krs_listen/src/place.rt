//! What comes to the place where a daemon listens. Of the system's sockets this file alone accepts connections.
ghost use Rattle.std.specs.Prelude.{IfOk};

use std::io;
use std::os::unix::net::{UnixListener, UnixStream};

/// What streams come from. What accepts one is proved for all of these, so that it can't read from it, write to it, or
/// take it for another.
pub trait Listens<S> {
    // This came from it. Of a socket that isn't known.
    ghost came: { Self → S → Type 0 };

    // The second is the same connection as the first.
    ghost same: { S → S → Type 0 };

    fn accept(&self) -> io::Result<S>
        ensures { IfOk result (came self.now) };

    /// The same connection, by a descriptor of its own.
    fn second(&self, stream: &S) -> io::Result<S>
        ensures { IfOk result (same stream.now) };
}

impl Listens<UnixStream> for UnixListener {
    ghost came = { λ _ _. Unit {0} };

    ghost same = { λ _ _. Unit {0} };

    fn accept(&self) -> io::Result<UnixStream> {
        let (stream, _) = UnixListener::accept(self)?;
        Ok(stream)
    }

    fn second(&self, stream: &UnixStream) -> io::Result<UnixStream> {
        stream.try_clone()
    }
}
