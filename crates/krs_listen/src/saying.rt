ghost use Rattle.std.specs.Prelude.{◌≡◌, IfOk, string_bytes};
ghost use Rattle.krs_listen.specs.Daemon.{listening_line, served_line};

pub use krs_words::Voice;
use std::alloc::{AllocError, Global};

/// What is printed where words are none that the daemon takes.
pub const USAGE: &str = "usage\n";

/// What is printed where memory runs out before the daemon listens.
pub const OUT_OF_MEMORY: &str = "error 12 ENOMEM\n";

/// What is printed where the path can't be bound.
pub const NOT_BOUND: &str = "error: socket\n";

/// What is printed where a connection can't be accepted.
pub const NOT_ACCEPTED: &str = "error: accept\n";

/// Where a daemon prints, and where it tells what went wrong.
#[derive(Drop)]
pub struct Voices<W, E> {
    pub output: Voice<W>,
    pub errors: Voice<E>,
}

/// What a daemon says once clients can connect, and after its last connection. Both are made before it listens, so that
/// neither lacks memory.
#[derive(Drop)]
pub struct Lines {
    pub listening: String,
    pub served: String,
}

impl Lines {
    pub fn new(alloc: Global, path: &str, connections: u64) -> Result<Lines, AllocError>
        ensures listening { IfOk result (λ lines. string_bytes lines.listening ≡ listening_line path.now) }
        ensures served { IfOk result (λ lines. string_bytes lines.served ≡ served_line connections) }
    {
        Ok(Lines {
            listening: format!(in alloc; "listening {path}\n")?,
            served: format!(in alloc; "served {connections}\n")?,
        })
    }
}
