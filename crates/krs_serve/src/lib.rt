//! The daemon: connections, each in a thread of its own, on the seats of one desk.
#![tactic(auto)]

mod acceptor;
mod apart;
mod clock;
mod connection;
mod daemon;
mod entry;
mod gate;
mod listening;
mod meeting;
mod paths;
mod sessions;
mod sockets;

pub use acceptor::Acceptor;
pub use clock::SystemClock;
pub use connection::{Arrival, AtDesk, Guest, Sitting, StreamSitting, serve_connection};
pub use daemon::run_daemon;
pub use entry::{Entry, Gone, serve_entry};
pub use gate::OpenGate;
pub use krs_listen::{Latest, Voice, Voices};
pub use paths::Paths;
pub use sessions::{run_sessions, serve_sessions};
pub use sockets::SystemPaths;
