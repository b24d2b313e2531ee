//! What a daemon has before it serves: its words, what it says, its clock, what connections come from, and what is free
//! for them.
#![tactic(auto)]

mod acceptor;
mod choice;
mod clock;
mod free;
mod free_list;
mod options;
mod place;
mod saying;
mod telling;
mod timeline;

pub use acceptor::{Accepted, Accepts, AwaitsEnd, StreamAcceptor};
pub use choice::{Choice, choose};
pub use clock::{DaemonClock, Latest};
pub use free::FreeSeats;
pub use options::Options;
pub use place::Listens;
pub use saying::{Lines, NOT_ACCEPTED, NOT_BOUND, OUT_OF_MEMORY, USAGE, Voice, Voices};
pub use telling::{NOT_TEXT, tell_accepted, tell_cause};
pub use timeline::Timeline;
