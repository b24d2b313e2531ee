//! One connection: asks in, replies out, and LEAVE last. docs/FORMAT.md, "A connection". The ends of the connection,
//! the clock and the desk are traits that tell what they gave, took and answered, so `run` says what a whole session
//! did.
//!
//! A session is here the conversation on one connection, as of any protocol. A user's session is another thing: the
//! processes that have one session keyring, as keyctl(1) has it.
#![tactic(auto)]

mod asking;
mod clock;
mod connection;
mod cutting;
mod desk;
mod ended;
mod gate;
mod keeper;
mod lack;
mod laws;
mod over;
mod replies;
mod session;
mod source_and_sink;
mod writing;

pub use clock::Clock;
pub use ended::Ended;
pub use gate::{Gate, Point};
pub use keeper::Keeper;
pub use laws::{
    a_seat_gains_its_calls, a_session_is_its_asks_and_leave, a_session_tells_by_its_reads_alone,
};
pub use over::Over;
pub use replies::Replies;
pub use session::run;
pub use source_and_sink::{Failed, Sink, Source};
