//! A script, whatever carries its commands out: the loop over its lines, how what is printed waits for the next line,
//! how keys and queues are listed, how a script ends, and what is told of one that stopped.
#![tactic(auto)]

mod carries;
mod ending;
mod hint;
mod listed;
mod reading;
mod running;
mod telling;
mod waiting;

pub use carries::Carries;
pub use ending::{NO_CONNECTION, OUT_OF_MEMORY, USAGE, finish, say};
pub use listed::{listing, records};
pub use reading::Place;
pub use running::run_by;
pub use telling::{no_command, push_quoted, tell};
