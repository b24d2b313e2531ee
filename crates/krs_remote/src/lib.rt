//! A client over a connection: a script of commands, or a single one. Each ask goes out as its frame of version 2, with
//! the tags 1, 2, 3 and so on, and the reply with that tag is read before the next one. A contract sees the two ends of
//! the connection by the bytes that they tell, so it says what is asked of a peer that may answer anything, and what is
//! printed for what it answers.
#![tactic(auto)]

mod asking;
mod call;
mod remote;
mod script;

pub use asking::{ask_and_reply, receive, send};
pub use call::{call_command, run_call};
pub use script::{run_remote, run_remote_at};
