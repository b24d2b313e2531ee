//! The client of a key store: a script of commands over a store of its own or over a connection, a single command over
//! a connection, and the program that runs one of them.
//! A contract sees a line as a list of bytes, and a reader and a writer by the bytes that they tell.
#![tactic(auto)]

mod advice;
mod choice;
mod connecting;
mod laws;
mod place;
mod program;
mod script;
mod watched;

pub use krs_remote::run_remote;
pub use krs_words::Voice;
pub use laws::listed_keys;
pub use place::{Connects, SystemSockets};
pub use program::run_program;
pub use script::{ScriptEnd, run_script};
