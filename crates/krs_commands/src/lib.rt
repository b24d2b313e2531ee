//! The commands of a client: which one a line's words are, and what it asks of a store. A contract sees the words as
//! lists of bytes.
#![tactic(auto)]

mod args;
mod command;
mod contexts;
mod entry;
mod keyrings;
mod keys;
mod laws;
mod queues;
mod table;
mod usage;
mod words;

pub use command::{Command, parse};
pub use laws::each_command_has_its_word;
pub use usage::{Misfit, first_misfit, usage_of};
pub use words::is_command;
