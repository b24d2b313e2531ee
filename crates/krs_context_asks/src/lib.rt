//! The asks on contexts, one function each, whose contract is its row: they come, go, and join session keyrings.
#![tactic(auto)]

mod entering;
mod greeting;
mod joining;
mod leaving;

pub use entering::{exec, fork, thread};
pub use greeting::hello;
pub use joining::join;
pub use leaving::{exit, leave};
