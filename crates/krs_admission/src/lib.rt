//! Which session a process comes into that asks for keys, from what the kernel tells of it. It allocates nothing.
#![tactic(auto)]

mod admitting;
mod facts;
mod giving;
mod whose;

pub use admitting::{Place, admit, keeps, knows_again};
pub use facts::{Arrival, Ids, Process, Session};
pub use giving::{Parent, may_be_given};
pub use whose::{asks_as, begins_alone, stays};
