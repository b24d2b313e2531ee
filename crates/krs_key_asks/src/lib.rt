//! The asks on keys, one function each, whose contract is its row: a key is added, updated, given away, revoked, read.
#![tactic(auto)]

mod adding;
mod changing;
mod reading;
mod taking;

pub use adding::add;
pub use changing::{chown, revoke, set_perm, set_timeout, update};
pub use reading::{describe, read, read_into};
pub use taking::{Given, Taker};
