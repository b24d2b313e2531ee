//! The links of one keyring, in link order: each is a name and the serial that is linked under it.
//!
//! A contract sees a `Links` as the list of its names and serials. No two of the names are equal, and there are 65535
//! links at most.
#![tactic(auto)]

mod hashed;
mod index;
mod links;
mod lists;
mod seed;
mod table;

pub use hashed::{HashedName, NameHasher};
pub use links::Links;
pub use seed::Seed;
