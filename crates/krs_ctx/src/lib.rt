//! Contexts, their processes and their uids, and the keyrings that these anchor: keyrings(7), "Anchoring keys". A
//! contract sees `Contexts` as three finite maps and the next context's number, and tells of an ask by what it is in
//! every store that has them.
#![tactic(auto)]

mod contexts;
mod entering;
mod leaving;
mod listed;
mod maps;
mod members;
mod table;

pub use contexts::Contexts;
