//! The key store for one thread: every ask, served in the order of its refusals. A contract sees a `Store` as the
//! state of the definitions in `krs_model`.
#![tactic(auto)]

mod serving;
mod store;
mod telling;
mod told;
mod watching;

pub use krs_key_asks::Taker;
pub use krs_links::Seed;
pub use krs_tables::KEEP_NOTHING;
pub use store::Store;
pub use told::Told;
