//! What holds each key: how many links and attachments. A key that nothing holds any more goes at
//! the next sweep, and with it what only it held. keyrings(7), "Anchoring keys".
//!
//! A contract sees a `Holders` as a finite map from serials to numbers. What stays of a table whose
//! numbers are exact is a closed choice: each key that stays is attached, or linked by one that
//! stays, and none that goes is. Where no keyring reaches itself, that is what attachments reach.
#![tactic(auto)]

mod cascade;
mod counts;
mod holders;
mod told;

pub use holders::Holders;
pub use told::first_told;
