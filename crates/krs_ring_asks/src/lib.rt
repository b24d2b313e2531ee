//! The asks on keyrings, one function each, whose contract is its row: links, searches, and what they find.
#![tactic(auto)]

mod finding;
mod getting;
mod invalidating;
mod linking;
mod moving;
mod restricting;

pub use finding::{request, search};
pub use getting::get_id;
pub use invalidating::invalidate;
pub use linking::{clear, link, unlink};
pub use moving::move_link;
pub use restricting::restrict_keyring;
