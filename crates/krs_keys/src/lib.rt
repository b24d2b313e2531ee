//! Keys by serial. A contract sees a `KeyTable` as a finite map from serials to keys, and the serial that comes next.
#![tactic(auto)]

mod hints;
mod key;
mod key_set;
mod key_table;
mod linkers;
mod placed;
mod places;
mod sessions;
mod slots;

pub use key::{Change, Content, Key};
pub use key_set::KeySet;
pub use key_table::{KeyTable, LAST_SERIAL};
pub use linkers::LinkHint;
