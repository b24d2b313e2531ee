//! All that a key store has: keys, contexts, queues, the clock, and how many hold each key. Here are its look-ups, the
//! change of a key, the keyrings that asks make, and the sweep. The asks, in the crates above, reach its parts: whoever
//! writes one proves that keys, links and numbers of holders agree. A contract sees a `Tables` as the state of the
//! definitions in `krs_model`.
#![tactic(auto)]

mod apart;
mod holding;
mod made_keys;
mod making;
mod tables;

pub use holding::{check_room, hold_of, hold_twice, make_room};
pub use krs_watch::KEEP_NOTHING;
pub use making::Special;
pub use tables::Tables;
