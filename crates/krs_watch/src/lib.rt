//! The queues of a store, what they watch, and what is posted to them.
#![tactic(auto)]

mod ids;
mod laws;
mod memory;
mod posting;
mod queue;
mod queues;
mod watches;

pub use ids::watch_id;
pub use laws::{
    notes_reach_their_watchers, posts_reach_their_queues, reads_take_the_longest_front,
};
pub use memory::{KEEP_NOTHING, Memory};
pub use queues::WatchQueues;
