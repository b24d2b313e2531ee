//! What may pass between a client whom the kernel has named and a daemon that believes its clients. It allocates
//! nothing.
#![tactic(auto)]

mod claim;
mod counting;
mod front;
mod laws;
mod numbers;
mod passing;
mod replying;

pub use claim::Peer;
pub use counting::Screen;
pub use front::Front;
pub use laws::{
    groups_count_for_hellos_alone, one_claim, one_front, one_name, one_numbering, one_queue,
    one_reading, one_run,
};
pub use passing::{Claim, ask, find_claim};
pub use replying::reply;
