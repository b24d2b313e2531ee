//! What users of a daemon behind the guard are told and may change, in the words of krs_model and of krs_screen, and
//! of the seats of its desk.
#![tactic(auto)]

mod guarded;

pub use guarded::{
    no_peer_acts_as_another, no_peer_changes_anothers_keys, no_peer_of_a_desk_reads_anothers_keys,
    no_peer_reads_anothers_keys,
};
