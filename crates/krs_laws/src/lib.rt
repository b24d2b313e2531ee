//! Laws of histories of a store, in the words of krs_model. The functions here have no body to speak of: their
//! contracts are the laws.
#![tactic(auto)]

mod emptied;
mod expired;
mod going;
mod integrity;
mod limits;
mod marks;
mod noting;
mod overwritten;

pub use emptied::nothing_is_left_when_all_have_left;
pub use expired::expired_keys_stay_unread;
pub use going::{attachments_change_by_right, queues_and_watches_end_by_right};
pub use integrity::each_change_is_by_right;
pub use limits::limits_hold_in_every_history;
pub use marks::{quiet_asks_have_no_note, short_asks_drop_one_key_at_most};
pub use noting::{
    notes_are_by_right, queues_are_their_clients, queues_are_their_owners,
    records_are_called_for_by_watches, watches_are_set_by_right,
};
pub use overwritten::{adds_forget_what_they_overwrite, updates_forget_what_they_overwrite};
