//! The token of a seat: its right to make steps on the table, and what it knows.
use crate::slot::SlotValue;
use krs_world::View;

/// What a token knows, for clauses alone. While the seats are dealt, the slot of a new seat's lane still lies on the
/// table: then it is laid.
pub struct Sight {
    pub view: View,
    pub laid: bool,
}

pub type Token = atomic_table::Seat<SlotValue, Sight>;
