//! The words of the table, and what they say.

/// The word of the turn, and the slot of the store that is at home.
pub(crate) const TURN: usize = 0;

/// Nobody has the turn.
pub(crate) const FREE: u64 = 0;

/// A seat has it.
pub(crate) const OUT: u64 = 1;

/// The desk is not yet open: its seats are still dealt.
pub(crate) const DEALING: u64 = 2;

/// No call is in the lane's cell.
pub(crate) const EMPTY: u64 = 0;

/// A call is, and nobody serves it.
pub(crate) const POSTED: u64 = 1;

/// Whoever has the turn serves it.
pub(crate) const SERVING: u64 = 2;

/// Its reply is there.
pub(crate) const ANSWERED: u64 = 3;

/// The word of a lane's cell, and the slot of its ask or reply. It is a macro, so that a proof sees the sum.
macro_rules! cell_of {
    ($lane:expr) => {
        $lane as usize + 1
    };
}

pub(crate) use cell_of;
