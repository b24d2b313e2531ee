//! What a thread knows of the one history.
ghost use Rattle.std.specs.Prelude.{◌≡◌, None, true};
ghost use Rattle.krs_desk.specs.{Keeping.IsPlaced, Seated.{HasSlot, sitting_of}};

use crate::token::Token;
use std::marker::Model;

/// A client's place at the desk that made it. It may be sent to another thread. A contract sees which desk it is of,
/// the state of the store that the desk was opened with, and what it knows of the history: the events that it has seen,
/// its own calls, the one that is in flight, how often it found the turn taken, and how many calls it has served in the
/// turn that it keeps.
pub struct Seat {
    pub(crate) lane: u32,
    // Whether no call is in flight: then the lane's slot is this seat's.
    pub(crate) idle: bool,
    // How many calls it has served in the turn that it keeps: 0 where it has none.
    pub(crate) served: u32,
    pub(crate) token: Token,
}

impl Model for Seat {
    ghost use Rattle.krs_desk.specs.Sitting.{Sitting};

    ghost Value = { Sitting };

    ghost use Rattle.krs_desk.specs.{Keeping.IsPlaced, Seated.{HasSlot, sitting_of}};

    ghost view = { λ s. sitting_of s.token.table_id s.served s.token.me };

    ghost invariant = { λ s. IsPlaced s.lane s.idle s.served s.token.me × HasSlot s.lane s.token.table_id };
}

// By hand, as the desk's.
impl Drop for Seat {
    fn drop(self) {
        let Self {
            lane: _,
            idle: _,
            served: _,
            token: _,
        } = self;
    }
}

impl Seat {
    // The lane, whether it is idle, how many calls its turn has served, and the token of a seat that is given up.
    pub(crate) fn into_parts(self) -> (u32, bool, u32, Token)
        ensures sitting { sitting_of result.3.table_id result.2 result.3.me ≡ self }
        ensures placed { IsPlaced result.0 result.1 result.2 result.3.me × HasSlot result.0 result.3.table_id }
    {
        let Self {
            lane,
            idle,
            served,
            token,
        } = self;
        (lane, idle, served, token)
    }

    /// The number of the seat at its desk. The store knows it as the client's number.
    pub fn lane(&self) -> u32
        ensures { result ≡ self.now.part.lane }
    {
        self.lane
    }

    /// Whether no call of this seat is in flight: none was posted whose reply was not collected.
    pub fn is_idle(&self) -> bool
        ensures idle { result ≡ true → self.now.part.flight ≡ None }
        ensures busy { self.now.part.flight ≡ None → result ≡ true }
    {
        self.idle
    }
}
