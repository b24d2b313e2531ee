//! The store comes back when all is over.
ghost use Rattle.std.specs.Prelude.{◌<◌, ◌≡◌, IfErr, IfOk};
ghost use Rattle.krs_desk.specs.Sitting.{EndsIn, missed_by};

use crate::desk::Desk;
use crate::seat::Seat;
use krs_store::Store;

/// The turn was taken and never given back. The store is given up, and the seat knows that it found the turn taken.
#[derive(Drop)]
pub struct Stopped {
    pub turn: u64,
    pub seat: Seat,
    pub ghost taken: { 0 < turn },
}

impl Desk {
    /// The store, where the turn stands free.
    pub fn close(self, seat: Seat) -> Result<Store, Stopped>
        requires table { seat.table ≡ self }
        ensures ended { IfOk result (λ store. EndsIn seat store) }
        ensures missed { IfErr result (λ stopped. stopped.seat ≡ missed_by seat) }
    {
        let (lane, idle, mut served, mut token) = seat.into_parts();
        self.give_back(&mut served, &mut token);
        match self.fetch(&mut token) {
            Ok(store) => Ok(store),
            Err(turn) => Err(Stopped {
                turn,
                seat: Seat {
                    lane,
                    idle,
                    served,
                    token,
                },
            }),
        }
    }
}
