//! The desk of many seats.
ghost use Rattle.krs_desk.specs.Sitting.{IsIdleAt};

use crate::{Keeper, Replies};
use krs_desk::{Awaits, Desk, Seat};
use krs_store::Told;
use krs_types::{Ask, Reply};

impl<R: Awaits> Keeper<Seat, R> for Desk {
    ghost use Rattle.std.specs.Prelude.{◌≡◌};
    ghost use Rattle.krs_session.specs.Calls.{MakesCalls, makes_both, makes_none};

    ghost ready = { IsIdleAt };

    ghost lane_of = { λ s. s.part.lane };

    // Each event is a call, at the seat that the one before it left.
    ghost leads = { MakesCalls };

    ghost rested = { λ s. s.kept ≡ 0 };

    fn lane(&self, seat: &Seat) -> u32 {
        seat.lane()
    }

    fn call(&self, rt: &R, seat: &mut Seat, moment: u64, ask: Ask) -> Reply {
        Desk::call(self, rt, seat, moment, ask)
    }

    fn call_into(
        &self,
        rt: &R,
        seat: &mut Seat,
        moment: u64,
        ask: Ask,
        more: bool,
        replies: &mut Replies,
    ) -> Told {
        Desk::call_into(self, rt, seat, moment, ask, more, replies)
    }

    fn rest(&self, seat: &mut Seat) {
        Desk::rest(self, seat);
    }

    fn is_short(&self) -> bool {
        Desk::is_short(self)
    }

    fn tell_lack(&self, told: &mut u64, lack: u64) {
        Desk::tell_lack(self, told, lack);
    }

    ghost starts = { makes_none };

    ghost joins = { makes_both };
}
