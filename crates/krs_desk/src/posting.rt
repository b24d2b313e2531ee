//! Calls that are posted, and collected once they are answered.
ghost use Rattle.std.specs.Prelude.{◌≡◌, ◌≢◌, IfNone, IfSome, None, true};
ghost use Rattle.krs_desk.specs.Sitting.{Collects, posted_by, rested};

use crate::desk::Desk;
use crate::seat::Seat;
use crate::slot::SlotValue;
use crate::steps::{self, Posts};
use crate::word::{ANSWERED, EMPTY, POSTED, cell_of};
use krs_types::{Ask, Reply};

impl Desk {
    /// Leaves a call to be answered in a turn of `call` or `help`.
    pub fn post(&self, seat: &mut Seat, moment: u64, ask: Ask)
        requires table { seat.old.table ≡ self.now }
        requires idle { seat.old.part.flight ≡ None }
        ensures { seat.new ≡ posted_by seat.old moment ask }
    {
        self.give_back(&mut seat.served, &mut seat.token);
        self.bells.begin_to_post();
        let table = &self.table;
        let cell = cell_of!(seat.lane);
        drop(table.exchange(&mut seat.token, cell, SlotValue::Asked(moment, ask)));
        table.store::<Posts>(&mut seat.token, cell, POSTED);
        seat.idle = false;
    }

    /// The reply to the call in flight, where it was answered.
    pub fn collect(&self, seat: &mut Seat) -> Option<Reply>
        requires table { seat.old.table ≡ self.now }
        ensures table { seat.new.table ≡ seat.old.table }
        ensures some { IfSome result (λ reply. Collects seat.old reply seat.new) }
        ensures none { IfNone result ((seat.new ≡ rested seat.old) × (seat.old.part.done ≢ true)) }
        ensures rested { seat.new.kept ≡ 0 }
    {
        self.give_back(&mut seat.served, &mut seat.token);
        let table = &self.table;
        let cell = cell_of!(seat.lane);
        if table.compare_exchange::<steps::Collects>(&mut seat.token, cell, ANSWERED, EMPTY)
            != ANSWERED
        {
            return None;
        }
        let SlotValue::Replied(reply) = table.exchange(&mut seat.token, cell, SlotValue::Empty)
        else {
            unreachable!()
        };
        seat.idle = true;
        Some(reply)
    }
}
