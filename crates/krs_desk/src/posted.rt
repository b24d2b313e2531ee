//! A call that was posted, as whoever waits for its answer has it.
ghost use Rattle.std.specs.Prelude.{◌+◌, ◌<◌, ◌≡◌, ◌≢◌, false, IfNone, IfSome, IsSomeAnd, None, true};
ghost use Rattle.krs_desk.specs.{Helping.{AnswersWaiting, Called, StillWaits}, Sitting.IsIdleAt};

use crate::Awaits;
use crate::desk::Desk;
use crate::seat::Seat;
use krs_types::{Ask, Reply};

/// A seat with its call in flight, on which nothing can be asked, and the reply once there is one, which nobody is told
/// here. So it can be had by what may wait for ever, which meets every contract, whatever it asks or tells before.
#[derive(Drop)]
pub struct Posted<'s> {
    seat: &'s mut Seat,
    reply: &'s mut Option<Reply>,
}

impl Posted<'_> {
    /// The seat's lane.
    pub(crate) fn lane(&self, desk: &Desk) -> u32
        requires { self.now.seat.now.table ≡ desk.now }
        ensures { result + 1 < desk.now.words }
    {
        let _ = desk;
        let seat = &*self.seat;
        seat.lane
    }

    /// The reply, where the call was answered, or is answered in a turn that is free.
    fn collected(&mut self, desk: &Desk) -> Option<Reply>
        requires table { self.old.seat.now.table ≡ desk.now }
        requires in_flight { self.old.seat.now.part.flight ≢ None }
        ensures table { self.new.seat.now.table ≡ desk.now }
        ensures some { IfSome result (λ reply. AnswersWaiting desk.now self.old.seat.now reply self.new.seat.now) }
        ensures none { IfNone result (StillWaits desk.now self.old.seat.now self.new.seat.now) }
        ensures in_flight { IfNone result (self.new.seat.now.part.flight ≢ None) }
        ensures seat { self.new.seat.ghost_name ≡ self.old.seat.ghost_name }
        ensures reply { self.new.reply.ghost_name ≡ self.old.reply.ghost_name }
    {
        if let Some(reply) = desk.collect(self.seat) {
            return Some(reply);
        }
        let _helped = desk.help(self.seat);
        if let Some(reply) = desk.collect(self.seat) {
            return Some(reply);
        }
        None
    }

    /// Whether the call was answered, or is answered in a turn that is free. Then nothing is in flight, and nobody may
    /// look again: on a seat that is idle no clause would bind what is asked.
    pub(crate) fn look(&mut self, desk: &Desk) -> bool
        requires table { self.old.seat.now.table ≡ desk.now }
        requires in_flight { self.old.seat.now.part.flight ≢ None }
        ensures table { self.new.seat.now.table ≡ desk.now }
        ensures answered { result ≡ true → IsSomeAnd self.new.reply.now
            (λ reply. AnswersWaiting desk.now self.old.seat.now reply self.new.seat.now) }
        ensures waits { result ≡ false → StillWaits desk.now self.old.seat.now self.new.seat.now }
        ensures in_flight { result ≡ false → self.new.seat.now.part.flight ≢ None }
        ensures seat { self.new.seat.ghost_name ≡ self.old.seat.ghost_name }
        ensures reply { self.new.reply.ghost_name ≡ self.old.reply.ghost_name }
    {
        *self.reply = self.collected(desk);
        self.reply.is_some()
    }
}

impl Desk {
    // The reply to the seat's call, which is in flight.
    fn awaited<R: Awaits>(&self, rt: &R, seat: &mut Seat) -> Option<Reply>
        requires table { seat.old.table ≡ self.now }
        requires in_flight { seat.old.part.flight ≢ None }
        ensures { IsSomeAnd result (λ reply. AnswersWaiting self.now seat.old reply seat.new) }
    {
        let mut reply = None;
        let mut posted = Posted {
            seat,
            reply: &mut reply,
        };
        rt.await_reply(self, &mut posted);
        let Posted { seat: _, reply: _ } = posted;
        reply
    }

    // Posts a call, and helps or waits until it is answered.
    #[inline(never)]
    pub(crate) fn call_by_post<R: Awaits>(
        &self,
        rt: &R,
        seat: &mut Seat,
        moment: u64,
        ask: Ask,
    ) -> Reply
        requires idle { IsIdleAt self.now seat.old }
        ensures called { Called self.now false seat.old moment ask result seat.new }
    {
        self.post(seat, moment, ask);
        let Some(reply) = self.awaited(rt, seat) else {
            unreachable!()
        };
        reply
    }
}
