//! A call that waits until it is answered.
ghost use Rattle.std.specs.Prelude.{◌≡◌, false, IfErr, IfOk, None, OnErr};
ghost use Rattle.krs_model.specs.History.{event_of};
ghost use Rattle.krs_store.specs.Told.{bytes_of, reply_of};
ghost use Rattle.krs_desk.specs.{Helping.{Called, HasLooked}, Sitting.{Adds, IsIdleAt, KeepsTurn, missed_by}};

use crate::Awaits;
use crate::desk::Desk;
use crate::nobody::{Nobody, reply_in};
use crate::seat::Seat;
use crate::waiting::{FIRST_PAUSE, TRIES, TRIES_ALONE, pause};
use crate::word::FREE;
use krs_store::{Taker, Told};
use krs_types::{Ask, Reply};

impl Desk {
    // Asks the store where the turn is free, after it has answered each call that is posted, and keeps the turn where
    // more calls follow. The ask comes back where the turn is found taken.
    #[inline(always)]
    fn call_in_turn<T: Taker>(
        &self,
        seat: &mut Seat,
        moment: u64,
        ask: Ask,
        more: bool,
        taker: &mut T,
    ) -> Result<Told, Ask>
        requires idle { IsIdleAt self.now seat.old }
        requires rested { seat.old.kept ≡ 0 }
        ensures called { IfOk result (λ told. Called self.now more seat.old moment ask (reply_of told) seat.new) }
        ensures taken { IfOk result (λ told. T.took taker.old (bytes_of told) taker.new) }
        ensures missed { IfErr result (λ back. (back ≡ ask) × (seat.new ≡ missed_by seat.old)) }
        ensures untaken { OnErr result (taker.new ≡ taker.old) }
    {
        if self.take(&mut seat.token) != FREE {
            return Err(ask);
        }
        self.answer_posted(&mut seat.token, self.bells.is_any_posted());
        if self.may_keep(more, 0) {
            self.bells.begin_to_keep();
            let told = self.go_on(&mut seat.token, seat.lane, moment, ask, taker);
            seat.served = 1;
            return Ok(told);
        }
        Ok(self.finish(&mut seat.token, seat.lane, moment, ask, taker))
    }

    // Pauses and tries again to have the turn, and at last posts the call. Where more calls follow, no turn is kept
    // while it waits. Apart from `call_anew`, which moves the ask less often so, and clears no room for it.
    #[inline(never)]
    fn call_again<R: Awaits, T: Taker>(
        &self,
        rt: &R,
        seat: &mut Seat,
        moment: u64,
        ask: Ask,
        more: bool,
        taker: &mut T,
    ) -> Told
        requires idle { IsIdleAt self.now seat.old }
        requires rested { seat.old.kept ≡ 0 }
        ensures called { Called self.now more seat.old moment ask (reply_of result) seat.new }
        ensures taken { T.took taker.old (bytes_of result) taker.new }
    {
        let mut ask = ask;
        let mut spins = FIRST_PAUSE;
        for tries in 0..TRIES {
            if !more && tries >= TRIES_ALONE && self.bells.is_kept() {
                break;
            }
            spins = pause(spins);
            if self.is_free() {
                ask = match self.call_in_turn(seat, moment, ask, more, taker) {
                    Ok(told) => return told,
                    Err(back) => back,
                };
            }
        }
        if more {
            self.bells.begin_to_wait();
        }
        let reply = self.call_by_post(rt, seat, moment, ask);
        if more {
            self.bells.stop_waiting();
        }
        Told::Reply(reply)
    }

    // Asks the store in a turn that is taken for it, and keeps that where more calls follow. In `call_into` itself the
    // ask would be moved once more.
    #[inline(always)]
    fn call_anew<R: Awaits, T: Taker>(
        &self,
        rt: &R,
        seat: &mut Seat,
        moment: u64,
        ask: Ask,
        more: bool,
        taker: &mut T,
    ) -> Told
        requires idle { IsIdleAt self.now seat.old }
        requires rested { seat.old.kept ≡ 0 }
        ensures called { Called self.now more seat.old moment ask (reply_of result) seat.new }
        ensures taken { T.took taker.old (bytes_of result) taker.new }
    {
        if !self.is_free() {
            return self.call_again(rt, seat, moment, ask, more, taker);
        }
        match self.call_in_turn(seat, moment, ask, more, taker) {
            Ok(told) => told,
            Err(back) => self.call_again(rt, seat, moment, back, more, taker),
        }
    }

    /// As `call_on`, but a taker may have the payload that a READ finds where it lies, and then no reply is made. Where
    /// the call is posted, its reply is whole.
    pub fn call_into<R: Awaits, T: Taker>(
        &self,
        rt: &R,
        seat: &mut Seat,
        moment: u64,
        ask: Ask,
        more: bool,
        taker: &mut T,
    ) -> Told
        requires table { seat.old.table ≡ self.now }
        requires idle { seat.old.part.flight ≡ None }
        ensures table { seat.new.table ≡ seat.old.table }
        ensures idle { seat.new.part.flight ≡ None }
        ensures added { Adds seat.old (event_of seat.old.part.lane moment ask (reply_of result)) seat.new }
        ensures taken { T.took taker.old (bytes_of result) taker.new }
        ensures looked { HasLooked self.now seat.old seat.new }
        ensures keeps { KeepsTurn more seat.old seat.new }
    {
        match self.call_in_kept_turn(seat, moment, ask, more, taker) {
            Ok(told) => told,
            Err(back) => self.call_anew(rt, seat, moment, back, more, taker),
        }
    }

    /// As `call`. Where more calls of this seat follow at once, it may keep the turn for them, until a call with no
    /// more, `rest`, or another function of the seat. While it has the turn, others are served within this seat's own
    /// calls alone, so the seat must not be left with it.
    pub fn call_on<R: Awaits>(
        &self,
        rt: &R,
        seat: &mut Seat,
        moment: u64,
        ask: Ask,
        more: bool,
    ) -> Reply
        requires table { seat.old.table ≡ self.now }
        requires idle { seat.old.part.flight ≡ None }
        ensures table { seat.new.table ≡ seat.old.table }
        ensures idle { seat.new.part.flight ≡ None }
        ensures added { Adds seat.old (event_of seat.old.part.lane moment ask result) seat.new }
        ensures looked { HasLooked self.now seat.old seat.new }
        ensures keeps { KeepsTurn more seat.old seat.new }
    {
        reply_in(self.call_into(rt, seat, moment, ask, more, &mut Nobody))
    }

    /// Asks the store as the last call of the turn that the seat keeps. Where it keeps none, asks in a turn of its own,
    /// after each call that is posted. Where the turn is taken again and again it posts the call, and helps or waits
    /// until it is answered.
    pub fn call<R: Awaits>(&self, rt: &R, seat: &mut Seat, moment: u64, ask: Ask) -> Reply
        requires table { seat.old.table ≡ self.now }
        requires idle { seat.old.part.flight ≡ None }
        ensures table { seat.new.table ≡ seat.old.table }
        ensures idle { seat.new.part.flight ≡ None }
        ensures added { Adds seat.old (event_of seat.old.part.lane moment ask result) seat.new }
        ensures looked { HasLooked self.now seat.old seat.new }
        ensures rested { seat.new.kept ≡ 0 }
    {
        self.call_on(rt, seat, moment, ask, false)
    }
}
