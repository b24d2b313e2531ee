//! A turn that a seat keeps for the calls that follow at once.
ghost use Rattle.std.specs.Prelude.{[], ◌<◌, ◌∷◌, ◌≡◌, ◌≢◌, IfErr, IfOk, List, None, OnErr, Some, true};
ghost use Rattle.krs_types.specs.declared.event.Event.{Event};
ghost use Rattle.krs_model.specs.History.{event_of};
ghost use Rattle.krs_store.specs.Told.{bytes_of, reply_of};
ghost use Rattle.krs_world.specs.Knowing.{events_of, kept};
ghost use Rattle.krs_desk.specs.Helping.{Called, HoldsAll, MayAsk};
ghost use Rattle.krs_desk.specs.Keeping.{at_rest, GoesRound, HasKept, ServesAndKeeps};
ghost use Rattle.krs_desk.specs.{Parts.sat, Seated.{HoldsBefore, opening, part}, Sitting.{IsIdleAt, rested}};
ghost use Rattle.krs_desk.specs.Steps.{event_in};

use crate::desk::Desk;
use crate::seat::Seat;
use crate::served_call::{Added, ServedCall};
use crate::steps::Keeps;
use crate::token::Token;
use crate::word::TURN;
use krs_store::{Taker, Told};
use krs_types::Ask;
use std::marker::Brand;
use std::snapshot::Snapshot;

/// So many calls of its own a seat has served in one turn at most, besides the last.
const MOST_KEPT: u32 = 63;

impl Desk {
    // The history has one event more, and the token holds it still.
    fn keep<E: Added>(&self, token: &mut Token, call: ServedCall)
        requires table { token.old.table_id ≡ self.now }
        requires held { (log : List Event) × HoldsBefore token.old.me log (event_in call) }
        requires event { (E.events ≡ event_in call ∷ []) × (call.lane ≡ (part token.old.me).lane) }
        ensures table { token.new.table_id ≡ token.old.table_id }
        ensures kept { (log : List Event) → (part token.old.me).holding ≡ Some log
            → token.new.me
            ≡ (sat (opening token.old.me) (kept (part token.old.me) log (event_in call)), token.old.me.1) }
        ensures mine { (log : List Event) → (part token.old.me).holding ≡ Some log
            → events_of (part token.old.me).lane log ≡ (part token.old.me).mine }
    {
        self.table.load::<Keeps<E>>(token, TURN);
    }

    // Asks the store for the token's own lane, and keeps the turn. Inlined, so that the ask isn't moved once more.
    #[inline(always)]
    pub(crate) fn go_on<T: Taker>(
        &self,
        token: &mut Token,
        lane: u32,
        moment: u64,
        ask: Ask,
        taker: &mut T,
    ) -> Told
        requires table { token.old.table_id ≡ self.now }
        requires turn { MayAsk token.old.me lane }
        ensures table { token.new.table_id ≡ token.old.table_id }
        ensures gone { ServesAndKeeps token.old.me (event_of lane moment ask (reply_of result)) token.new.me }
        ensures taken { T.took taker.old (bytes_of result) taker.new }
    {
        let asked = Snapshot::of(&ask);
        let told = self.serve_into(token, lane, moment, ask, taker);
        let call = ServedCall {
            lane,
            moment,
            ask: asked,
            told: Snapshot::of(&told),
        };
        self.keep::<Brand>(token, call);
        told
    }

    // Gives the turn back, where the token has kept it for so many calls.
    #[inline]
    pub(crate) fn give_back(&self, served: &mut u32, token: &mut Token)
        requires table { token.old.table_id ≡ self.now }
        requires kept { served.old ≢ 0 → HasKept token.old.me }
        ensures table { token.new.table_id ≡ token.old.table_id }
        ensures none { served.new ≡ 0 }
        ensures given { token.new.me ≡ at_rest served.old token.old.me }
    {
        if *served == 0 {
            return;
        }
        self.bells.stop_keeping();
        self.bring(token);
        *served = 0;
    }

    /// Gives the turn back, if the seat has kept it.
    #[inline]
    pub fn rest(&self, seat: &mut Seat)
        requires { seat.old.table ≡ self.now }
        ensures { seat.new ≡ rested seat.old }
    {
        self.give_back(&mut seat.served, &mut seat.token);
    }

    // Whether a turn that has served so many calls of its seat is kept, where more follow. It isn't while somebody
    // waits with a call that was posted and has more: answered one by one in the turns of others, they would take long.
    #[inline]
    pub(crate) fn may_keep(&self, more: bool, served: u32) -> bool
        ensures { result ≡ true → (more ≡ true) × (served < 63) }
    {
        more && served < MOST_KEPT && !self.bells.is_any_waiting()
    }

    // Where calls are posted, answers them before a call of the token's own, and wakes those whose call it was.
    #[inline]
    pub(crate) fn answer_posted(&self, token: &mut Token, posted: bool)
        requires table { token.old.table_id ≡ self.now }
        requires held { HoldsAll token.old.me }
        requires idle { (part token.old.me).flight ≡ None }
        ensures table { token.new.table_id ≡ token.old.table_id }
        ensures gone { GoesRound self.now posted token.old.me token.new.me }
    {
        if !posted {
            return;
        }
        let _answered = self.look_at_lanes(token, true);
        self.wake_if_asleep();
    }

    // Asks the store in the turn that the seat has kept. The ask comes back where it has none.
    #[inline(always)]
    pub(crate) fn call_in_kept_turn<T: Taker>(
        &self,
        seat: &mut Seat,
        moment: u64,
        ask: Ask,
        more: bool,
        taker: &mut T,
    ) -> Result<Told, Ask>
        requires idle { IsIdleAt self.now seat.old }
        ensures called { IfOk result (λ told. Called self.now more seat.old moment ask (reply_of told) seat.new) }
        ensures taken { IfOk result (λ told. T.took taker.old (bytes_of told) taker.new) }
        ensures none { IfErr result (λ back. (back ≡ ask) × (seat.new ≡ seat.old)) }
        ensures rested { OnErr result (seat.new.kept ≡ 0) }
        ensures untaken { OnErr result (taker.new ≡ taker.old) }
    {
        if seat.served == 0 {
            return Err(ask);
        }
        self.answer_posted(&mut seat.token, self.bells.is_any_posted());
        if self.may_keep(more, seat.served) {
            let told = self.go_on(&mut seat.token, seat.lane, moment, ask, taker);
            seat.served += 1;
            return Ok(told);
        }
        self.bells.stop_keeping();
        let told = self.finish(&mut seat.token, seat.lane, moment, ask, taker);
        seat.served = 0;
        Ok(told)
    }
}
