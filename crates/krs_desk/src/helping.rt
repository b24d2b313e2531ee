//! A turn of `call` or `help` answers the calls that it finds posted.
ghost use Rattle.std.specs.Prelude.{◌+◌, ◌<◌, ◌≡◌, ◌≢◌, ◌≤◌, IfErr, IfOk, None};
ghost use Rattle.atomic_table.specs.Table.{rest};
ghost use Rattle.krs_model.specs.History.{event_of};
ghost use Rattle.krs_world.specs.Knowing.{events_of, missed, put_none};
ghost use Rattle.krs_desk.specs.Helping.{Goes, Had, HasHelped, held_of, HoldsAll, IsBehind, lanes_of, LooksAtLane};
ghost use Rattle.krs_desk.specs.Helping.{ServesBehind, turned_back};
ghost use Rattle.krs_desk.specs.{Parts.sat, Seated.{is_free, IsResting, opening, part}};

use crate::desk::Desk;
use crate::seat::Seat;
use crate::slot::SlotValue;
use crate::steps::{Answers, Glances, Grabs};
use crate::token::Token;
use crate::word::{ANSWERED, FREE, POSTED, SERVING, TURN, cell_of};
use krs_store::Store;
use krs_types::{Ask, Reply};

/// How a try to help ended: with the turn had and so many calls answered, or with the turn found taken.
#[derive(Clone, Copy, Debug, PartialEq, Eq)]
pub enum Helped {
    Took(u32),
    Busy,
}

// Brings the slot that was taken last to the front again, where the store was turned to the front. A seat that is
// idle has a slot of its own in hand.
fn turn_back(token: &mut Token, idle: bool)
    ensures table { token.new.table_id ≡ token.old.table_id }
    ensures turned { token.new.me ≡ (token.old.me.0, turned_back idle token.old.me.1) }
{
    token.turn();
    if !idle {
        return;
    }
    token.turn();
}

impl Desk {
    // The store, where the turn was free, or else what was found of the turn.
    pub(crate) fn fetch(&self, token: &mut Token) -> Result<Store, u64>
        requires table { token.old.table_id ≡ self.now }
        requires rests { IsResting token.old.me }
        ensures table { token.new.table_id ≡ token.old.table_id }
        ensures had { IfOk result (λ store. Had token.old.me token.new.me store) }
        ensures missed { IfErr result (λ turn. (turn ≢ 0)
            × (token.new.me ≡ (sat (opening token.old.me) (missed (part token.old.me)), token.old.me.1))) }
    {
        let turn = self.take(token);
        if turn != FREE {
            return Err(turn);
        }
        let SlotValue::Home(home) = self.table.exchange(token, TURN, SlotValue::Empty) else {
            unreachable!()
        };
        Ok(home.into_inner())
    }

    // Asks the store that the token has behind the slot that it took last.
    fn serve_behind(&self, token: &mut Token, idle: bool, lane: u32, moment: u64, ask: Ask) -> Reply
        requires table { token.old.table_id ≡ self.now }
        requires behind { IsBehind token.old.me }
        requires hand { idle ≡ is_free (part token.old.me).flight }
        ensures table { token.new.table_id ≡ token.old.table_id }
        ensures served { ServesBehind token.old.me (event_of lane moment ask result) token.new.me }
    {
        token.turn();
        let reply = self.serve(token, lane, moment, ask);
        turn_back(token, idle);
        reply
    }

    // Takes up the call that is posted in a lane's cell, if one is, and answers it. It tells how many. It is never
    // inlined, so that a look at a cell that isn't posted clears no room for an ask and a reply.
    #[inline(never)]
    fn answer_lane(&self, token: &mut Token, idle: bool, lane: u32) -> u32
        requires table { token.old.table_id ≡ self.now }
        requires room { lane + 1 < self.now.words }
        requires held { HoldsAll token.old.me }
        requires hand { idle ≡ is_free (part token.old.me).flight }
        ensures table { token.new.table_id ≡ token.old.table_id }
        ensures few { result ≤ 1 }
        ensures looked { LooksAtLane token.old.me lane result token.new.me }
    {
        let table = &self.table;
        let cell = cell_of!(lane);
        if table.compare_exchange::<Grabs>(token, cell, POSTED, SERVING) != POSTED {
            return 0;
        }
        let SlotValue::Asked(moment, ask) = table.exchange(token, cell, SlotValue::Empty) else {
            unreachable!()
        };
        let reply = self.serve_behind(token, idle, lane, moment, ask);
        drop(table.exchange(token, cell, SlotValue::Replied(reply)));
        table.store::<Answers>(token, cell, ANSWERED);
        self.bells.tell_answered();
        1
    }

    // Looks at a lane's cell, and answers the call that is posted there, if one is. It tells how many.
    fn look_at_lane(&self, token: &mut Token, idle: bool, lane: u32) -> u32
        requires table { token.old.table_id ≡ self.now }
        requires room { lane + 1 < self.now.words }
        requires held { HoldsAll token.old.me }
        requires hand { idle ≡ is_free (part token.old.me).flight }
        ensures table { token.new.table_id ≡ token.old.table_id }
        ensures few { result ≤ 1 }
        ensures looked { LooksAtLane token.old.me lane result token.new.me }
    {
        if self.table.load::<Glances>(token, cell_of!(lane)) != POSTED {
            return 0;
        }
        self.answer_lane(token, idle, lane)
    }

    // Looks at each lane's cell in turn, and tells how many calls it answered.
    pub(crate) fn look_at_lanes(&self, token: &mut Token, idle: bool) -> u32
        requires table { token.old.table_id ≡ self.now }
        requires held { HoldsAll token.old.me }
        requires hand { idle ≡ is_free (part token.old.me).flight }
        ensures table { token.new.table_id ≡ token.old.table_id }
        ensures gone { Goes token.old.me result (lanes_of self.now) token.new.me }
    {
        let lanes = (self.table.word_count() - 1) as u32;
        let mut answered = 0;
        for lane in 0..lanes {
            answered += self.look_at_lane(token, idle, lane);
        }
        answered
    }

    // Gives the turn back, with the list as it is held, and wakes whom it may concern.
    pub(crate) fn bring(&self, token: &mut Token)
        requires table { token.old.table_id ≡ self.now }
        requires held { HoldsAll token.old.me }
        ensures table { token.new.table_id ≡ token.old.table_id }
        ensures brought { token.new.me ≡ (
          sat (opening token.old.me)
              (put_none (part token.old.me) (held_of (part token.old.me).holding)),
          rest token.old.me.1,
        ) }
        ensures mine { (part token.old.me).flight ≡ None
            → events_of (part token.old.me).lane (held_of (part token.old.me).holding)
            ≡ (part token.old.me).mine }
    {
        let freed = self.bring_back(token);
        self.wake(freed);
    }

    /// Takes the turn, where it is free, and answers each call that is posted, lane by lane. If a call of this seat is
    /// in flight, it is then answered.
    pub fn help(&self, seat: &mut Seat) -> Helped
        requires table { seat.old.table ≡ self.now }
        ensures table { seat.new.table ≡ seat.old.table }
        ensures flight { seat.new.part.flight ≡ seat.old.part.flight }
        ensures helped { HasHelped self.now seat.old result seat.new }
        ensures rested { seat.new.kept ≡ 0 }
    {
        self.give_back(&mut seat.served, &mut seat.token);
        if self.take(&mut seat.token) != FREE {
            return Helped::Busy;
        }
        let answered = self.look_at_lanes(&mut seat.token, seat.idle);
        self.bring(&mut seat.token);
        Helped::Took(answered)
    }
}
