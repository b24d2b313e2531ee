//! The desk, and a call in a turn of its own.
ghost use Rattle.std.specs.Prelude.{[], ◌∷◌, ◌≡◌, ◌≢◌, IfErr, IfOk, List, None, Some};
ghost use Rattle.atomic_table.specs.Table.{rest};
ghost use Rattle.krs_types.specs.declared.event.Event.{Event};
ghost use Rattle.krs_model.specs.{History.event_of, State.State};
ghost use Rattle.krs_store.specs.Told.{bytes_of, reply_of};
ghost use Rattle.krs_world.specs.Knowing.{events_of, missed, put_own};
ghost use Rattle.krs_desk.specs.Helping.{Finishes, MayAsk};
ghost use Rattle.krs_desk.specs.{Parts.sat, Seated.{Has, Holds, HoldsBefore, IsResting, opening, part, Serves}};
ghost use Rattle.krs_desk.specs.{Sitting.{Adds, missed_by}, Steps.event_in};

use crate::bells::Bells;
use crate::board::Board;
use crate::nobody::{Nobody, reply_in};
use crate::seat::Seat;
use crate::served_call::{Added, ServedCall};
use crate::steps::Takes;
use crate::token::Token;
use crate::word::{FREE, OUT, TURN};
use krs_store::{Taker, Told};
use krs_types::{Ask, Reply};
use std::marker::{Brand, Model};
use std::snapshot::Snapshot;
use std::sync::atomic::{AtomicU64, Ordering};

/// A store with one turn, which is had by one seat at a time. Threads share it by reference. A contract sees which desk
/// it is.
pub struct Desk {
    pub(crate) table: Board,
    pub(crate) bells: Bells,

    // So many bytes are lacking of what the users of the seats keep in reserve.
    pub(crate) lacking: AtomicU64,
}

impl Model for Desk {
    ghost use Rattle.atomic_table.specs.Seated.{table_id_coded, TableId};

    ghost Value = { TableId };

    ghost coded = { table_id_coded };

    ghost use Rattle.std.specs.Prelude.{◌<◌, ◌≡◌, ◌≤◌};

    ghost view = { λ d. d.table.id };

    ghost invariant = { λ d. (0 < d.table.id.words) × (d.table.id.words ≤ 257)
        × (d.table.id.slots ≡ d.table.id.words) };
}

// By hand, so that a crate which lets a desk go needn't know what a store is made of.
impl Drop for Desk {
    fn drop(self) {
        let Self {
            table: _,
            bells: _,
            lacking: _,
        } = self;
    }
}

impl Desk {
    // What was found of the turn. It is 0 where the turn was free: the token has the store then.
    pub(crate) fn take(&self, token: &mut Token) -> u64
        requires table { token.old.table_id ≡ self.now }
        requires rests { IsResting token.old.me }
        ensures table { token.new.table_id ≡ token.old.table_id }
        ensures had { result ≡ 0 → Holds token.old.me token.new.me }
        ensures missed { result ≢ 0
            → token.new.me ≡ (sat (opening token.old.me) (missed (part token.old.me)), token.old.me.1) }
    {
        self.table.compare_exchange::<Takes>(token, TURN, FREE, OUT)
    }

    // Asks the store that the token has, which stays in its slot.
    #[inline(always)]
    pub(crate) fn serve(&self, token: &mut Token, lane: u32, moment: u64, ask: Ask) -> Reply
        requires table { token.old.table_id ≡ self.now }
        requires has { (store : State) × Has token.old.me store }
        ensures table { token.new.table_id ≡ token.old.table_id }
        ensures served { Serves token.old.me (event_of lane moment ask result) token.new.me }
    {
        let wanted = self.lacking.load(Ordering::SeqCst);
        self.table.serve(token, wanted, lane, moment, ask)
    }

    // As `serve`, but a taker may have the payload that a READ finds.
    #[inline(always)]
    pub(crate) fn serve_into<T: Taker>(
        &self,
        token: &mut Token,
        lane: u32,
        moment: u64,
        ask: Ask,
        taker: &mut T,
    ) -> Told
        requires table { token.old.table_id ≡ self.now }
        requires has { (store : State) × Has token.old.me store }
        ensures table { token.new.table_id ≡ token.old.table_id }
        ensures served { Serves token.old.me (event_of lane moment ask (reply_of result)) token.new.me }
        ensures taken { T.took taker.old (bytes_of result) taker.new }
    {
        let wanted = self.lacking.load(Ordering::SeqCst);
        self.table
            .serve_into(token, wanted, lane, moment, ask, taker)
    }

    /// Whether memory is lacking for a user of a seat.
    pub fn is_short(&self) -> bool {
        self.lacking.load(Ordering::SeqCst) > 0
    }

    /// A user of a seat lacks so many bytes of what it keeps in reserve, in place of those of which it told last, and
    /// which it keeps in `told`: 0 at first, and to tell at the end. The store leaves what is lacking: it refuses asks
    /// that would keep memory with ENOMEM, where less is left and nothing else refuses them.
    pub fn tell_lack(&self, told: &mut u64, lack: u64)
        ensures { told.new ≡ lack }
    {
        if *told == lack {
            return;
        }
        self.lacking.fetch_add(lack, Ordering::SeqCst);
        self.lacking.fetch_sub(*told, Ordering::SeqCst);
        *told = lack;
    }

    // Gives the turn back, with one event more in the list, and wakes whom it may concern.
    fn put<E: Added>(&self, token: &mut Token, call: ServedCall)
        requires table { token.old.table_id ≡ self.now }
        requires held { (log : List Event) × HoldsBefore token.old.me log (event_in call) }
        requires event { (E.events ≡ event_in call ∷ []) × (call.lane ≡ (part token.old.me).lane) }
        ensures table { token.new.table_id ≡ token.old.table_id }
        ensures put { (log : List Event) → (part token.old.me).holding ≡ Some log
            → token.new.me
            ≡ (sat (opening token.old.me) (put_own (part token.old.me) log (event_in call)), rest token.old.me.1) }
        ensures mine { (log : List Event) → (part token.old.me).holding ≡ Some log
            → events_of (part token.old.me).lane log ≡ (part token.old.me).mine }
    {
        let freed = self.put_back::<E>(token, call);
        self.wake(freed);
    }

    // Asks the store for the token's own lane, as the last of its turn, and gives the turn back. Inlined as `go_on`.
    #[inline(always)]
    pub(crate) fn finish<T: Taker>(
        &self,
        token: &mut Token,
        lane: u32,
        moment: u64,
        ask: Ask,
        taker: &mut T,
    ) -> Told
        requires table { token.old.table_id ≡ self.now }
        requires turn { MayAsk token.old.me lane }
        ensures table { token.new.table_id ≡ token.old.table_id }
        ensures finished { Finishes token.old.me (event_of lane moment ask (reply_of result)) token.new.me }
        ensures taken { T.took taker.old (bytes_of result) taker.new }
    {
        let asked = Snapshot::of(&ask);
        let told = self.serve_into(token, lane, moment, ask, taker);
        let call = ServedCall {
            lane,
            moment,
            ask: asked,
            told: Snapshot::of(&told),
        };
        self.put::<Brand>(token, call);
        told
    }

    /// Asks the store, where the turn is free, and answers no posted call. The ask comes back where the turn is found
    /// taken.
    pub fn try_call(&self, seat: &mut Seat, moment: u64, ask: Ask) -> Result<Reply, Ask>
        requires table { seat.old.table ≡ self.now }
        requires idle { seat.old.part.flight ≡ None }
        ensures table { seat.new.table ≡ seat.old.table }
        ensures idle { seat.new.part.flight ≡ None }
        ensures added { IfOk result (λ reply. Adds seat.old (event_of seat.old.part.lane moment ask reply) seat.new) }
        ensures alone { IfOk result (λ reply. seat.new.part.checked ≡ []) }
        ensures rested { seat.new.kept ≡ 0 }
        ensures missed { IfErr result (λ back. (back ≡ ask) × (seat.new ≡ missed_by seat.old)) }
    {
        self.give_back(&mut seat.served, &mut seat.token);
        if self.take(&mut seat.token) != FREE {
            return Err(ask);
        }
        let told = self.finish(&mut seat.token, seat.lane, moment, ask, &mut Nobody);
        Ok(reply_in(told))
    }
}
