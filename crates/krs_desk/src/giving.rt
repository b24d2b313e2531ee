//! A turn is given back, and then whom that concerns is woken: neither is forgotten, and not the other way round.
ghost use Rattle.std.specs.Prelude.{[], ◌∷◌, ◌≡◌, List, None, Some};
ghost use Rattle.atomic_table.specs.Table.{rest};
ghost use Rattle.krs_types.specs.declared.event.Event.{Event};
ghost use Rattle.krs_world.specs.Knowing.{events_of, put_none, put_own};
ghost use Rattle.krs_desk.specs.Helping.{held_of, HoldsAll};
ghost use Rattle.krs_desk.specs.{Parts.sat, Seated.{HoldsBefore, opening, part}, Steps.event_in};

use crate::desk::Desk;
use crate::served_call::{Added, ServedCall};
use crate::steps::{Brings, Puts};
use crate::token::Token;
use crate::word::{FREE, OUT, TURN};

// That a turn was given back. Only the exchange that gives it back makes one, and it isn't `Drop`: only `wake` takes
// it.
pub(crate) struct Freed {
    _turn: (),
}

impl Desk {
    // Gives the turn back, with one event more in the list.
    pub(crate) fn put_back<E: Added>(&self, token: &mut Token, call: ServedCall) -> Freed
        requires table { token.old.table_id ≡ self.now }
        requires held { (log : List Event) × HoldsBefore token.old.me log (event_in call) }
        requires event { (E.events ≡ event_in call ∷ []) × (call.lane ≡ (part token.old.me).lane) }
        ensures table { token.new.table_id ≡ token.old.table_id }
        ensures put { (log : List Event) → (part token.old.me).holding ≡ Some log
            → token.new.me
            ≡ (sat (opening token.old.me) (put_own (part token.old.me) log (event_in call)), rest token.old.me.1) }
        ensures mine { (log : List Event) → (part token.old.me).holding ≡ Some log
            → events_of (part token.old.me).lane log ≡ (part token.old.me).mine }
    {
        self.table
            .compare_exchange::<Puts<E>>(token, TURN, OUT, FREE);
        Freed { _turn: () }
    }

    // Gives the turn back, with the list as it is held.
    pub(crate) fn bring_back(&self, token: &mut Token) -> Freed
        requires table { token.old.table_id ≡ self.now }
        requires held { HoldsAll token.old.me }
        ensures table { token.new.table_id ≡ token.old.table_id }
        ensures brought { token.new.me ≡ (
          sat (opening token.old.me)
              (put_none (part token.old.me) (held_of (part token.old.me).holding)),
          rest token.old.me.1,
        ) }
        ensures mine { (part token.old.me).flight ≡ None
            → events_of (part token.old.me).lane (held_of (part token.old.me).holding)
            ≡ (part token.old.me).mine }
    {
        self.table
            .compare_exchange::<Brings>(token, TURN, OUT, FREE);
        Freed { _turn: () }
    }

    // Wakes whom it may concern that the turn was given back.
    #[inline]
    pub(crate) fn wake(&self, freed: Freed) {
        let Freed { _turn: () } = freed;
        self.wake_if_asleep();
    }
}
