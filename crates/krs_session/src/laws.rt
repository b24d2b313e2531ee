//! What sessions do to the seats of a desk.
ghost use Rattle.std.specs.Prelude.{[], ◌++◌, ◌∷◌, List, ℕ};
ghost use Rattle.krs_types.specs.declared.event.Event.{Event};
ghost use Rattle.krs_desk.specs.Sitting.{Sitting};
ghost use Rattle.krs_session.specs.Alike.{AnswersByReadsAlone, AnswersDifferInReads, WritesByReadsAlone};
ghost use Rattle.krs_session.specs.Calls.{GainsSession, GainsTheirCalls, MakesCalls};
ghost use Rattle.krs_session.specs.{Session.Session, declared.ended.Ended.Ended};

use crate::{Clock, Sink, Source};

/// Where calls lead from one seat to another, the seat has just these calls more, in this order. It is of the same desk
/// and lane, what it had seen begins what it has now seen, and up to each of the calls that is a legal history.
pub fn a_seat_gains_its_calls()
    ensures { GainsTheirCalls }
{}

/// After a session on a seat the seat's new calls are what the frames ask, in order, and then one LEAVE.
pub fn a_session_is_its_asks_and_leave<R: Source, W: Sink, C: Clock>()
    ensures { (s t : Sitting) (reader0 reader1 : R) (writer0 writer1 : W) (clock0 clock1 : C) (lane reads : ℕ)
        (ended : Ended) (session : Session (λ bytes. R.gave reader0 bytes reader1)
        (λ events. MakesCalls s events t)
        (λ moments. C.ticked clock0 moments clock1)
        (λ text. W.took writer0 text writer1) lane reads ended)
        → GainsSession s session.frames (session.events ++ session.last ∷ []) t }
{}

/// A session tells a client what its READs answer, and nothing else, whatever earlier connections of its lane had read.
/// Of two sessions of one lane that are asked alike, as are all other clients, but for hidden payloads, the replies are
/// the same, but those to accepted READs. Where these are the same too, so are the texts of all replies; and what is
/// written in the one session begins what is written in the other, or the other way round.
pub fn a_session_tells_by_its_reads_alone<W: Sink>()
    ensures replies { AnswersDifferInReads }
    ensures texts { AnswersByReadsAlone }
    ensures written { WritesByReadsAlone W.took }
{}
