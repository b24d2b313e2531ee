//! Who waits for a call that was posted. Beside it only `Desk::wait`, its `sleep` and that of the bells may wait for
//! ever. None of these reaches a seat.
ghost use Rattle.std.specs.Prelude.{◌≡◌, ◌≢◌, IsSomeAnd, None};
ghost use Rattle.krs_desk.specs.Helping.{AnswersWaiting};

use crate::desk::Desk;
use crate::posted::Posted;
use std::sync::Wait;

mod private {
    /// Nobody else can name it. So what awaits replies is a runtime, and nothing of another crate's, to which the desk
    /// would be lent.
    pub trait IsRuntime {}
}

impl<R: Wait> private::IsRuntime for R {}

/// What can wait for the answer to a posted call, and for nothing else. It isn't told the answer.
pub trait Awaits: private::IsRuntime {
    /// Helps or waits until the call is answered.
    fn await_reply(&self, desk: &Desk, posted: &mut Posted<'_>)
        requires table { posted.old.seat.now.table ≡ desk.now }
        requires in_flight { posted.old.seat.now.part.flight ≢ None }
        ensures answered { IsSomeAnd posted.new.reply.now
            (λ reply. AnswersWaiting desk.now posted.old.seat.now reply posted.new.seat.now) }
        ensures seat { posted.new.seat.ghost_name ≡ posted.old.seat.ghost_name }
        ensures reply { posted.new.reply.ghost_name ≡ posted.old.reply.ghost_name };
}

impl<R: Wait> Awaits for R {
    fn await_reply(&self, desk: &Desk, posted: &mut Posted<'_>) {
        for _ in self.forever() {
            if posted.look(desk) {
                return;
            }
            desk.wait(self, posted.lane(desk));
        }
        unreachable!()
    }
}
