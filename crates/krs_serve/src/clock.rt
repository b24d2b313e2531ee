//! The daemon's clock as the clock of a session.
ghost use Rattle.std.specs.Prelude.{◌≡◌};
ghost use Rattle.krs_listen.specs.Clock.{last_of};

use krs_listen::{DaemonClock, Latest};
use krs_session::Clock;
use std::time;

/// The system's clock in whole seconds since 1970, as one connection asks it.
#[derive(Drop)]
pub struct SystemClock<'r, R> {
    clock: DaemonClock<'r, R>,
}

impl<'r, R: time::Clock> SystemClock<'r, R> {
    pub fn new(rt: &'r R, latest: &'r Latest) -> SystemClock<'r, R>
        ensures { last_of result.clock ≡ 0 }
    {
        SystemClock {
            clock: DaemonClock::new(rt, latest),
        }
    }
}

impl<'r, R: time::Clock> Clock for SystemClock<'r, R> {
    ghost use Rattle.krs_listen.specs.Clock.{IsKept, kept_both, kept_none};

    // What is answered is kept, and no answer falls behind the one before it. No contract tells what the system's
    // clocks read, nor that they are read.
    ghost ticked = { λ a moments b. IsKept (last_of a.clock) moments (last_of b.clock) };

    fn now(&mut self) -> u64 {
        self.clock.now()
    }

    /// Its last answer: the system isn't asked.
    fn again(&mut self) -> u64 {
        self.clock.again()
    }

    ghost starts = { λ a. kept_none (last_of a.clock) };

    ghost joins = { λ a b c xs ys p q. kept_both (last_of a.clock) (last_of b.clock) (last_of c.clock) xs ys p q };
}
