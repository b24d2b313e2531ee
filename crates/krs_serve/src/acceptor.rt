//! Where connections come from. What serves them is proved for all that accepts, over all streams. So it knows no
//! socket, reaches no stream, and can't make use of a socket's showing no bytes.
ghost use Rattle.std.specs.Prelude.{◌+◌, ◌<◌, ◌≡◌, IfErr, IfOk, OnErr, OnOk, ℕ};
ghost use Rattle.atomic_table.specs.Seated.{TableId};
ghost use Rattle.krs_listen.specs.Accepting.{accepted_by, AreEndsFrom, failed_at};

use crate::{Arrival, AtDesk};
use krs_listen::{Accepts, AwaitsEnd, Listens, StreamAcceptor};
use std::io;
use std::sync::Wait;
use std::time::Clock;

/// Where connections come from, over such streams. It counts them, and what failed.
pub trait Acceptor<S>: Drop {
    // Who comes there sits at this desk. A socket doesn't know of it.
    ghost serves: { Self → TableId → Type 0 };

    // These are the ends of one connection that came to it.
    ghost came: { Self → S × S → Type 0 };

    // How many were accepted, and how many accepts failed.
    ghost accepted: { Self → ℕ };

    ghost failures: { Self → ℕ };

    /// The next connection, for what was free: so none is accepted while no lane is free, and none at the lane of
    /// another. What was free comes back where an accept failed.
    fn accept<N: AtDesk, F, R: Wait + Clock, E: AwaitsEnd<R>>(
        &mut self,
        rt: &R,
        served: &E,
        free: F,
    ) -> Result<Arrival<N, F, S>, F>
        requires here { serves self.old N.desk }
        requires accepted { accepted self.old < u64.MAX }
        requires failures { failures self.old < u64.MAX }
        ensures here { serves self.new N.desk }
        ensures ends { IfOk result (λ arrival. came self.new arrival.ends) }
        ensures place { IfOk result (λ arrival. arrival.free ≡ free) }
        ensures one { OnOk result (accepted self.new ≡ accepted self.old + 1) }
        ensures good { OnOk result (failures self.new ≡ failures self.old) }
        ensures back { IfErr result (λ back. back ≡ free) }
        ensures none { OnErr result (accepted self.new ≡ accepted self.old) }
        ensures failed { OnErr result (failures self.new ≡ failures self.old + 1) };

    /// Why the last accept that failed did so.
    fn cause(&self) -> io::Error;

    /// Lets nobody connect any more, and gives what was counted.
    fn close(self) -> Accepts
        ensures accepted { result.accepted ≡ accepted self }
        ensures failures { result.failures ≡ failures self };
}

impl<L: Listens<S> + Drop, S: Drop> Acceptor<S> for StreamAcceptor<L, S> {
    ghost serves = { λ _ _. Unit {0} };

    ghost came = { AreEndsFrom L.came L.same };

    ghost accepted = { accepted_by };

    ghost failures = { failed_at };

    fn accept<N: AtDesk, F, R: Wait + Clock, E: AwaitsEnd<R>>(
        &mut self,
        rt: &R,
        served: &E,
        free: F,
    ) -> Result<Arrival<N, F, S>, F> {
        match StreamAcceptor::accept(self, rt, served) {
            Some(ends) => Ok(Arrival::new(free, ends)),
            None => Err(free),
        }
    }

    fn cause(&self) -> io::Error {
        StreamAcceptor::cause(self)
    }

    fn close(self) -> Accepts {
        StreamAcceptor::close(self)
    }
}
