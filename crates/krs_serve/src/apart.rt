//! Guests, each in a thread of its own.
ghost use Rattle.std.specs.Prelude.{◌+◌, ◌<◌, ◌≡◌};

use crate::{AtDesk, Guest, Sitting, SystemClock, serve_connection};
use krs_listen::{FreeSeats, Latest};
use krs_session::{Over, Sink, Source};
use std::alloc::Global;
use std::sync::Wait;
use std::thread::{Scope, Threads};
use std::time::Clock;

/// What each connection is given.
#[derive(Drop)]
pub struct Hosting<'s, 'd, N: AtDesk, R: Source, W: Sink, H> {
    pub rt: &'s H,
    pub alloc: Global,
    /// The seats, and where its own goes when it has ended.
    pub free: &'s FreeSeats<Sitting<'d, N, R, W>>,
    pub latest: &'s Latest,
}

/// The same for connections over such streams.
pub type StreamHosting<'s, 'd, N, S, H> = Hosting<'s, 'd, N, Over<S>, Over<S>, H>;

/// How many guests were given to `serve_apart`, which alone counts them.
#[derive(Drop)]
pub(crate) struct Hosted {
    guests: u64,
}

impl Hosted {
    pub(crate) fn none() -> Hosted
        ensures { result.guests ≡ 0 }
    {
        Hosted { guests: 0 }
    }
}

/// Serves a connection on its seat, by a clock of its own, closes it, and gives the seat back.
fn serve_guest<'s, 'd, N: AtDesk, R: Source + Drop, W: Sink + Drop, H: Wait + Clock>(
    hosting: &Hosting<'s, 'd, N, R, W, H>,
    guest: Guest<'d, N, R, W>,
) {
    let clock = SystemClock::new(hosting.rt, hosting.latest);
    let (sitting, gone) = serve_connection(hosting.rt, hosting.alloc, guest, clock);
    drop(gone);
    hosting.free.give(hosting.rt, sitting);
}

/// Has a connection served in a thread of its own. Where no thread can be started it is served at once.
pub(crate) fn serve_apart<
    's,
    'd,
    E,
    N: AtDesk + Send + Sync,
    R: Source + Drop + Send,
    W: Sink + Drop + Send,
    H: Threads + Wait + Clock + Sync,
>(
    hosting: &'s Hosting<'s, 'd, N, R, W, H>,
    guest: Guest<'d, N, R, W>,
    scope: &'s Scope<'s, E>,
    hosted: &mut Hosted,
)
    requires { hosted.old.guests < u64.MAX }
    ensures { hosted.new.guests ≡ hosted.old.guests + 1 }
{
    hosted.guests += 1;
    let serving = move || serve_guest(hosting, guest);
    if let Err(refused) = scope.spawn(serving) {
        (refused.value)();
    }
}
