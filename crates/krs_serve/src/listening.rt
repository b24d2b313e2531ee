ghost use Rattle.std.specs.Prelude.{◌+◌, ◌<◌, ◌^◌, ◌≡◌, map, vec_len};
ghost use Rattle.krs_listen.specs.Accepting.{seat_count};
ghost use Rattle.krs_listen.specs.{Daemon.{AcceptsBy, TellsAccepted}, Saying.heard, Telling.TellsFailure};
ghost use Rattle.krs_serve.specs.{AtDesk.BeginsAt, OneDesk.ServeInOneHistory};

use crate::apart::{Hosted, StreamHosting, serve_apart};
use crate::connection::guest_of;
use crate::meeting::take_back;
use crate::{Acceptor, AtDesk, StreamSitting};
use krs_listen::{Accepted, Accepts, NOT_ACCEPTED, Voice, Voices, tell_accepted};
use krs_session::{Over, Sink, Source};
use std::io::{Read, Write};
use std::sync::Wait;
use std::thread;
use std::thread::{Scope, Threads};
use std::time::Clock;

/// Accepts so many connections, each for a free seat that it waits for, and has each served. A failed accept is told
/// at once, and nothing is accepted after it.
fn accept_each<
    's,
    'd,
    E,
    N: AtDesk + Send + Sync,
    S: Read + Write + Drop + Send,
    A: Acceptor<S>,
    R: Threads + Wait + Clock + Sync,
    W: Write,
>(
    hosting: &'s StreamHosting<'s, 'd, N, S, R>,
    acceptor: &mut A,
    connections: u64,
    output: &mut Voice<W>,
    scope: &'s Scope<'s, E>,
    hosted: &mut Hosted,
) -> Accepted
    requires here { A.serves acceptor.old N.desk }
    requires accepted { A.accepted acceptor.old + connections < 2 ^ 64 }
    requires failures { A.failures acceptor.old < u64.MAX }
    requires hosted { hosted.old.guests + connections < 2 ^ 64 }
    ensures count { AcceptsBy connections (A.accepted acceptor.old) (A.accepted acceptor.new)
        (A.failures acceptor.old) (A.failures acceptor.new) result }
    ensures told { TellsAccepted result (heard W.contents output.old) (heard W.contents output.new) }
    ensures hosted { hosted.new.guests + A.accepted acceptor.old ≡ hosted.old.guests + A.accepted acceptor.new }
{
    'accepts: for made in 0..connections {
        match acceptor.accept(hosting.rt, hosting.free, hosting.free.take(hosting.rt)) {
            Ok(arrival) => serve_apart(hosting, guest_of(arrival), scope, hosted),
            Err(sitting) => {
                output.say(NOT_ACCEPTED);
                hosting.free.give(hosting.rt, sitting);
                return Accepted::Failed;
            }
        }
    }
    Accepted::All
}

/// The same, and then nobody can connect any more. It tells why an accept failed, and gives the counts.
fn accept_over<
    's,
    'd,
    B,
    N: AtDesk + Send + Sync,
    S: Read + Write + Drop + Send,
    A: Acceptor<S>,
    R: Threads + Wait + Clock + Sync,
    W: Write,
    E: Write,
>(
    hosting: &'s StreamHosting<'s, 'd, N, S, R>,
    acceptor: A,
    connections: u64,
    voices: &mut Voices<W, E>,
    scope: &'s Scope<'s, B>,
) -> (Accepted, Accepts)
    requires { BeginsAt A.serves A.accepted A.failures acceptor N.desk }
    ensures count { AcceptsBy connections 0 result.1.accepted 0 result.1.failures result.0 }
    ensures told { TellsAccepted result.0 (heard W.contents voices.old.output) (heard W.contents voices.new.output) }
    ensures cause { TellsFailure result.0 (heard E.contents voices.old.errors) (heard E.contents voices.new.errors) }
{
    let (mut acceptor, mut hosted) = (acceptor, Hosted::none());
    let accepted = accept_each(
        hosting,
        &mut acceptor,
        connections,
        &mut voices.output,
        scope,
        &mut hosted,
    );
    let cause = acceptor.cause();
    tell_accepted(hosting.alloc, &mut voices.errors, accepted, &cause);
    (accepted, acceptor.close())
}

/// Accepts so many connections, and gives their counts. A failed accept is told at once. Then nobody can connect any
/// more, and what was accepted is served to its end.
fn accept_and_serve<
    's,
    'd,
    N: AtDesk + Send + Sync,
    S: Read + Write + Drop + Send,
    A: Acceptor<S>,
    R: Threads + Wait + Clock + Sync,
    W: Write,
    E: Write,
>(
    hosting: &'s StreamHosting<'s, 'd, N, S, R>,
    acceptor: A,
    connections: u64,
    voices: &mut Voices<W, E>,
) -> (Accepted, Accepts)
    requires { BeginsAt A.serves A.accepted A.failures acceptor N.desk }
    ensures count { AcceptsBy connections 0 result.1.accepted 0 result.1.failures result.0 }
    ensures told { TellsAccepted result.0 (heard W.contents voices.old.output) (heard W.contents voices.new.output) }
    ensures cause { TellsFailure result.0 (heard E.contents voices.old.errors) (heard E.contents voices.new.errors) }
{
    let (accepted, counts, _voices) = thread::scope(
        thread::scope_env(),
        hosting.rt,
        move |scope|
            requires { BeginsAt A.serves A.accepted A.failures acceptor N.desk }
        {
            let (accepted, counts) = accept_over(hosting, acceptor, connections, voices, scope);
            (accepted, counts, voices)
        },
    );
    (accepted, counts)
}

/// The same, and then all seats come back, and meet: so there is one legal history, from the empty store, in which the
/// calls of each are those of one connection after another.
pub fn accept_all<
    's,
    'd,
    N: AtDesk + Send + Sync,
    S: Read + Write + Drop + Send,
    A: Acceptor<S>,
    R: Threads + Wait + Clock + Sync,
    W: Write,
    E: Write,
>(
    hosting: &'s StreamHosting<'s, 'd, N, S, R>,
    acceptor: A,
    connections: u64,
    voices: &mut Voices<W, E>,
) -> (Accepted, Accepts, Vec<StreamSitting<'d, N, S>>)
    requires { BeginsAt A.serves A.accepted A.failures acceptor N.desk }
    ensures count { AcceptsBy connections 0 result.1.accepted 0 result.1.failures result.0 }
    ensures told { TellsAccepted result.0 (heard W.contents voices.old.output) (heard W.contents voices.new.output) }
    ensures cause { TellsFailure result.0 (heard E.contents voices.old.errors) (heard E.contents voices.new.errors) }
    ensures seats { vec_len result.2 ≡ seat_count hosting.now.free.now }
    ensures one_history { ServeInOneHistory ⟦<Over<S> as Source>⟧ ⟦<Over<S> as Sink>⟧ 16777216
        (map (λ s. s.seat) result.2.items) }
{
    let (accepted, counts) = accept_and_serve(hosting, acceptor, connections, voices);
    let seats = take_back(hosting.rt, hosting.alloc, hosting.free);
    (accepted, counts, seats)
}
