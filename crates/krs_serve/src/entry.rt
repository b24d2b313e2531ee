ghost use Rattle.std.specs.Prelude.{◌≡◌};
ghost use Rattle.krs_session.specs.Session.{counts_of, HaveRoom};
ghost use Rattle.krs_serve.specs.Sessions.{ServesEntry};

use krs_session::{Clock, Ended, Gate, Keeper, Sink, Source, run};
use std::alloc::Global;

/// One connection: its two ends, and the clock of its asks.
#[derive(Drop)]
pub struct Entry<R: Drop, W: Drop, C: Drop> {
    pub reader: R,
    pub writer: W,
    pub clock: C,
}

/// The ends of a connection and its clock, as its session left them. Nothing reaches them: whoever has them can only
/// let them go, and so close the connection.
#[derive(Drop)]
pub struct Gone<R: Drop, W: Drop, C: Drop> {
    reader: R,
    writer: W,
    clock: C,
}

/// Serves one connection to its end, and gives its seat back with why it ended, and its ends as they are then. The
/// daemon's threads serve each connection by this, and so does `run_sessions`.
pub fn serve_entry<
    H,
    R: Source + Drop,
    W: Sink + Drop,
    C: Clock + Drop,
    S,
    D: Keeper<S, H>,
    G: Gate,
>(
    rt: &H,
    alloc: Global,
    connection: Entry<R, W, C>,
    desk: &D,
    seat: S,
    gate: &G,
    turns: u64,
) -> (S, Ended, Gone<R, W, C>)
    requires ready { D.ready desk.now seat }
    requires room { HaveRoom turns
        (counts_of R.reads R.empties R.failures W.failures connection.reader connection.writer) }
    ensures session { (s : ServesEntry R.Source C.Clock W.Sink D.leads D.lane_of turns connection seat
        result.0 result.1) × (s.last.reader ≡ result.2.reader) × (s.last.writer ≡ result.2.writer)
        × (s.last.clock ≡ result.2.clock) }
    ensures ready { D.ready desk.now result.0 }
    ensures lane { D.lane_of result.0 ≡ D.lane_of seat }
    ensures rested { D.rested result.0 }
{
    let Entry {
        mut reader,
        mut writer,
        mut clock,
    } = connection;
    let mut seat = seat;
    let ended = run(
        rt,
        alloc,
        &mut reader,
        &mut writer,
        desk,
        &mut seat,
        &mut clock,
        gate,
        turns,
    );
    let gone = Gone {
        reader,
        writer,
        clock,
    };
    (seat, ended, gone)
}
