//! A seat of the daemon's desk, a guest who is served there, and its session. Nothing else in this crate reaches a seat
//! that was dealt, or a guest's ends.
ghost use Rattle.std.specs.Prelude.{[], ◌++◌, ◌+◌, ◌∷◌, ◌≡◌, All, IfOk, vec_len};
ghost use Rattle.krs_model.specs.State.{starting_at};
ghost use Rattle.krs_desk.specs.{Seen.IsOneHistory, Sitting.{fresh_seats, IsIdleAt, Meets}};
ghost use Rattle.krs_session.specs.Calls.{GainsSession};
ghost use Rattle.krs_session.specs.{Over.over_end, Session.{counts_of, HaveRoom}, declared.ended.Ended.Ended};
ghost use Rattle.krs_serve.specs.Sessions.{entry, ServesAtDesk};
ghost use Rattle.krs_serve.specs.Visits.{HasJustItsCalls, IsNew, IsVisited};

use crate::{Entry, Gone, OpenGate, serve_entry};
use krs_desk::{Awaits, Desk, Refused, Seat};
use krs_listen::Options;
use krs_session::{Clock, Over, Sink, Source, a_session_is_its_asks_and_leave};
use krs_store::{Seed, Store};
use std::alloc::{AllocError, Global};
use std::io::{Read, Write};
use std::marker::{Brand, PhantomData};

/// How many reads a connection may make.
const TURNS: u64 = 16_777_216;

/// At which desk the connections of a daemon sit: it is one for all of them. Each daemon picks its own.
pub trait AtDesk {
    ghost use Rattle.atomic_table.specs.Seated.{TableId};

    ghost desk: { TableId };
}

impl AtDesk for Brand {
    ghost use Rattle.krs_serve.specs.AtDesk.{any_desk};

    ghost desk = { any_desk };
}

/// A seat beside its desk, as it goes from one thread to another. The desk was opened with an empty store. The seat is
/// as it was dealt, or as its last session left it: what was asked on it are the asks of connections with such ends,
/// one after another.
#[derive(Drop)]
pub struct Sitting<'d, N: AtDesk, R: Source, W: Sink> {
    desk: &'d Desk,
    seat: Seat,
    at: PhantomData<N>,
    ends: PhantomData<(R, W)>,
    pub ghost here: { desk.now ≡ N.desk },
    pub ghost own: { IsIdleAt N.desk seat },
    pub ghost empty: { seat.opening ≡ starting_at 3 },
    pub ghost just: { HasJustItsCalls seat },
    pub ghost visited: { ∥ IsVisited R.Source W.Sink 16777216 seat ∥₁ },
}

/// A seat that was dealt, or left by a session, beside its desk.
fn sitting_of<'d, N: AtDesk, R: Source, W: Sink>(desk: &'d Desk, seat: Seat) -> Sitting<'d, N, R, W>
    requires here { desk.now ≡ N.desk }
    requires own { IsIdleAt N.desk seat }
    requires empty { seat.opening ≡ starting_at 3 }
    requires just { HasJustItsCalls seat }
    requires visited { ∥ IsVisited R.Source W.Sink 16777216 seat ∥₁ }
    ensures desk { result.desk ≡ desk.entry }
    ensures seat { result.seat ≡ seat }
{
    Sitting {
        desk,
        seat,
        at: PhantomData,
        ends: PhantomData,
    }
}

/// The seats of a desk, before any sits beside it. `opened` alone makes them, of all that a desk has.
#[derive(Drop)]
pub(crate) struct Dealt {
    seats: Vec<Seat>,
}

/// A desk of a new store, with a seat for each lane of the options, and no lane more.
fn new_desk(alloc: Global, options: &Options, seed: Seed) -> Result<(Desk, Vec<Seat>), Refused>
    ensures wide { IfOk result (λ d. d.0.words ≡ options.now.lanes + 1) }
    ensures seats { IfOk result (λ d. d.1.items ≡ fresh_seats d.0 (starting_at 3) options.now.lanes) }
    ensures own { IfOk result (λ d. All (IsIdleAt d.0) d.1.items) }
    ensures empty { IfOk result (λ d. All (λ seat. seat.opening ≡ starting_at 3) d.1.items) }
    ensures unasked { IfOk result (λ d. All IsNew d.1.items) }
{
    Desk::open(alloc, options.lanes, Store::seeded(alloc, seed))
}

/// The same, with the seats out of reach.
pub(crate) fn opened(alloc: Global, options: &Options, seed: Seed) -> Result<(Desk, Dealt), Refused>
    ensures wide { IfOk result (λ d. d.0.words ≡ options.now.lanes + 1) }
    ensures seats { IfOk result (λ d. d.1.seats.items ≡ fresh_seats d.0 (starting_at 3) options.now.lanes) }
    ensures own { IfOk result (λ d. All (IsIdleAt d.0) d.1.seats.items) }
    ensures empty { IfOk result (λ d. All (λ seat. seat.opening ≡ starting_at 3) d.1.seats.items) }
    ensures unasked { IfOk result (λ d. All IsNew d.1.seats.items) }
{
    match new_desk(alloc, options, seed) {
        Ok((desk, seats)) => Ok((desk, Dealt { seats })),
        Err(refused) => Err(refused),
    }
}

/// Each seat beside its desk. Nothing was asked on any of them.
pub(crate) fn seated<'d, N: AtDesk, R: Source, W: Sink>(
    alloc: Global,
    desk: &'d Desk,
    dealt: Dealt,
) -> Result<Vec<Sitting<'d, N, R, W>>, AllocError>
    requires here { desk.now ≡ N.desk }
    requires own { All (IsIdleAt N.desk) dealt.seats.items }
    requires empty { All (λ seat. seat.opening ≡ starting_at 3) dealt.seats.items }
    requires unasked { All IsNew dealt.seats.items }
    ensures count { IfOk result (λ sittings. vec_len sittings ≡ vec_len dealt.seats) }
    ensures unasked { IfOk result (λ sittings. All (λ s. s.seat.part.mine ≡ []) sittings.items) }
{
    let Dealt { seats: mut left } = dealt;
    let count = left.len();
    let mut sittings = Vec::with_capacity(alloc, count)?;
    'seats: for _turn in 0..count {
        if let Some(seat) = left.pop() {
            sittings.push_reserved(sitting_of(desk, seat));
        }
    }
    Ok(sittings)
}

/// What a seat has seen is one legal history.
pub(crate) fn see_one_history<N: AtDesk, R: Source, W: Sink>(sitting: &Sitting<'_, N, R, W>)
    ensures { IsOneHistory sitting.now.seat.opening sitting.now.seat.part.seen }
{
    sitting.seat.has_seen_one_history();
}

/// Two seats meet: both have then seen one history, which has the calls of both.
pub(crate) fn meet_two<'d, N: AtDesk, R: Source, W: Sink>(
    first: Sitting<'d, N, R, W>,
    second: Sitting<'d, N, R, W>,
) -> (Sitting<'d, N, R, W>, Sitting<'d, N, R, W>)
    ensures { Meets first.entry.seat second.entry.seat result.0.seat result.1.seat }
{
    let Sitting {
        desk,
        seat,
        at: _,
        ends: _,
    } = first;
    let Sitting {
        desk: _,
        seat: other,
        at: _,
        ends: _,
    } = second;
    let (mut seat, mut other) = (seat, other);
    desk.meet(&mut seat, &mut other);
    let one = sitting_of(desk, seat);
    let two = sitting_of(desk, other);
    (one, two)
}

/// A connection that was accepted, at the seat that was free for it. Whoever lets it go unserved lets its seat go.
#[derive(Drop)]
pub struct Guest<'d, N: AtDesk, R: Source + Drop, W: Sink + Drop> {
    sitting: Sitting<'d, N, R, W>,
    reader: R,
    writer: W,
    pub ghost room: { HaveRoom 16777216 (counts_of R.reads R.empties R.failures W.failures reader writer) },
}

impl<'d, N: AtDesk, R: Source + Drop, W: Sink + Drop> Guest<'d, N, R, W> {
    fn new(sitting: Sitting<'d, N, R, W>, reader: R, writer: W) -> Guest<'d, N, R, W>
        requires room { HaveRoom 16777216 (counts_of R.reads R.empties R.failures W.failures reader writer) }
        ensures sitting { result.sitting ≡ sitting.entry }
        ensures reader { result.reader ≡ reader }
        ensures writer { result.writer ≡ writer }
    {
        Guest {
            sitting,
            reader,
            writer,
        }
    }
}

/// A seat of the daemon, whose connections come over such streams.
pub type StreamSitting<'d, N, S> = Sitting<'d, N, Over<S>, Over<S>>;

/// The ends of a connection that was accepted, for this desk, with what was free for it. It can't be let go: `guest_of`
/// alone takes it apart.
pub struct Arrival<N, F, S> {
    free: F,
    ends: (S, S),
    at: PhantomData<N>,
}

impl<N, F, S> Arrival<N, F, S> {
    pub(crate) fn new(free: F, ends: (S, S)) -> Arrival<N, F, S>
        ensures free { result.free ≡ free }
        ensures ends { result.ends ≡ ends }
    {
        Arrival {
            free,
            ends,
            at: PhantomData,
        }
    }
}

/// Who arrived, at the seat that was free. No guest is made elsewhere, so that a daemon has none of its own.
pub(crate) fn guest_of<'d, N: AtDesk, S: Read + Write + Drop>(
    arrival: Arrival<N, StreamSitting<'d, N, S>, S>,
) -> Guest<'d, N, Over<S>, Over<S>>
    ensures sitting { result.sitting ≡ arrival.entry.free }
    ensures reader { over_end result.reader ≡ arrival.entry.ends.0 }
    ensures writer { over_end result.writer ≡ arrival.entry.ends.1 }
{
    let Arrival { free, ends, at: _ } = arrival;
    let (reader, writer) = ends;
    Guest::new(free, Over::new(reader), Over::new(writer))
}

/// Serves a connection to its end: docs/FORMAT.md, "A connection". Its asks are those of the bytes that it sent, and
/// what was written to it is the text of their replies, and nothing behind them. The seat has gained these calls, and
/// one LEAVE. It keeps no turn. The ends are given back as the session left them. A connection makes 16777216 reads at
/// most, and is closed as its ends are let go. Here nothing can wait but for the answer to a posted call: what waits
/// for ever meets every contract, whatever it did before.
pub fn serve_connection<
    'd,
    N: AtDesk,
    H: Awaits,
    R: Source + Drop,
    W: Sink + Drop,
    C: Clock + Drop,
>(
    rt: &H,
    alloc: Global,
    guest: Guest<'d, N, R, W>,
    clock: C,
) -> (Sitting<'d, N, R, W>, Gone<R, W, C>)
    ensures desk { result.0.desk ≡ guest.entry.sitting.desk }
    ensures session { (ended : Ended) × (s : ServesAtDesk R.Source C.Clock W.Sink 16777216
        (entry guest.entry.reader guest.entry.writer clock) guest.entry.sitting.seat result.0.seat ended)
        × (s.last.reader ≡ result.1.reader) × (s.last.writer ≡ result.1.writer)
        × (s.last.clock ≡ result.1.clock)
        × GainsSession guest.entry.sitting.seat s.session.frames (s.session.events ++ s.session.last ∷ [])
        result.0.seat }
    ensures rested { result.0.seat.kept ≡ 0 }
{
    let Guest {
        sitting,
        reader,
        writer,
    } = guest;
    let Sitting {
        desk,
        seat,
        at: _,
        ends: _,
    } = sitting;
    a_session_is_its_asks_and_leave::<R, W, C>();
    let connection = Entry {
        reader,
        writer,
        clock,
    };
    let (seat, _ended, gone) = serve_entry(rt, alloc, connection, desk, seat, &OpenGate, TURNS);
    (sitting_of(desk, seat), gone)
}
