ghost use Rattle.std.specs.Prelude.{[], ◌≡◌, All, IfOk, IsErr, OnErr, string_bytes};
ghost use Rattle.krs_model.specs.State.{starting_at};
ghost use Rattle.krs_links.specs.Seeded.{random_seed};
ghost use Rattle.krs_desk.specs.Sitting.{IsIdleAt};
ghost use Rattle.krs_listen.specs.Daemon.{Answers, connections_of, SaysAsItEndsBy, SaysAsItServes, served_line};
ghost use Rattle.krs_listen.specs.{Saying.heard, declared.choice.Choice.{Choice as ChoiceIs, TheVariants.Serve}};
ghost use Rattle.krs_serve.specs.{AtDesk.BeginsAt, Told.IsAsTold, Visits.IsNew};

use crate::apart::{Hosting, StreamHosting};
use crate::connection::{Dealt, opened, seated};
use crate::listening::accept_all;
use crate::{AtDesk, Paths};
use krs_desk::Desk;
use krs_listen::{
    Accepted, Accepts, Choice, FreeSeats, Latest, Lines, NOT_BOUND, NOT_TEXT, OUT_OF_MEMORY,
    Options, USAGE, Voices, choose, tell_cause,
};
use krs_session::Over;
use krs_store::Seed;
use std::alloc::Global;
use std::hash::RandomState;
use std::io;
use std::io::Write;
use std::marker::Brand;
use std::random::RandomSource;
use std::sync::Wait;
use std::thread::Threads;
use std::time::Clock;

/// The daemon: from its words, which are told beside its paths, and its two ends to its exit status.
pub fn run_daemon<R: Clock + RandomSource + Threads + Wait + Sync, P: Paths, W: Write, E: Write>(
    rt: &R,
    paths: P,
    alloc: Global,
    voices: &mut Voices<W, E>,
) -> u8
    ensures { (choice : ChoiceIs) × IsAsTold (P.told paths) choice
        × Answers choice (heard W.contents voices.old.output) (heard W.contents voices.new.output)
        (heard E.contents voices.old.errors) (heard E.contents voices.new.errors) result }
{
    let words = paths.words();
    let choice = choose(alloc, words);
    answer(rt, paths, alloc, choice, voices)
}

/// What each choice prints, and the status.
fn answer<R: Clock + RandomSource + Threads + Wait + Sync, P: Paths, W: Write, E: Write>(
    rt: &R,
    paths: P,
    alloc: Global,
    choice: Choice,
    voices: &mut Voices<W, E>,
) -> u8
    requires told { IsAsTold (P.told paths) choice }
    ensures { Answers choice (heard W.contents voices.old.output) (heard W.contents voices.new.output)
        (heard E.contents voices.old.errors) (heard E.contents voices.new.errors) result }
{
    match choice {
        Choice::Serve(options) => listen(rt, paths, alloc, &options, voices),
        Choice::Usage => {
            voices.output.say(USAGE);
            voices.errors.say(NOT_TEXT);
            2
        }
        Choice::Memory => {
            voices.output.say(OUT_OF_MEMORY);
            1
        }
        Choice::Shown(text) => {
            voices.output.say(text.as_str());
            0
        }
        Choice::Refused(text) => {
            voices.errors.say(text.as_str());
            2
        }
    }
}

/// How many connections are accepted before it ends.
fn connections_for(accept: Option<u32>) -> u64
    ensures { result ≡ connections_of accept }
{
    match accept {
        Some(connections) => u64::from(connections),
        None => u64::MAX,
    }
}

/// How many bytes a path has at most: unix(7).
const LONGEST: usize = 107;

/// Binds the path. An empty one the system would take for a name of its own choice, which no folder protects.
fn bound<N: AtDesk, P: Paths>(paths: P, options: &Options) -> io::Result<(P::Acceptor, P::Bound)>
    requires told { IsAsTold (P.told paths) (Serve options.now) }
    ensures empty { string_bytes options.now.path ≡ [] → IsErr result }
    ensures there { IfOk result (λ b. P.at b.0 (string_bytes options.now.path)) }
    ensures here { IfOk result (λ b. BeginsAt P.Acceptor.serves P.Acceptor.accepted P.Acceptor.failures b.0 N.desk) }
    ensures removes { IfOk result (λ b. P.removes b.1 (string_bytes options.now.path)) }
{
    let path = options.path();
    if path.is_empty() || path.len() > LONGEST {
        return Err(io::Error::other("a path has 1 to 107 bytes"));
    }
    paths.bind::<N>(options)
}

/// Accepts and serves so many connections, takes the path away, and tells how that ended. It gives their counts.
fn serve_all<
    's,
    'd,
    N: AtDesk + Send + Sync,
    R: Clock + Threads + Wait + Sync,
    P: Paths,
    W: Write,
    E: Write,
>(
    hosting: &'s StreamHosting<'s, 'd, N, P::Stream, R>,
    at: (P::Acceptor, P::Bound),
    options: &Options,
    connections: u64,
    lines: &Lines,
    voices: &mut Voices<W, E>,
) -> (u8, Accepts)
    requires there { P.at at.0 (string_bytes options.now.path) }
    requires removes { P.removes at.1 (string_bytes options.now.path) }
    requires here { BeginsAt P.Acceptor.serves P.Acceptor.accepted P.Acceptor.failures at.0 N.desk }
    requires served { string_bytes lines.now.served ≡ served_line connections }
    ensures { SaysAsItEndsBy connections result.1.accepted result.1.failures
        (heard W.contents voices.old.output) (heard W.contents voices.new.output)
        (heard E.contents voices.old.errors) (heard E.contents voices.new.errors) result.0 }
{
    let (acceptor, bound) = at;
    let (accepted, counts, _seats) = accept_all(hosting, acceptor, connections, voices);
    P::remove(bound, options);
    match accepted {
        Accepted::All => {
            voices.output.say(lines.served.as_str());
            (0, counts)
        }
        Accepted::Failed => (3, counts),
    }
}

/// Serves connections on a new store as the options say, and answers the status: keyretaind(8),
/// "DESCRIPTION" and "EXIT STATUS". The memory for its seats and its lines is had before the path is bound.
fn listen<R: Clock + RandomSource + Threads + Wait + Sync, P: Paths, W: Write, E: Write>(
    rt: &R,
    paths: P,
    alloc: Global,
    options: &Options,
    voices: &mut Voices<W, E>,
) -> u8
    requires told { IsAsTold (P.told paths) (Serve options.now) }
    ensures { SaysAsItServes options.now (heard W.contents voices.old.output) (heard W.contents voices.new.output)
        (heard E.contents voices.old.errors) (heard E.contents voices.new.errors) result }
{
    let seed = seed_of(RandomState::new(rt));
    let Ok((desk, seats)) = opened(alloc, options, seed) else {
        voices.output.say(OUT_OF_MEMORY);
        return 1;
    };
    listen_at::<Brand, R, P, W, E>(rt, paths, alloc, options, &desk, seats, voices)
}

/// The same, with all connections at this desk.
fn listen_at<
    N: AtDesk + Send + Sync,
    R: Clock + Threads + Wait + Sync,
    P: Paths,
    W: Write,
    E: Write,
>(
    rt: &R,
    paths: P,
    alloc: Global,
    options: &Options,
    desk: &Desk,
    seats: Dealt,
    voices: &mut Voices<W, E>,
) -> u8
    requires here { desk.now ≡ N.desk }
    requires own { All (IsIdleAt desk.now) seats.seats.items }
    requires empty { All (λ seat. seat.opening ≡ starting_at 3) seats.seats.items }
    requires unasked { All IsNew seats.seats.items }
    requires told { IsAsTold (P.told paths) (Serve options.now) }
    ensures { SaysAsItServes options.now (heard W.contents voices.old.output) (heard W.contents voices.new.output)
        (heard E.contents voices.old.errors) (heard E.contents voices.new.errors) result }
{
    let path = options.path();
    let connections = connections_for(options.accept);
    let made = seated::<N, Over<P::Stream>, Over<P::Stream>>(alloc, desk, seats);
    let (Ok(sittings), Ok(lines)) = (made, Lines::new(alloc, path, connections)) else {
        voices.output.say(OUT_OF_MEMORY);
        return 1;
    };
    let at = match bound::<N, P>(paths, options) {
        Ok(at) => at,
        Err(cause) => {
            voices.output.say(NOT_BOUND);
            tell_cause(alloc, &mut voices.errors, path, &cause);
            return 3;
        }
    };
    let (free, latest) = (FreeSeats::new(sittings), Latest::new());
    voices.output.say(lines.listening.as_str());
    let hosting = Hosting {
        rt,
        alloc,
        free: &free,
        latest: &latest,
    };
    let (status, _counts) = serve_all::<N, R, P, W, E>(
        &hosting,
        at,
        options,
        connections,
        &lines,
        voices,
    );
    status
}

/// What the store hashes names from: the system's random source, since the daemon's clients are strangers. Where it
/// fails, what every store of one's own has.
fn seed_of<E: Drop>(source: Result<RandomState, E>) -> Seed
    ensures random { IfOk source (λ state. result ≡ random_seed state) }
    ensures fixed { OnErr source (result ≡ Seed.FIXED) }
{
    match source {
        Ok(state) => Seed::random(state),
        Err(_) => Seed::FIXED,
    }
}
