ghost use Rattle.std.specs.{Prelude.{◌<◌, ◌≡◌, All, IfErr, IfOk, map, slice_index_or, vec_len, zip, ℕ}, List.AllZip};
ghost use Rattle.krs_types.specs.declared.errno.Errno.TheVariants.{ENOMEM};
ghost use Rattle.krs_session.specs.Session.{counts_of, HaveRoom};
ghost use Rattle.krs_serve.specs.Sessions.{ServesEntry};

use crate::{Entry, serve_entry};
use krs_session::{Clock, Ended, Gate, Keeper, Sink, Source};
use krs_types::Errno;
use std::alloc::{AllocError, Global};
use std::thread;
use std::thread::Threads;

/// Serves many connections at once, each in a thread of its own and on the seat of its place, and answers how they
/// ended, in the order of the list. Where no thread can be made for a connection it is served after another one. Where
/// memory is refused, every session that began has ended, with its LEAVE asked.
pub fn run_sessions<
    H: Threads + Sync,
    R: Source + Send + Drop,
    W: Sink + Send + Drop,
    C: Clock + Send + Drop,
    S: Send + Drop,
    D: Keeper<S, H> + Sync,
    G: Gate + Sync,
>(
    rt: &H,
    alloc: Global,
    list: Vec<Entry<R, W, C>>,
    desk: &D,
    seats: Vec<S>,
    gate: &G,
    turns: u64,
) -> Result<Vec<Ended>, Errno>
    requires places { vec_len seats ≡ vec_len list }
    requires ready { All (λ seat. D.ready desk.now seat) seats.items }
    requires room { All (λ entry. HaveRoom turns
        (counts_of R.reads R.empties R.failures W.failures entry.reader entry.writer)) list.items }
    ensures one_each { IfOk result (λ ends. vec_len ends ≡ vec_len list) }
    ensures in_order { IfOk result (λ ends. AllZip
        (λ job ended. (last_seat : _)
        × ServesEntry R.Source C.Clock W.Sink D.leads D.lane_of turns job.0 job.1 last_seat ended)
        (zip list.items seats.items) ends.items) }
    ensures memory { IfErr result (λ error. error ≡ ENOMEM) }
{
    let served = serve_sessions(rt, alloc, list, desk, seats, gate, turns)?;
    match ends_of(alloc, &served) {
        Ok(ends) => Ok(ends),
        Err(_) => Err(Errno::ENOMEM),
    }
}

/// How each ended.
fn ends_of<S>(alloc: Global, served: &[(S, Ended)]) -> Result<Vec<Ended>, AllocError>
    ensures { IfOk result (λ ends. ends.items ≡ map (λ done. done.1) served.now) }
{
    served.iter().map(|done| done.1).collect(alloc)
}

/// The same, and gives the seats back, each with how its connection ended.
pub fn serve_sessions<
    H: Threads + Sync,
    R: Source + Send + Drop,
    W: Sink + Send + Drop,
    C: Clock + Send + Drop,
    S: Send + Drop,
    D: Keeper<S, H> + Sync,
    G: Gate + Sync,
>(
    rt: &H,
    alloc: Global,
    list: Vec<Entry<R, W, C>>,
    desk: &D,
    seats: Vec<S>,
    gate: &G,
    turns: u64,
) -> Result<Vec<(S, Ended)>, Errno>
    requires places { vec_len seats ≡ vec_len list }
    requires ready { All (λ seat. D.ready desk.now seat) seats.items }
    requires room { All (λ entry. HaveRoom turns
        (counts_of R.reads R.empties R.failures W.failures entry.reader entry.writer)) list.items }
    ensures one_each { IfOk result (λ served. vec_len served ≡ vec_len list) }
    ensures in_order { IfOk result (λ served. AllZip
        (λ job done. ServesEntry R.Source C.Clock W.Sink D.leads D.lane_of turns job.0 job.1 done.0 done.1)
        (zip list.items seats.items) served.items) }
    ensures ready { IfOk result (λ served. All (λ done. D.ready desk.now done.0) served.items) }
    ensures memory { IfErr result (λ error. error ≡ ENOMEM) }
{
    let Ok(jobs) = jobs_of(alloc, list, seats) else {
        return Err(Errno::ENOMEM);
    };
    match serve_jobs(rt, alloc, jobs, desk, gate, turns) {
        Ok(served) => Ok(served),
        Err(_) => Err(Errno::ENOMEM),
    }
}

/// Each entry beside the seat of its place. They are taken from the back, as that moves no other.
fn jobs_of<E: Drop, S: Drop>(
    alloc: Global,
    list: Vec<E>,
    seats: Vec<S>,
) -> Result<Vec<(E, S)>, AllocError>
    requires { vec_len seats ≡ vec_len list }
    ensures { IfOk result (λ jobs. jobs.items ≡ zip list.items seats.items) }
{
    let count = list.len();
    let (mut entries, mut free) = (list, seats);
    let mut jobs = Vec::with_capacity(alloc, count)?;
    'places: for _place in 0..count {
        let (Some(entry), Some(seat)) = (entries.pop(), free.pop()) else {
            unreachable!()
        };
        jobs.push_reserved((entry, seat));
    }
    jobs.reverse();
    Ok(jobs)
}

/// Serves each of these in a thread of its own.
fn serve_jobs<
    H: Threads + Sync,
    R: Source + Send + Drop,
    W: Sink + Send + Drop,
    C: Clock + Send + Drop,
    S: Send + Drop,
    D: Keeper<S, H> + Sync,
    G: Gate + Sync,
>(
    rt: &H,
    alloc: Global,
    jobs: Vec<(Entry<R, W, C>, S)>,
    desk: &D,
    gate: &G,
    turns: u64,
) -> Result<Vec<(S, Ended)>, AllocError>
    requires { All (λ job. D.ready desk.now job.1 × HaveRoom turns
        (counts_of R.reads R.empties R.failures W.failures job.0.reader job.0.writer)) jobs.items }
    ensures len { IfOk result (λ served. vec_len served ≡ vec_len jobs) }
    ensures each { IfOk result (λ served. (i : ℕ) (d : _) (e : _) → i < vec_len jobs
        → ServesEntry R.Source C.Clock W.Sink D.leads D.lane_of turns
        (slice_index_or jobs.items i d).0 (slice_index_or jobs.items i d).1
        (slice_index_or served.items i e).0 (slice_index_or served.items i e).1) }
    ensures ready { IfOk result (λ served. (i : ℕ) (e : _) → i < vec_len jobs
        → D.ready desk.now (slice_index_or served.items i e).0) }
{
    let work = |job: (Entry<R, W, C>, S)| -> (S, Ended)
        requires { D.ready desk.now job.1 × HaveRoom turns
            (counts_of R.reads R.empties R.failures W.failures job.0.reader job.0.writer) }
        ensures session { ServesEntry R.Source C.Clock W.Sink D.leads D.lane_of turns job.0 job.1 result.0 result.1 }
        ensures ready { D.ready desk.entry.now result.0 }
    { serve_one(rt, alloc, job, desk, gate, turns) };
    thread::map_vec(rt, jobs, &work)
}

/// Serves one connection on its seat.
fn serve_one<
    H,
    R: Source + Drop,
    W: Sink + Drop,
    C: Clock + Drop,
    S: Drop,
    D: Keeper<S, H>,
    G: Gate,
>(rt: &H, alloc: Global, job: (Entry<R, W, C>, S), desk: &D, gate: &G, turns: u64) -> (S, Ended)
    requires ready { D.ready desk.now job.1 }
    requires room { HaveRoom turns
        (counts_of R.reads R.empties R.failures W.failures job.0.reader job.0.writer) }
    ensures session { ServesEntry R.Source C.Clock W.Sink D.leads D.lane_of turns job.0 job.1 result.0 result.1 }
    ensures ready { D.ready desk.now result.0 }
{
    let (connection, seat) = job;
    let (seat, ended, _gone) = serve_entry(rt, alloc, connection, desk, seat, gate, turns);
    (seat, ended)
}
