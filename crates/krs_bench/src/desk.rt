//! Times calls of one thread and of many at one desk. Processor time is the shell's to tell, by `time`.
ghost use Rattle.krs_desk.specs.Sitting.{IsIdleAt};

use anyhow::{Result, bail};
use krs_desk::{Desk, Seat};
use krs_store::Store;
use krs_types::{Answer, Ask, Caller, Groups, Op};
use std::alloc::Global;
use std::io::Print;
use std::rt::Clock;
use std::sync::Wait;
use std::thread;
use std::thread::Threads;
use std::time::{Duration, Instant};

/// How many threads call, in turn.
const THREADS: [u32; 5] = [1, 2, 4, 8, 16];

/// How many seconds they call.
const SECONDS: u64 = 1;

/// So many calls are made between two looks at the clock.
const ROUND: u32 = 64;

/// How many asks one thread makes, of the store and of a desk.
const ASKS: u32 = 1_000_000;

/// How a thread makes its calls.
#[derive(Clone, Copy)]
enum Way {
    /// By `call`: in a turn of its own, which answers what is posted too; it posts only where the turn stays taken.
    Call,
    /// By `try_call` until the turn is had: each makes its own alone, and lets others go first meanwhile.
    Turns,
}

/// Prints what a call costs one thread beside the store's own time, and then how many asks a second many threads make,
/// by `call` and in turns.
pub fn print_desk<R: AllocGlobal + Clock + Print + Threads + Wait + Sync>(rt: &R) -> Result<()> {
    let in_store = time_store(rt, rt.alloc())?;
    let at_desk = time_desk(rt, rt.alloc())?;
    println!(rt; "read by one thread: {in_store} ns, by try_call {at_desk} ns")?;
    for threads in THREADS {
        print_row(rt, threads, Way::Call, "by call")?;
        print_row(rt, threads, Way::Turns, "in turns")?;
    }
    Ok(())
}

fn print_row<R: AllocGlobal + Clock + Print + Threads + Wait + Sync>(
    rt: &R,
    threads: u32,
    way: Way,
    name: &str,
) -> Result<()> {
    let alloc = rt.alloc();
    let Ok((desk, seats)) = Desk::open(alloc, threads, Store::new(alloc)) else {
        bail!("no desk");
    };
    let counts = thread::map_vec(
        rt,
        seats,
        &|seat| { count_calls(rt, alloc, &desk, seat, way) },
    )?;
    let total = counts
        .iter()
        .fold(0u64, |sum, count| sum.saturating_add(*count));
    let least = counts.iter().copied().min().unwrap_or(0);
    let greatest = counts.iter().copied().max().unwrap_or(0);
    println!(rt;
        "{threads} threads {name}: {total} asks a second, {least} to {greatest} by one thread"
    )?;
    Ok(())
}

/// READ of the user keyring.
fn read(context: u32) -> Ask {
    Ask {
        context,
        op: Op::Read { id: -4 },
    }
}

/// HELLO of a uid.
fn greeting(alloc: Global) -> Ask {
    let groups = Groups::new(Vec::new(alloc));
    Ask {
        context: 0,
        op: Op::Hello(Caller {
            uid: 1000,
            gid: 1000,
            groups,
        }),
    }
}

/// The nanoseconds of one of the asks.
fn share(took: Duration) -> u64 {
    u64::try_from(took.as_nanos() / u128::from(ASKS)).unwrap_or(u64::MAX)
}

fn time_store<R: Clock>(rt: &R, alloc: Global) -> Result<u64> {
    let mut store = Store::new(alloc);
    let _ = store.apply(0, 0, greeting(alloc));
    let start = Instant::now(rt)?;
    for _ in 0..ASKS {
        let _ = store.apply(0, 0, read(1));
    }
    Ok(share(start.elapsed(rt)?))
}

fn time_desk<R: Clock>(rt: &R, alloc: Global) -> Result<u64> {
    let Ok((desk, mut seats)) = Desk::open(alloc, 1, Store::new(alloc)) else {
        bail!("no desk");
    };
    let Some(mut seat) = seats.pop() else {
        bail!("no seat");
    };
    let _ = desk.try_call(&mut seat, 0, greeting(alloc));
    let start = Instant::now(rt)?;
    'calls: for _ in 0..ASKS {
        let _ = desk.try_call(&mut seat, 0, read(1));
    }
    Ok(share(start.elapsed(rt)?))
}

/// How many calls a thread made at its seat.
fn count_calls<R: Clock + Wait>(rt: &R, alloc: Global, desk: &Desk, mut seat: Seat, way: Way) -> u64
    requires { IsIdleAt desk.now seat }
{
    let Ok(Answer::Number(context)) = desk.call(rt, &mut seat, 0, greeting(alloc)) else {
        return 0;
    };
    let Ok(start) = Instant::now(rt) else {
        return 0;
    };
    let mut count = 0u64;
    'rounds: for _ in 0..u64::MAX {
        match way {
            Way::Call => call_round(rt, desk, &mut seat, context),
            Way::Turns => turn_round(rt, desk, &mut seat, context),
        }
        count = count.saturating_add(u64::from(ROUND));
        if start
            .elapsed(rt)
            .map_or(true, |took| took.as_secs() >= SECONDS)
        {
            break;
        }
    }
    count
}

fn call_round<R: Wait>(rt: &R, desk: &Desk, seat: &mut Seat, context: u32)
    requires { IsIdleAt desk.now seat.old }
    ensures { IsIdleAt desk.now seat.new }
{
    'calls: for _ in 0..ROUND {
        let _ = desk.call(rt, seat, 0, read(context));
    }
}

fn turn_round<R: Wait>(rt: &R, desk: &Desk, seat: &mut Seat, context: u32)
    requires { IsIdleAt desk.now seat.old }
    ensures { IsIdleAt desk.now seat.new }
{
    'calls: for _ in 0..ROUND {
        ask_in_turn(rt, desk, seat, read(context));
    }
}

/// Tries until a try has the turn.
fn ask_in_turn<R: Wait>(rt: &R, desk: &Desk, seat: &mut Seat, ask: Ask)
    requires { IsIdleAt desk.now seat.old }
    ensures { IsIdleAt desk.now seat.new }
{
    let mut ask = ask;
    'tries: for _ in 0..u64::MAX {
        match desk.try_call(seat, 0, ask) {
            Ok(_reply) => return,
            Err(back) => ask = back,
        }
        thread::yield_now();
    }
}
