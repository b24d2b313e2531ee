ghost use Rattle.std.specs.Prelude.{List, ℕ};
ghost use Rattle.krs_desk.specs.Sitting.{IsIdleAt};

use crate::round::Turn;
use anyhow::{Result, bail};
use krs_desk::{Desk, Seat};
use krs_session::{Clock, Ended, Gate, Over, Point, run};
use krs_store::Store;
use krs_types::Ask;
use krs_wire::encode_ask;
use std::alloc::Global;
use std::sync::Wait;
use std::time::{Duration, Instant};

/// More reads than any stream here wants.
const TURNS: u64 = 16_777_216;

/// A clock that stands.
#[derive(Drop)]
struct Still;

impl Clock for Still {
    ghost ticked = { λ a moments b. Unit {0} };

    fn now(&mut self) -> u64 {
        0
    }

    ghost starts = { λ c. tt };

    ghost joins = { λ a b c xs ys p q. tt };
}

/// A gate that never holds.
#[derive(Drop)]
struct Open;

impl Gate for Open {
    fn pass(&self, _lane: u32, _at: Point) {}

    fn may_hold(&self) -> bool {
        false
    }
}

/// Times asks that a session hands to a store.
pub fn time_session<R: AllocGlobal + std::rt::Clock + Wait>(
    rt: &R,
    store: Store,
    turns: Vec<Turn>,
) -> Result<Duration> {
    let alloc = rt.alloc();
    let stream = frames(alloc, turns)?;
    let Ok((desk, mut seats)) = Desk::open(alloc, 1, store) else {
        bail!("no desk");
    };
    let Some(mut seat) = seats.pop() else {
        bail!("no seat");
    };
    let start = Instant::now(rt)?;
    let is_whole = serve(rt, alloc, &stream, &desk, &mut seat);
    let took = start.elapsed(rt)?;
    if !is_whole {
        bail!("the session ended early");
    }
    Ok(took)
}

/// One session over a stream. Whether it was served to its end.
fn serve<R: Wait>(rt: &R, alloc: Global, stream: &[u8], desk: &Desk, seat: &mut Seat) -> bool
    requires { IsIdleAt desk.now seat.old }
{
    let mut reader = Over::new(stream);
    let mut writer = Over::new(Vec::new(alloc));
    let mut clock = Still;
    let ended = run(
        rt,
        alloc,
        &mut reader,
        &mut writer,
        desk,
        seat,
        &mut clock,
        &Open,
        TURNS,
    );
    matches!(ended, Ended::Closed)
}

/// The frames of asks.
fn frames(alloc: Global, turns: Vec<Turn>) -> Result<Vec<u8>> {
    let mut stream = Vec::new(alloc);
    for turn in turns {
        append(alloc, &mut stream, &turn.first)?;
        if let Some(ask) = &turn.second {
            append(alloc, &mut stream, ask)?;
        }
    }
    Ok(stream)
}

fn append(alloc: Global, stream: &mut Vec<u8>, ask: &Ask) -> Result<()> {
    let Ok(frame) = encode_ask(alloc, ask) else {
        bail!("an ask fits no frame");
    };
    Ok(stream.extend_from_slice(&frame)?)
}
