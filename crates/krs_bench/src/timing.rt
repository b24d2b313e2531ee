use crate::operation::Operation;
use crate::round::{Turn, next_numbers, turns};
use crate::session::time_session;
use crate::stock::{Scene, stocked};
use anyhow::{Result, bail};
use krs_store::Store;
use krs_types::{Ask, Errno, Fault};
use std::rt::Clock;
use std::sync::Wait;
use std::time::{Duration, Instant};

/// How many runs are made.
const RUNS: usize = 10;

/// So many rounds of an operation, in a store whose user keyring has so many links.
#[derive(Clone, Copy)]
pub struct Plan {
    pub operation: Operation,
    pub links: u32,
    pub rounds: u32,
}

/// How many nanoseconds a round takes in a store: the median of the runs.
pub fn in_store<R: AllocGlobal + Clock>(rt: &R, store: &mut Store, plan: Plan) -> Result<u64> {
    let mut times = [Duration::ZERO; RUNS];
    for time in &mut times {
        let turns = planned(rt, store, plan)?;
        let start = Instant::now(rt)?;
        run(store, plan.operation, turns)?;
        *time = start.elapsed(rt)?;
    }
    Ok(median(times, plan.rounds))
}

/// How many nanoseconds a round takes through a session over memory, whose frames are cut and replies written: the
/// median of the runs, each on a store of its own.
pub fn in_session<R: AllocGlobal + Clock + Wait>(rt: &R, plan: Plan) -> Result<u64> {
    let mut times = [Duration::ZERO; RUNS];
    for time in &mut times {
        let mut store = stock(rt, Scene::linking(plan.links))?;
        let turns = planned(rt, &mut store, plan)?;
        *time = time_session(rt, store, turns)?;
    }
    Ok(median(times, plan.rounds))
}

fn median(mut times: [Duration; RUNS], rounds: u32) -> u64 {
    times.sort_unstable();
    let whole = times[RUNS / 2].as_nanos().checked_div(u128::from(rounds));
    whole.map_or(0, |share| u64::try_from(share).unwrap_or(u64::MAX))
}

/// A store as the scene says.
pub fn stock<R: AllocGlobal>(rt: &R, scene: Scene) -> Result<Store> {
    accepted(stocked(rt.alloc(), scene))
}

/// The asks of a plan in a store.
pub fn planned<R: AllocGlobal>(rt: &R, store: &mut Store, plan: Plan) -> Result<Vec<Turn>> {
    let alloc = rt.alloc();
    let next = accepted(next_numbers(store, alloc, plan.links))?;
    accepted(turns(alloc, plan.operation, next, plan.rounds))
}

/// Asks a store, and is accepted.
pub fn run(store: &mut Store, operation: Operation, turns: Vec<Turn>) -> Result<()> {
    accepted(accept_all(store, operation.client(), turns))
}

fn accept_all(store: &mut Store, client: u32, turns: Vec<Turn>) -> Result<(), Fault> {
    for turn in turns {
        ask_first(store, client, turn.first)?;
        if let Some(ask) = turn.second {
            ask_second(store, client, ask)?;
        }
    }
    Ok(())
}

/// The first ask of a round. It has a function of its own for `bench/instructions`, which counts what is run in it.
#[inline(never)]
fn ask_first(store: &mut Store, client: u32, ask: Ask) -> Result<(), Errno> {
    let _ = store.apply(client, 0, ask)?;
    Ok(())
}

/// The second ask of a round. Its refusal is of another type, so that a build doesn't make one function of the two.
#[inline(never)]
fn ask_second(store: &mut Store, client: u32, ask: Ask) -> Result<(), Fault> {
    let _ = store.apply(client, 0, ask)?;
    Ok(())
}

/// What was done, if no ask was refused.
pub fn accepted<T>(done: Result<T, Fault>) -> Result<T> {
    match done {
        Ok(value) => Ok(value),
        Err(fault) => bail!("refused: {fault:?}"),
    }
}
