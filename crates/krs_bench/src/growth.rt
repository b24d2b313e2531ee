//! What asks cost in stores that have little and much.

use crate::operation::operations;
use crate::stock::{Scene, accept, fill, filling};
use crate::timing::{Plan, accepted, in_store, planned, run, stock};
use anyhow::Result;
use krs_store::Store;
use krs_types::{Ask, Fault, Op};
use std::io::Print;
use std::rt::Clock;
use std::time::{Duration, Instant};

/// How many rounds a run has, and a count of instructions.
const ROUNDS: u32 = 100;

/// The columns of the table: links, keys of another client, how many of these it watches, and contexts of a third.
const SCENES: [(&str, u32, u32, u32, u32); 7] = [
    ("10", 10, 0, 0, 0),
    ("1000", 1_000, 0, 0, 0),
    ("10000", 10_000, 0, 0, 0),
    ("keys", 10, 100_000, 0, 0),
    ("contexts", 10, 0, 0, 64),
    ("unwatched", 10, 10_000, 0, 0),
    ("watches", 10, 10_000, 10_000, 0),
];

/// What the columns of the table are.
const LEGEND: &str = "\
nanoseconds of a round, in a store where the keyring that is asked about has so many links; or 10 links, and elsewhere
keys: 100000 keys of another client; contexts: 64 contexts; unwatched: 10000 keys of another client; watches: 10000
keys of another client, each of which its queue watches
";

/// The table: a row for each operation, and a column for each scene, or one for a number of links.
pub fn print_growth<R: AllocGlobal + Clock + Print>(rt: &R, links: Option<u32>) -> Result<()> {
    let mut stores = Vec::new(rt.alloc());
    rt.print(LEGEND)?;
    print!(rt; "{:<10}", "")?;
    if let Some(links) = links {
        print!(rt; "{links:>10}")?;
        stores.push((stock(rt, Scene::linking(links))?, links))?;
        rt.print("\n")?;
        return print_table(rt, stores);
    }
    for (name, links, others, watches, contexts) in &SCENES {
        print!(rt; "{name:>10}")?;
        let scene = Scene {
            links: *links,
            others: *others,
            watches: *watches,
            contexts: *contexts,
        };
        stores.push((stock(rt, scene)?, *links))?;
    }
    rt.print("\n")?;
    print_table(rt, stores)
}

fn print_table<R: AllocGlobal + Clock + Print>(
    rt: &R,
    mut stores: Vec<(Store, u32)>,
) -> Result<()> {
    for operation in operations() {
        let name = operation.word();
        print!(rt; "{name:<10}")?;
        for (store, links) in &mut stores {
            let plan = Plan {
                operation: *operation,
                links: *links,
                rounds: ROUNDS,
            };
            let took = in_store(rt, store, plan)?;
            print!(rt; "{took:>10}")?;
        }
        rt.print("\n")?;
    }
    Ok(())
}

/// What an ADD costs while a keyring is filled with so many links, and what LEAVE costs for each of its keys.
pub fn print_fill<R: AllocGlobal + Clock + Print>(rt: &R, links: u32) -> Result<()> {
    let asks = accepted(filling(rt.alloc(), links))?;
    let mut store = Store::new(rt.alloc());
    let start = Instant::now(rt)?;
    accepted(fill(&mut store, asks))?;
    let filled = start.elapsed(rt)?;
    let start = Instant::now(rt)?;
    accepted(leave(&mut store))?;
    let left = start.elapsed(rt)?;
    let (add, leave) = (share(filled, links), share(left, links));
    println!(rt; "fill with {links} links: {add} ns an ADD, LEAVE {leave} ns a key")?;
    Ok(())
}

/// LEAVE of client 0.
fn leave(store: &mut Store) -> Result<(), Fault> {
    let (context, op) = (0, Op::Leave);
    Ok(accept(store, 0, Ask { context, op })?)
}

/// The nanoseconds of one of so many.
fn share(took: Duration, count: u32) -> u64 {
    let whole = took.as_nanos().checked_div(u128::from(count));
    whole.map_or(0, |share| u64::try_from(share).unwrap_or(u64::MAX))
}

/// Makes the rounds of an operation, for `bench/instructions` to count.
pub fn count_rounds<R: AllocGlobal + Print>(rt: &R, name: &str, links: u32) -> Result<()> {
    for operation in operations() {
        if name == operation.word() {
            let mut store = stock(rt, Scene::linking(links))?;
            let plan = Plan {
                operation: *operation,
                links,
                rounds: ROUNDS,
            };
            let turns = planned(rt, &mut store, plan)?;
            run(&mut store, *operation, turns)?;
            println!(rt; "{ROUNDS} rounds")?;
        }
    }
    Ok(())
}
