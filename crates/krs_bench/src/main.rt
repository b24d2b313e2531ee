//! Times asks of a store with few and with many keys linked in one keyring, and calls at a desk. Run by hand:
//! `make bench`.
#![tactic(auto)]

mod desk;
mod growth;
mod lines;
mod operation;
mod round;
mod session;
mod stock;
mod timing;

use anyhow::Result;
use desk::print_desk;
use growth::{count_rounds, print_fill, print_growth};
use operation::{Operation, operations};
use std::env;
use std::io::Print;
use std::rt::Clock;
use std::sync::Wait;
use stock::Scene;
use timing::{Plan, in_session, in_store, stock};

/// How many keys are linked in the keyring.
const COUNTS: [u32; 3] = [10, 1_000, 10_000];

/// How many rounds a run has.
const ROUNDS: u32 = 1_000;

const USAGE: &str = "\
usage: krs_bench all | OPERATION [COUNT] | fill [COUNT] | growth [COUNT] | desk | rows | count OPERATION COUNT
COUNT is how many keys the user keyring links: 10, 1000 and 10000 in turn if it is left out. Prints the nanoseconds
of an ask, or of two, in the store, and through a session over memory: the median of ten runs. Payloads have 32 bytes.
  fill      ADD of keys one after the other, and LEAVE with all of them
  growth    a table of all operations in stores with little and with much; or where the keyring has COUNT links
  desk      READ at a desk: one thread by try_call, and 1, 2, 4, 8 and 16 threads that call for a second
  rows      the operations, a line each: the word, what its two asks are counted as (- is elsewhere), and the asks
  count     makes an operation a hundred times, for bench/instructions
  all       all operations, fill and growth
";

fn main(rt: HostRuntime) -> Result<()> {
    let words: Vec<String> = env::args(&rt)?.collect(rt.alloc())?;
    let name = words.get(1).map_or("", |word| word.as_str());
    let second = words.get(2).map_or("", |word| word.as_str());
    let third = words.get(3).map_or("", |word| word.as_str());
    if name == "count" {
        return count_rounds(&rt, second, third.parse().unwrap_or(10));
    }
    let is_all = name == "all";
    let is_operation = print_operations(&rt, name, second.parse().ok())?;
    if name == "fill" || is_all {
        print_fills(&rt, second.parse().ok())?;
    }
    if name == "growth" || is_all {
        print_growth(&rt, second.parse().ok())?;
    }
    if name == "desk" {
        print_desk(&rt)?;
    }
    if name == "rows" {
        print_operation_rows(&rt)?;
    }
    if !is_operation && name != "fill" && name != "growth" && name != "desk" && name != "rows" {
        rt.print(USAGE)?;
    }
    Ok(())
}

/// The operations: what their asks are counted as, for bench/instructions, and the asks.
fn print_operation_rows<R: AllocGlobal + Print>(rt: &R) -> Result<()> {
    for operation in operations() {
        let (word, (first, second)) = (operation.word(), operation.counted());
        let (ask, other) = (operation.first(), operation.second());
        print!(rt; "{word}|{first}|{second}|{ask}|{other}\n")?;
    }
    Ok(())
}

/// The rows of the operation of that word, or of all. Whether there is one.
fn print_operations<R: AllocGlobal + Clock + Print + Wait>(
    rt: &R,
    name: &str,
    links: Option<u32>,
) -> Result<bool> {
    let mut is_there = false;
    for operation in operations() {
        if name == operation.word() || name == "all" {
            print_rows(rt, *operation, links)?;
            is_there = true;
        }
    }
    Ok(is_there)
}

/// The row of a count, or those of all.
fn print_rows<R: AllocGlobal + Clock + Print + Wait>(
    rt: &R,
    operation: Operation,
    links: Option<u32>,
) -> Result<()> {
    if let Some(links) = links {
        return print_row(rt, operation, links);
    }
    for links in COUNTS {
        print_row(rt, operation, links)?;
    }
    Ok(())
}

fn print_row<R: AllocGlobal + Clock + Print + Wait>(
    rt: &R,
    operation: Operation,
    links: u32,
) -> Result<()> {
    let plan = Plan {
        operation,
        links,
        rounds: ROUNDS,
    };
    let mut store = stock(rt, Scene::linking(links))?;
    let took = in_store(rt, &mut store, plan)?;
    let name = operation.word();
    print!(rt; "{name} with {links} links: {took} ns")?;
    // A session is one client's.
    if operation.client() == 0 {
        let took = in_session(rt, plan)?;
        print!(rt; ", through a session {took} ns")?;
    }
    Ok(rt.print("\n")?)
}

/// The row of a count, or those of all.
fn print_fills<R: AllocGlobal + Clock + Print>(rt: &R, links: Option<u32>) -> Result<()> {
    if let Some(links) = links {
        return print_fill(rt, links);
    }
    for links in COUNTS {
        print_fill(rt, links)?;
    }
    Ok(())
}
